// The drive states of a station: how control words step them, how an event settles, command, reference, scaling and status word.
// Numbers and enums only: no drive is called from here, and nothing of the bus.
#![tactic(auto)]

mod command;
mod control_word;
mod drive_state;
mod flags;
mod references;
mod scale;
mod settling;
mod status_word;
mod transitions;

pub use command::command_for;
pub use control_word::ControlWord;
pub use drive_state::DriveState;
pub use flags::Flags;
pub use references::reference;
pub use scale::{scaled_speed, shown_speed};
pub use settling::{leave, settle};
pub use status_word::{Status, StatusWord};
pub use transitions::{Stepped, step};
