// What a drive is: its cells, the command in force, speed, fault and link, and the trait that each make of drive meets.
// No allocation, and nothing of the bus: a drive's maker takes this crate alone.
#![tactic(auto)]

mod cell;
mod change;
mod command;
mod drive;
mod error;
mod fault;
mod key;
mod lent;
mod link;
mod speed;
mod ticking;
mod width;

pub use cell::Cell;
pub use change::Change;
pub use command::Command;
pub use drive::Drive;
pub use error::ChangeError;
pub use fault::Fault;
pub use key::Key;
pub use link::Link;
pub use speed::Speed;
pub use ticking::tick_times;
pub use width::Width;
