// PROFIBUS telegrams: a reader that borrows its input, a writer into a lent buffer, and hexadecimal text.
// No allocation, and nothing of the station: a gateway takes this crate alone.
#![tactic(auto)]

mod check;
pub mod hex;
mod reader;
mod refusal;
mod telegram;
mod writer;

pub use reader::read;
pub use refusal::Refusal;
pub use telegram::{Address, Frame, Function, FunctionCode, Kind, Telegram};
pub use writer::{MOST_DATA, ROOM, write};
