// A drive whose cells lie in a list that the caller lends, and are changed there.
// No allocation: the memory is the caller's.
#![tactic(auto)]

mod acceptance;
mod refusal;
mod state;
mod table;

pub use acceptance::MOST_CELLS;
pub use refusal::ListRefusal;
pub use state::TableDrive;
