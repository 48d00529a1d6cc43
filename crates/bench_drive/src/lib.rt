// A drive for the test bench: eight cells, its target reached in one tick, and faults and lost links by a plan.
#![tactic(auto)]

mod bench;
mod plan;
mod state;

pub use plan::PlanEntry;
pub use state::BenchDrive;
