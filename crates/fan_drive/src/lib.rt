// A fan's drive, the example of the drive maker's guide: one cell, a ramp, and a trip when it is to turn backwards.
#![tactic(auto)]

mod fan;
mod state;

pub use state::FanDrive;
