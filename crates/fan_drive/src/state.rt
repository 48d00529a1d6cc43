// What a fan's drive holds.
ghost use Rattle.std.specs.Prelude.{◌≤◌};

use drive::{Command, Fault, Speed};

#[derive(Drop)]
pub struct FanDrive {
    // by how much the speed changes in a tick: the value of cell 1.01
    pub(crate) step: u16,
    pub(crate) command: Command,
    pub(crate) speed: Speed,
    pub(crate) fault: Option<Fault>,
    ghost low: { 1 ≤ step },
    ghost high: { step ≤ 20000 },
}
