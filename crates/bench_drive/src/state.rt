// What a bench drive holds.
ghost use Rattle.std.specs.Prelude.{◌≡◌, ◌≤◌, true};
ghost use Rattle.bench_drive.specs.Cells.{all_within};

use crate::plan::PlanEntry;
use drive::{Command, Fault, Link, Speed};

#[derive(Drop)]
pub struct BenchDrive {
    // the values of the cells 12.01 to 12.08
    pub(crate) values: [i32; 8],
    pub(crate) command: Command,
    pub(crate) speed: Speed,
    pub(crate) fault: Option<Fault>,
    pub(crate) link: Link,
    // how many ticks there were, held at 65536
    pub(crate) ticks: u32,
    // eight places, for no memory is allocated; unused ones have tick 0
    pub(crate) plan: [PlanEntry; 8],
    ghost within: { all_within values ≡ true },
    ghost counted: { ticks ≤ 65536 },
}
