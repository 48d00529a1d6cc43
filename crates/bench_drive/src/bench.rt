// The bench drive: made with a plan or without, and what it does as a drive.
ghost use Rattle.std.specs.Prelude.{◌≡◌, replicate};
ghost use Rattle.bench_drive.specs.Bench.{bench_meaning, bench_made, BenchTicks, BenchResets, SamePlan};
ghost use Rattle.bench_drive.specs.Cells.{bench_cell, place};
ghost use Rattle.bench_drive.specs.Plan.{unused};

use crate::plan::{PlanEntry, planned};
use crate::state::BenchDrive;
use drive::{Cell, Change, ChangeError, Command, Drive, Fault, Key, Link, Speed, Width};

// The group of all the cells.
const GROUP: u8 = 12;

// The number of the last cell; the first is 1.
const LAST: u8 = 8;

// The low limit of each cell.
const LOW: i32 = -2000;

// The high limit of each cell.
const HIGH: i32 = 2000;

// The value of each cell when made.
const FIRST_VALUE: i32 = 1000;

// The number of the cell that is not writable.
const NOT_WRITABLE: u8 = 8;

// The number of the cell that is changeable only while off.
const ONLY_WHILE_OFF: u8 = 7;

// The count is held at the tick after 65535, the last that a plan can name.
const PAST_PLAN: u32 = 65536;

// The cell with this number and value.
fn bench_cell(number: u8, value: i32) -> Cell
    ensures { result ≡ bench_cell number value }
{
    Cell {
        key: Key {
            group: GROUP,
            number,
        },
        width: Width::Word,
        low: LOW,
        high: HIGH,
        value,
        writable: number != NOT_WRITABLE,
        only_while_off: number == ONLY_WHILE_OFF,
    }
}

// The place of a cell's value among the values.
fn place(key: Key) -> Option<usize>
    ensures { result ≡ place key.group key.number }
{
    if key.group == GROUP && (1..=LAST).contains(&key.number) {
        Some(usize::from(key.number - 1))
    } else {
        None
    }
}

impl BenchDrive {
    // Off and at standstill, with no fault, a good link and nothing planned.
    pub fn new() -> BenchDrive
        ensures meaning { bench_meaning result ≡ bench_made }
        ensures clock { result.ticks ≡ 0 }
        ensures plan { result.plan ≡ replicate 8 unused }
    {
        BenchDrive::with_plan([PlanEntry::UNUSED; 8])
    }

    // The same, with this plan.
    pub fn with_plan(plan: [PlanEntry; 8]) -> BenchDrive
        ensures meaning { bench_meaning result ≡ bench_made }
        ensures clock { result.ticks ≡ 0 }
        ensures plan { result.plan ≡ plan }
    {
        BenchDrive {
            values: [FIRST_VALUE; 8],
            command: Command::Off,
            speed: Speed::ZERO,
            fault: None,
            link: Link::Good,
            ticks: 0,
            plan,
        }
    }
}

impl Drive for BenchDrive {
    ghost meaning = { bench_meaning };

    ghost ticks = { BenchTicks };

    ghost resets = { BenchResets };

    ghost keeps = { SamePlan };

    fn cell(&self, key: Key) -> Option<Cell> {
        let place = place(key)?;
        Some(bench_cell(key.number, self.values[place]))
    }

    fn change(&mut self, change: Change) -> Result<(), ChangeError> {
        let place = place(change.key).ok_or(ChangeError::NoCell)?;
        let cell = bench_cell(change.key.number, self.values[place]);
        cell.check_change(self.command, change.width, change.value)?;
        self.values[place] = change.value;
        Ok(())
    }

    fn set_command(&mut self, command: Command) {
        self.command = command;
    }

    // The target is reached in one tick, also with a fault or a lost link.
    fn tick(&mut self) {
        self.speed = self.command.target();
        self.ticks = (self.ticks + 1).min(PAST_PLAN);
        if let Some(entry) = planned(&self.plan, self.ticks) {
            self.link = Link::from(entry.link);
            self.fault = entry.fault.or(self.fault);
        }
    }

    fn reset(&mut self) {
        self.fault = None;
    }

    fn command(&self) -> Command {
        self.command
    }

    fn speed(&self) -> Speed {
        self.speed
    }

    fn fault(&self) -> Option<Fault> {
        self.fault
    }

    fn link(&self) -> Link {
        self.link
    }
}
