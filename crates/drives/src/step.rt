// What is done to a drive, one step at a time.
ghost use Rattle.std.specs.Prelude.{◌≡◌};
ghost use Rattle.drives.specs.Step.{Stepped};

use drive::{Change, ChangeError, Command, Drive};
use std::fmt;

// An enum and no closure: a step is printed as well as taken.
#[derive(Clone, Copy)]
pub enum Step {
    Command(Command),
    Change(Change),
    Tick,
    Reset,
}

// Takes the step; only a change can be refused.
pub fn take<D: Drive>(drive: &mut D, step: Step) -> Result<(), ChangeError>
    ensures { Stepped (D.Drive.ticks drive.old drive.new) (D.Drive.resets drive.old drive.new) (D.Drive.keeps drive.old drive.new) step result (D.Drive.meaning drive.old) (D.Drive.meaning drive.new) }
{
    match step {
        Step::Command(command) => drive.set_command(command),
        Step::Change(change) => return drive.change(change),
        Step::Tick => drive.tick(),
        Step::Reset => drive.reset(),
    }
    Ok(())
}

impl fmt::Display for Step {
    fn fmt<W: fmt::Write>(&self, f: &mut fmt::Formatter<W>) -> fmt::Result {
        match self {
            Step::Command(_) => write!(f, "command"),
            Step::Change(Change { key, value, .. }) => write!(f, "change {key} to {value}"),
            Step::Tick => write!(f, "tick"),
            Step::Reset => write!(f, "reset"),
        }
    }
}
