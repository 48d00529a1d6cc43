// What the drive is commanded in each state.
ghost use Rattle.std.specs.Prelude.{◌≡◌};
ghost use Rattle.drive.specs.Command.{command_of};
ghost use Rattle.control.specs.Command.{command_for, RunExactlyInOperating};

use crate::drive_state::DriveState;
use drive::{Command, Speed};

// The command for a state, with this reference where the drive is to run.
pub fn command_for(state: DriveState, reference: Speed) -> Command
    ensures value { command_of result ≡ command_for state reference.value }
    ensures run_exactly_in_operating { RunExactlyInOperating state (command_of result) }
{
    match state {
        DriveState::Operating => Command::Run(reference),
        DriveState::Off1Active => Command::RampStop,
        DriveState::Off3Active => Command::QuickStop,
        _ => Command::Off,
    }
}
