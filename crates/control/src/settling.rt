// How an event settles, and what leaving data exchange makes of the drive state.
ghost use Rattle.std.specs.Prelude.{◌≡◌};
ghost use Rattle.drive.specs.Fault.{fault_number};
ghost use Rattle.control.specs.Settle.{settled, left, Settles};

use crate::drive_state::DriveState;
use drive::{Fault, Speed};

// The state after an event, by the drive's fault and speed then.
pub fn settle(state: DriveState, fault: Option<Fault>, speed: Speed) -> DriveState
    ensures value { result ≡ settled state (fault_number fault) speed.value }
    ensures settles { Settles state (fault_number fault) speed.value result }
{
    if fault.is_some() {
        return DriveState::Fault;
    }
    let standstill = speed == Speed::ZERO;
    match state {
        DriveState::Fault => DriveState::Inhibited,
        DriveState::Off1Active if standstill => DriveState::ReadyOn,
        DriveState::Off3Active if standstill => DriveState::Inhibited,
        other => other,
    }
}

// The state once data exchange is left: INHIBITED unless FAULT.
pub fn leave(state: DriveState) -> DriveState
    ensures { result ≡ left state }
{
    match state {
        DriveState::Fault => DriveState::Fault,
        _ => DriveState::Inhibited,
    }
}
