// The states of the drive, as the master sees them.
ghost use Rattle.std.specs.Prelude.{◌≡◌};
ghost use Rattle.control.specs.DriveState.{state_number};

#[derive(Clone, Copy, Debug, PartialEq, Eq)]
pub enum DriveState {
    // switching on is inhibited until a word releases it
    Inhibited = 0,
    // ready to be switched on
    ReadyOn = 1,
    // switched on, ready to run
    ReadyRun = 2,
    // operation enabled: the only state in which the drive is commanded to run
    Operating = 3,
    // stopping along the ramp
    Off1Active = 4,
    // stopping as fast as the drive can
    Off3Active = 5,
    // the drive has a fault
    Fault = 6,
}

// The number under which the state is reported.
impl From<DriveState> for u8 {
    ghost from_gives = { λ state number. number ≡ state_number state };

    fn from(state: DriveState) -> u8 {
        state as u8
    }
}
