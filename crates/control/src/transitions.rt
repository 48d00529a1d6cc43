// How a control word steps the drive state.
ghost use Rattle.std.specs.Prelude.{◌≡◌};
ghost use Rattle.control.specs.Step.{one_step, stepped, asks_reset};
ghost use Rattle.control.specs.StepLaws.{StandsStill, OperatingOnlyByRunWord, ReleasedOnlyByReleaseWord, FaultStays};

use crate::control_word::ControlWord;
use crate::drive_state::DriveState;
use crate::flags::Flags;

// What a taken control word leads to.
// No Option of a state: the state is there whether or not a reset is asked.
#[derive(Clone, Copy, Debug, PartialEq, Eq)]
pub struct Stepped {
    pub state: DriveState,
    // the drive is to be reset, once
    pub reset: bool,
}

// One step by the first line that fits.
// state and word stay two parameters: steps change the one and keep the other.
fn one_step(state: DriveState, word: ControlWord) -> DriveState
    ensures { result ≡ one_step word.0 state }
{
    match (state, word) {
        (DriveState::Fault, _) => DriveState::Fault,
        (_, w) if !w.has(ControlWord::NO_COAST_STOP) => DriveState::Inhibited,
        (DriveState::Operating | DriveState::Off1Active, w) if !w.has(ControlWord::NO_QUICK_STOP) =>
            DriveState::Off3Active,
        (DriveState::ReadyOn | DriveState::ReadyRun, w) if !w.has(ControlWord::NO_QUICK_STOP) =>
            DriveState::Inhibited,
        (other, w) if !w.has(ControlWord::NO_QUICK_STOP) => other,
        (DriveState::Off3Active, _) => DriveState::Off3Active,
        (DriveState::Inhibited, w) if !w.has(ControlWord::ON) => DriveState::ReadyOn,
        (DriveState::ReadyOn, w) if w.has(ControlWord::ON) => DriveState::ReadyRun,
        (DriveState::ReadyRun, w) if !w.has(ControlWord::ON) => DriveState::ReadyOn,
        (DriveState::ReadyRun, w) if w.has(ControlWord::ENABLE_OPERATION) => DriveState::Operating,
        (DriveState::Operating, w) if !w.has(ControlWord::ON) => DriveState::Off1Active,
        (DriveState::Operating, w) if !w.has(ControlWord::ENABLE_OPERATION) => DriveState::ReadyRun,
        (DriveState::Off1Active, w) if w.has(ControlWord::ON) => DriveState::ReadyRun,
        (other, _) => other,
    }
}

// Steps until the state stands still: no word makes more than two.
fn steps(state: DriveState, word: ControlWord) -> DriveState
    ensures { result ≡ stepped word.0 state }
{
    one_step(one_step(state, word), word)
}

// Whether a taken word asks for a reset: in FAULT, where bit 7 has risen since the word before.
fn asks_reset(state: DriveState, before: ControlWord, word: ControlWord) -> bool
    ensures { result ≡ asks_reset state before.0 word.0 }
{
    state == DriveState::Fault
        && word.has(ControlWord::ACKNOWLEDGE)
        && !before.has(ControlWord::ACKNOWLEDGE)
}

// What a taken word leads to, after the word before it.
pub fn step(state: DriveState, before: ControlWord, word: ControlWord) -> Stepped
    ensures state { result.state ≡ stepped word.0 state }
    ensures reset { result.reset ≡ asks_reset state before.0 word.0 }
    ensures stands_still { StandsStill word.0 state result.state }
    ensures operating_only_by_run_word { OperatingOnlyByRunWord word.0 result.state }
    ensures released_only_by_release_word { ReleasedOnlyByReleaseWord word.0 state result.state }
    ensures fault_stays { FaultStays state result.state }
{
    Stepped {
        state: steps(state, word),
        reset: asks_reset(state, before, word),
    }
}
