// The status word: what the master sees of the drive.
ghost use Rattle.std.specs.Prelude.{◌≡◌};
ghost use Rattle.drive.specs.Command.{command_of};
ghost use Rattle.control.specs.StatusWord.{at_reference, shown_if, state_bits, status_word, Shows};

use crate::control_word::ControlWord;
use crate::drive_state::DriveState;
use crate::flags::Flags;
use drive::{Command, Link, Speed};

#[derive(Clone, Copy, Debug, PartialEq, Eq)]
pub struct StatusWord(pub u16);

impl StatusWord {
    // Bit 0.
    pub const READY_TO_SWITCH_ON: u16 = 0x0001;

    // Bit 1.
    pub const READY_TO_OPERATE: u16 = 0x0002;

    // Bit 2: the drive is commanded to run.
    pub const OPERATION_ENABLED: u16 = 0x0004;

    // Bit 3.
    pub const FAULT: u16 = 0x0008;

    // Bits 4 and 5: bits 1 and 2 of the latest control word.
    pub const NO_COAST_STOP: u16 = 0x0010;

    pub const NO_QUICK_STOP: u16 = 0x0020;

    // Bit 6.
    pub const INHIBITED: u16 = 0x0040;

    // Bit 7: the link to the drive is not good.
    pub const LINK_LOST: u16 = 0x0080;

    // Bit 8: running, at the reference.
    pub const AT_REFERENCE: u16 = 0x0100;

    // Bit 9: process data are exchanged.
    pub const DATA_EXCHANGE: u16 = 0x0200;
}

impl Flags for StatusWord {
    ghost bits = { λ word. word.0 };

    fn bits(self) -> u16 {
        self.0
    }
}

// What a status word is made from: the drive state, the latest control word, the drive's own link, command and speed.
#[derive(Clone, Copy)]
pub struct Status {
    pub state: DriveState,
    pub latest: ControlWord,
    pub link: Link,
    pub command: Command,
    pub speed: Speed,
    pub data_exchange: bool,
}

fn shown_if(shown: bool, mask: u16) -> u16
    ensures { result ≡ shown_if shown mask }
{
    if shown { mask } else { 0 }
}

fn at_reference(command: Command, speed: Speed) -> bool
    ensures { result ≡ at_reference (command_of command) speed.value }
{
    match command {
        Command::Run(reference) => speed == reference,
        _ => false,
    }
}

// The bits that the drive state decides.
fn state_bits(state: DriveState) -> u16
    ensures { result ≡ state_bits state }
{
    match state {
        DriveState::Inhibited => StatusWord::INHIBITED,
        DriveState::ReadyOn | DriveState::Off1Active => StatusWord::READY_TO_SWITCH_ON,
        DriveState::ReadyRun => StatusWord::READY_TO_SWITCH_ON | StatusWord::READY_TO_OPERATE,
        DriveState::Operating => {
            StatusWord::READY_TO_SWITCH_ON
                | StatusWord::READY_TO_OPERATE
                | StatusWord::OPERATION_ENABLED
        }
        DriveState::Off3Active => 0,
        DriveState::Fault => StatusWord::FAULT,
    }
}

impl Status {
    pub fn word(self) -> StatusWord
        ensures value { result.0 ≡ status_word self }
        ensures shows { Shows self result.0 }
    {
        StatusWord(
            state_bits(self.state)
                | shown_if(
                    self.latest.has(ControlWord::NO_COAST_STOP),
                    StatusWord::NO_COAST_STOP,
                )
                | shown_if(
                    self.latest.has(ControlWord::NO_QUICK_STOP),
                    StatusWord::NO_QUICK_STOP,
                )
                | shown_if(self.link != Link::Good, StatusWord::LINK_LOST)
                | shown_if(
                    at_reference(self.command, self.speed),
                    StatusWord::AT_REFERENCE,
                )
                | shown_if(self.data_exchange, StatusWord::DATA_EXCHANGE),
        )
    }
}
