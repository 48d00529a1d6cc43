// The control word: what a master asks of the drive.
use crate::flags::Flags;

#[derive(Clone, Copy, Debug, PartialEq, Eq)]
pub struct ControlWord(pub u16);

impl ControlWord {
    // Bit 0: on; clear asks to stop along the ramp (OFF1).
    pub const ON: u16 = 0x0001;

    // Bit 1: clear asks to coast (OFF2).
    pub const NO_COAST_STOP: u16 = 0x0002;

    // Bit 2: clear asks to stop as fast as the drive can (OFF3).
    pub const NO_QUICK_STOP: u16 = 0x0004;

    // Bit 3: operation enabled.
    pub const ENABLE_OPERATION: u16 = 0x0008;

    // Bit 4: clear makes the reference 0.
    pub const ENABLE_RAMP: u16 = 0x0010;

    // Bit 5: clear freezes the reference.
    pub const UNFREEZE_RAMP: u16 = 0x0020;

    // Bit 6: clear makes the reference 0.
    pub const ENABLE_SETPOINT: u16 = 0x0040;

    // Bit 7: rising, it acknowledges a fault.
    pub const ACKNOWLEDGE: u16 = 0x0080;

    // Bit 10: the word is meant; clear, it is not taken.
    pub const CONTROL_BY_MASTER: u16 = 0x0400;
}

impl Flags for ControlWord {
    ghost bits = { λ word. word.0 };

    fn bits(self) -> u16 {
        self.0
    }
}
