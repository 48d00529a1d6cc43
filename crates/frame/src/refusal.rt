// Why a telegram is refused.
ghost use Rattle.std.specs.Prelude.{◌≡◌, Some};
ghost use Rattle.frame.specs.Refusal.{refusal_number, refusal_text};

use std::error::Error;
use std::fmt;

// The cases stand in the order of their numbers, which is the order of the checks.
#[derive(Clone, Copy, Debug, PartialEq, Eq)]
pub enum Refusal {
    // the writer's buffer is under 255 bytes
    BufferTooSmall = 3,
    // the bytes have neither the short nor the long layout
    NoLayout = 4,
    // the FCS is not the sum of DA, SA, FC and the data
    WrongCheckByte = 5,
    // the writer is handed over 246 data bytes
    DataTooLong = 7,
}

// The number under which a refusal is reported.
impl From<Refusal> for u8 {
    ghost from_gives = { λ refusal number. number ≡ refusal_number refusal };

    fn from(refusal: Refusal) -> u8 {
        refusal as u8
    }
}

impl fmt::Display for Refusal {
    ghost output = { λ refusal. Some (refusal_text refusal) };

    fn fmt<W: fmt::Write>(&self, f: &mut fmt::Formatter<W>) -> fmt::Result {
        f.pad(match self {
            Self::BufferTooSmall => "buffer too small",
            Self::NoLayout => "no layout",
            Self::WrongCheckByte => "wrong check byte",
            Self::DataTooLong => "data too long",
        })
    }
}

impl Error for Refusal {}
