// Why a change of a cell is refused.
ghost use Rattle.std.specs.Prelude.{◌≡◌, Some};
ghost use Rattle.drive.specs.Error.{error_number, error_text};

use std::error::Error;
use std::fmt;

// The cases stand in the order of the checks.
#[derive(Clone, Copy, Debug, PartialEq, Eq)]
pub enum ChangeError {
    // there is no such cell
    NoCell = 0,
    // the cell is not writable
    NotWritable = 1,
    // the cell has another width
    OtherWidth = 5,
    // the value is outside the cell's limits
    OutsideLimits = 2,
    // the cell is changeable only while off, and the command in force is not off
    OnlyWhileOff = 17,
}

// The number under which an error is reported.
impl From<ChangeError> for u8 {
    ghost from_gives = { λ error number. number ≡ error_number error };

    fn from(error: ChangeError) -> u8 {
        error as u8
    }
}

impl fmt::Display for ChangeError {
    ghost output = { λ error. Some (error_text error) };

    fn fmt<W: fmt::Write>(&self, f: &mut fmt::Formatter<W>) -> fmt::Result {
        f.pad(match self {
            Self::NoCell => "there is no such cell",
            Self::NotWritable => "the cell is not writable",
            Self::OtherWidth => "the cell has another width",
            Self::OutsideLimits => "the value is outside the cell's limits",
            Self::OnlyWhileOff => "the cell is changeable only while off",
        })
    }
}

impl Error for ChangeError {}
