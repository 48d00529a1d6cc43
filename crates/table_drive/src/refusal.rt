// Why a list of cells is refused.
ghost use Rattle.std.specs.Prelude.{◌≡◌, Some};
ghost use Rattle.table_drive.specs.Refusal.{list_refusal_number, list_refusal_text};

use std::error::Error;
use std::fmt;

// The cases stand in the order of their numbers, which is the order of the checks.
#[derive(Clone, Copy, Debug, PartialEq, Eq)]
pub enum ListRefusal {
    // there are over 256 cells, or they do not rise strictly by group, then number
    BadList = 8,
    // a cell has group or number 0, a limit outside its width or a value outside its limits
    BadCell = 9,
}

// The number under which a refusal is reported.
impl From<ListRefusal> for u8 {
    ghost from_gives = { λ refusal number. number ≡ list_refusal_number refusal };

    fn from(refusal: ListRefusal) -> u8 {
        refusal as u8
    }
}

impl fmt::Display for ListRefusal {
    ghost output = { λ refusal. Some (list_refusal_text refusal) };

    fn fmt<W: fmt::Write>(&self, f: &mut fmt::Formatter<W>) -> fmt::Result {
        f.pad(match self {
            Self::BadList => "the list has too many cells, or they do not rise",
            Self::BadCell => "a cell of the list is not sound",
        })
    }
}

impl Error for ListRefusal {}
