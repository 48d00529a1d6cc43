// Whether the drive can be reached.
ghost use Rattle.std.specs.Prelude.{◌≡◌, Some};
ghost use Rattle.std.specs.Fmt.{styled_text};
ghost use Rattle.drive.specs.Link.{link_number, link_of, link_text};

use std::fmt;

#[derive(Clone, Copy, Debug, PartialEq, Eq)]
pub enum Link {
    Good = 0,
    LostForNow = 1,
    LostForGood = 2,
}

// The number under which a link is reported.
impl From<Link> for u8 {
    ghost from_gives = { λ link number. number ≡ link_number link };

    fn from(link: Link) -> u8 {
        link as u8
    }
}

// The link with a number; a number above 2 means 2.
impl From<u8> for Link {
    ghost from_gives = { λ number link. link ≡ link_of number };

    fn from(number: u8) -> Link {
        match number {
            0 => Link::Good,
            1 => Link::LostForNow,
            _ => Link::LostForGood,
        }
    }
}

impl fmt::Display for Link {
    ghost output = { λ link. Some (link_text link) };

    ghost styled_output = { λ link style. Some (styled_text style (link_text link)) };

    fn fmt<W: fmt::Write>(&self, f: &mut fmt::Formatter<W>) -> fmt::Result {
        f.pad(match self {
            Self::Good => "good",
            Self::LostForNow => "lost for now",
            Self::LostForGood => "lost for good",
        })
    }
}
