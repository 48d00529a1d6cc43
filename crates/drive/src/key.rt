// What a cell is found by: its group, then its number.
ghost use Rattle.std.specs.Prelude.{◌≡◌, Some};
ghost use Rattle.drive.specs.Key.{key_text};

use std::fmt;

#[derive(Clone, Copy, Debug, PartialEq, Eq, PartialOrd, Ord)]
pub struct Key {
    pub group: u8,
    pub number: u8,
}

impl Key {
    pub fn new(group: u8, number: u8) -> Key
        ensures group { result.group ≡ group }
        ensures number { result.number ≡ number }
    {
        Key { group, number }
    }
}

// As in 12.04: the number has two digits at least.
impl fmt::Display for Key {
    ghost output = { λ key. Some (key_text key) };

    fn fmt<W: fmt::Write>(&self, f: &mut fmt::Formatter<W>) -> fmt::Result {
        let (group, number) = (self.group, self.number);
        write!(f, "{group}.{number:02}")
    }
}
