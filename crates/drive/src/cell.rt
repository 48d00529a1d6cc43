// A drive's parameter.
ghost use Rattle.std.specs.Prelude.{◌≡◌};
ghost use Rattle.drive.specs.Cell.{has_valid_key, limits_within_width, is_sound, change_check, TakenFits, with_value};
ghost use Rattle.drive.specs.Width.{within};
ghost use Rattle.drive.specs.Command.{command_of};

use crate::command::Command;
use crate::error::ChangeError;
use crate::key::Key;
use crate::width::Width;

// A sound cell has a group and a number of 1 to 255, limits within the width and a value within the limits.
#[derive(Clone, Copy, Debug, PartialEq, Eq)]
pub struct Cell {
    pub key: Key,
    pub width: Width,
    pub low: i32,
    pub high: i32,
    pub value: i32,
    pub writable: bool,
    pub only_while_off: bool,
}

impl Cell {
    // Whether group and number are 1 to 255.
    fn has_valid_key(&self) -> bool
        ensures { result ≡ has_valid_key self.now }
    {
        self.key.group != 0 && self.key.number != 0
    }

    fn has_limits_within_width(&self) -> bool
        ensures { result ≡ limits_within_width self.now }
    {
        self.width.fits(self.low) && self.width.fits(self.high)
    }

    // Whether a value lies within the limits.
    fn allows(&self, value: i32) -> bool
        ensures { result ≡ within self.now.low self.now.high value }
    {
        (self.low..=self.high).contains(&value)
    }

    // Whether group and number are 1 to 255, the limits lie within the width and the value within the limits.
    pub fn is_sound(&self) -> bool
        ensures { result ≡ is_sound self.now }
    {
        self.has_valid_key() && self.has_limits_within_width() && self.allows(self.value)
    }

    // Whether the cell takes this value under this command, and if not, which check fails first.
    // Width and value and no Change: the cell is at hand, so there is no key to give.
    pub fn check_change(
        &self,
        command: Command,
        width: Width,
        value: i32,
    ) -> Result<(), ChangeError>
        ensures value { result ≡ change_check self.now (command_of command) width value }
        ensures taken_fits { TakenFits result self.now value }
    {
        if !self.writable {
            return Err(ChangeError::NotWritable);
        }
        if self.width != width {
            return Err(ChangeError::OtherWidth);
        }
        if !self.allows(value) {
            return Err(ChangeError::OutsideLimits);
        }
        if self.only_while_off && !command.is_off() {
            return Err(ChangeError::OnlyWhileOff);
        }
        Ok(())
    }

    // The same cell with this value.
    pub fn with_value(self, value: i32) -> Cell
        ensures { result ≡ with_value self value }
    {
        Cell { value, ..self }
    }
}
