// A lent drive is a drive: a caller keeps its drive, and lends it for a while.
ghost use Rattle.std.specs.Prelude.{◌≡◌};

use crate::cell::Cell;
use crate::change::Change;
use crate::command::Command;
use crate::drive::Drive;
use crate::error::ChangeError;
use crate::fault::Fault;
use crate::key::Key;
use crate::link::Link;
use crate::speed::Speed;

impl<D: Drive> Drive for &mut D {
    ghost meaning = { λ d. D.Drive.meaning d.now };

    ghost ticks = { λ before after. D.Drive.ticks before.now after.now };

    ghost resets = { λ before after. D.Drive.resets before.now after.now };

    ghost keeps = { λ before after. D.Drive.keeps before.now after.now };

    fn cell(&self, key: Key) -> Option<Cell> {
        (**self).cell(key)
    }

    fn change(&mut self, change: Change) -> Result<(), ChangeError> {
        (**self).change(change)
    }

    fn set_command(&mut self, command: Command) {
        (**self).set_command(command);
    }

    fn tick(&mut self) {
        (**self).tick();
    }

    fn reset(&mut self) {
        (**self).reset();
    }

    fn command(&self) -> Command {
        (**self).command()
    }

    fn speed(&self) -> Speed {
        (**self).speed()
    }

    fn fault(&self) -> Option<Fault> {
        (**self).fault()
    }

    fn link(&self) -> Link {
        (**self).link()
    }
}
