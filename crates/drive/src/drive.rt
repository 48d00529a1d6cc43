// What each make of drive offers, and what it means.
ghost use Rattle.std.specs.Prelude.{◌≡◌};
ghost use Rattle.drive.specs.Command.{command_of};
ghost use Rattle.drive.specs.Fault.{fault_number};
ghost use Rattle.drive.specs.Meaning.{Meaning, CellsLawful, ReferenceLawful, SpeedLawful, FaultLawful, change_answer, changed, RefusedLeaves, with_command, Ticked, Reset};

use crate::cell::Cell;
use crate::change::Change;
use crate::command::Command;
use crate::error::ChangeError;
use crate::fault::Fault;
use crate::key::Key;
use crate::link::Link;
use crate::speed::Speed;

pub trait Drive {
    // Its cells, the command in force, speed, fault and link.
    ghost meaning: { Self → Meaning };

    // The exact relation of the drive before a tick to the drive after it; a maker may leave it open, as the two below.
    ghost ticks: { Self → Self → Type 0 } = { λ _ _. Unit {0} };

    // The same for a reset.
    ghost resets: { Self → Self → Type 0 } = { λ _ _. Unit {0} };

    // What else of the drive, beside its meaning, stays when a cell is changed or a command given.
    ghost keeps: { Self → Self → Type 0 } = { λ _ _. Unit {0} };

    // The cell with this key, or none.
    fn cell(&self, key: Key) -> Option<Cell>
        ensures value { result ≡ (meaning self.now).cells key.group key.number }
        ensures lawful { CellsLawful (meaning self.now) };

    // The cell takes the value, and nothing else of the meaning changes; or the first check that fails refuses it, and the meaning stays.
    fn change(&mut self, change: Change) -> Result<(), ChangeError>
        ensures answer { result ≡ change_answer (meaning self.old) change }
        ensures after { meaning self.new ≡ changed result (meaning self.old) change }
        ensures refused_leaves { RefusedLeaves result (meaning self.old) (meaning self.new) }
        ensures keeps { keeps self.old self.new };

    // The command is in force from now on, and nothing else of the meaning changes.
    fn set_command(&mut self, command: Command)
        ensures after { meaning self.new ≡ with_command (meaning self.old) (command_of command) }
        ensures keeps { keeps self.old self.new };

    // Time goes on: cells and command stay; speed, fault and link may change within what `Ticked` allows.
    fn tick(&mut self)
        ensures after { Ticked (meaning self.old) (meaning self.new) }
        ensures exact { ticks self.old self.new };

    // The fault may change, and nothing else of the meaning.
    fn reset(&mut self)
        ensures after { Reset (meaning self.old) (meaning self.new) }
        ensures exact { resets self.old self.new };

    // The command in force.
    fn command(&self) -> Command
        ensures value { command_of result ≡ (meaning self.now).command }
        ensures lawful { ReferenceLawful (meaning self.now) };

    fn speed(&self) -> Speed
        ensures value { result.value ≡ (meaning self.now).speed }
        ensures lawful { SpeedLawful (meaning self.now) };

    fn fault(&self) -> Option<Fault>
        ensures value { fault_number result ≡ (meaning self.now).fault }
        ensures lawful { FaultLawful (meaning self.now) };

    fn link(&self) -> Link
        ensures { result ≡ (meaning self.now).link };
}
