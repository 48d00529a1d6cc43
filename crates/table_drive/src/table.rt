// The table drive: made over a caller's list, which it has to accept before a cell is in use.
ghost use Rattle.std.specs.Prelude.{◌≡◌};
ghost use Rattle.drive.specs.Command.{command_of};
ghost use Rattle.drive.specs.Meaning.{with_cells, with_command, change_answer, changed, RefusedLeaves};
ghost use Rattle.table_drive.specs.Acceptance.{acceptance};
ghost use Rattle.table_drive.specs.Laws.{FindsItsCellsAndNothingElse};
ghost use Rattle.table_drive.specs.Table.{table_meaning, table_made, held_step, cells_after, TableTicks, TableResets, list_after, Keeps, SameList, Placed};

use crate::acceptance::judge;
use crate::refusal::ListRefusal;
use crate::state::TableDrive;
use drive::{Cell, Change, ChangeError, Command, Drive, Fault, Key, Link, Speed};

// A step is held within these.
const LEAST_STEP: u16 = 1;

const MOST_STEP: u16 = 20000;

impl<'a> TableDrive<'a> {
    // Off and at standstill, over this list, with no cell in use; the step is held within 1 to 20000.
    pub fn new(cells: &'a mut [Cell], step: u16) -> TableDrive<'a>
        ensures meaning { table_meaning result ≡ table_made }
        ensures step { result.step ≡ held_step step }
        ensures list { result.cells.now ≡ cells.old }
        ensures lent { result.cells.ghost_name ≡ cells.entry.ghost_name }
    {
        TableDrive {
            cells,
            accepted: false,
            command: Command::Off,
            speed: Speed::ZERO,
            step: step.clamp(LEAST_STEP, MOST_STEP),
        }
    }
}

impl TableDrive<'_> {
    // The answer to the list, in a method of its own: what the lent list holds is known only through a `&self`.
    fn judged(&self) -> Result<(), ListRefusal>
        ensures { result ≡ acceptance self.now.cells.now }
    {
        judge(self.cells)
    }

    // Puts the list's cells in use; or refuses the list, and no cell is in use.
    pub fn accept(&mut self) -> Result<(), ListRefusal>
        ensures answer { result ≡ acceptance self.old.cells.now }
        ensures after { table_meaning self.new ≡ with_cells (table_meaning self.old) (cells_after result self.old.cells.now) }
        ensures list { SameList self.old self.new }
        ensures keeps { Keeps self.old self.new }
        ensures finds { FindsItsCellsAndNothingElse result self.old.cells.now (table_meaning self.new).cells }
    {
        let verdict = self.judged();
        self.accepted = verdict.is_ok();
        verdict
    }

    // The place in the list of the cell in use with this key, or none.
    fn place(&self, key: Key) -> Option<usize>
        ensures { Placed self.now.accepted self.now.cells.now key result }
    {
        if !self.accepted {
            return None;
        }
        self.cells.binary_search_by_key(&key, |cell| cell.key).ok()
    }
}

impl Drive for TableDrive<'_> {
    ghost meaning = { table_meaning };

    ghost ticks = { TableTicks };

    ghost resets = { TableResets };

    ghost keeps = { Keeps };

    fn cell(&self, key: Key) -> Option<Cell> {
        let i = self.place(key)?;
        Some(self.cells[i])
    }

    // One record of the list is written whole, the others stay.
    fn change(&mut self, change: Change) -> Result<(), ChangeError>
        ensures answer { result ≡ change_answer (table_meaning self.old) change }
        ensures after { table_meaning self.new ≡ changed result (table_meaning self.old) change }
        ensures refused_leaves { RefusedLeaves result (table_meaning self.old) (table_meaning self.new) }
        ensures keeps { Keeps self.old self.new }
        ensures list { self.new.cells.now ≡ list_after result self.old.cells.now change.key change.value }
    {
        let i = self.place(change.key).ok_or(ChangeError::NoCell)?;
        let cell = self.cells[i];
        cell.check_change(self.command, change.width, change.value)?;
        self.cells[i] = cell.with_value(change.value);
        Ok(())
    }

    fn set_command(&mut self, command: Command)
        ensures after { table_meaning self.new ≡ with_command (table_meaning self.old) (command_of command) }
        ensures keeps { Keeps self.old self.new }
        ensures list { SameList self.old self.new }
    {
        self.command = command;
    }

    fn tick(&mut self) {
        self.speed = self.speed.toward(self.command.target(), self.step);
    }

    // There is no fault that a reset could clear.
    fn reset(&mut self) {}

    fn command(&self) -> Command {
        self.command
    }

    fn speed(&self) -> Speed {
        self.speed
    }

    fn fault(&self) -> Option<Fault> {
        None
    }

    fn link(&self) -> Link {
        Link::Good
    }
}
