// What a table drive holds: the cells lie in the caller's list, and are changed there.
ghost use Rattle.std.specs.Prelude.{◌≡◌, true};
ghost use Rattle.table_drive.specs.Acceptance.{cells_rise, all_sound};

use drive::{Cell, Command, Speed};

#[derive(Drop)]
pub struct TableDrive<'a> {
    pub(crate) cells: &'a mut [Cell],
    // no cell is in use until the list is accepted; a flag, as the list is held either way
    pub(crate) accepted: bool,
    pub(crate) command: Command,
    pub(crate) speed: Speed,
    // by how much the speed changes in a tick
    pub(crate) step: u16,
    ghost rising: { (accepted ≡ true → cells_rise cells.now ≡ true) },
    ghost sound: { (accepted ≡ true → all_sound cells.now ≡ true) },
}
