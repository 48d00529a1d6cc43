// What the owner of a lent list knows once the drive is gone: proved from the table drive's contracts alone.
ghost use Rattle.std.specs.Prelude.{◌≡◌};
ghost use Rattle.table_drive.specs.Table.{list_after};

use crate::asked::change;
use drive::{Cell, Change, ChangeError, Command, Drive, Key, Width};
use table_drive::TableDrive;

// The list is as it was, whatever the drive was commanded.
fn commanded(list: &mut [Cell], command: Command)
    ensures { list.new ≡ list.old }
{
    let mut table = TableDrive::new(list, 5);
    let _ = table.accept();
    table.set_command(command);
    table.tick();
    table.reset();
}

// One record is written, or none where the change was refused.
fn changed(list: &mut [Cell], change: Change) -> Result<(), ChangeError>
    ensures { list.new ≡ list_after result list.old change.key change.value }
{
    let mut table = TableDrive::new(list, 5);
    let _ = table.accept();
    table.change(change)
}

#[test]
fn a_list_read_afterwards(rt: HostRuntime) {
    let cell = Cell {
        key: Key::new(20, 1),
        width: Width::Double,
        low: -70000,
        high: 70000,
        value: 0,
        writable: true,
        only_while_off: false,
    };
    let second = Cell {
        key: Key::new(20, 2),
        ..cell
    };
    let mut list = [cell, second];
    commanded(&mut list, Command::QuickStop);
    assert_eq!(rt; list, [cell, second]);
    assert!(rt; changed(&mut list, change(20, 2, Width::Double, -70000)).is_ok());
    assert!(rt; changed(&mut list, change(20, 1, Width::Double, -70001)).is_err());
    assert_eq!(rt; list, [cell, second.with_value(-70000)]);
}
