// How the drives move.
use drive::{Cell, Command, Drive, Link, Speed, tick_times};
use table_drive::TableDrive;

// The speed after so many ticks.
fn after<D: Drive>(drive: &mut D, ticks: u32) -> i32 {
    tick_times(drive, ticks);
    drive.speed().value()
}

fn run<D: Drive>(drive: &mut D, reference: i32) {
    drive.set_command(Command::Run(Speed::held(reference)));
}

#[test]
fn table_drive_as_made(rt: HostRuntime) {
    let mut list: [Cell; 0] = [];
    let table = TableDrive::new(&mut list, 5);
    assert_eq!(rt; table.command(), Command::Off);
    assert_eq!(rt; table.speed().value(), 0);
    assert_eq!(rt; table.fault(), None);
    assert_eq!(rt; table.link(), Link::Good);
}

#[test]
fn ramp_from_end_to_end_by_seven(rt: HostRuntime) {
    let mut list: [Cell; 0] = [];
    let mut table = TableDrive::new(&mut list, 7);
    run(&mut table, -20000);
    assert_eq!(rt; after(&mut table, 2857), -19999);
    assert_eq!(rt; after(&mut table, 1), -20000);
    run(&mut table, 20000);
    assert_eq!(rt; after(&mut table, 1), -19993);
    assert_eq!(rt; after(&mut table, 2857), 6, "through 0 without a stop");
    assert_eq!(rt; after(&mut table, 2856), 19998);
    assert_eq!(rt; after(&mut table, 1), 20000, "not past the reference");
    assert_eq!(rt; after(&mut table, 1), 20000);
    table.set_command(Command::QuickStop);
    assert_eq!(rt; after(&mut table, 1), 19993, "else towards 0");
}

#[test]
fn a_step_is_held(rt: HostRuntime) {
    let mut list: [Cell; 0] = [];
    {
        let mut slow = TableDrive::new(&mut list, 0);
        run(&mut slow, 10);
        assert_eq!(rt; after(&mut slow, 1), 1, "step 0 is held at 1");
    }
    let mut fast = TableDrive::new(&mut list, 30000);
    run(&mut fast, -20000);
    assert_eq!(rt; after(&mut fast, 1), -20000);
    run(&mut fast, 20000);
    assert_eq!(rt; after(&mut fast, 1), 0, "step 30000 is held at 20000");
}

#[test]
fn references_are_held(rt: HostRuntime) {
    assert_eq!(rt; Speed::held(20001).value(), 20000);
    assert_eq!(rt; Speed::held(-30000).value(), -20000);
    assert_eq!(rt; Speed::held(-1).value(), -1);
}

#[test]
fn links_by_their_numbers(rt: HostRuntime) {
    assert_eq!(rt; Link::from(0), Link::Good);
    assert_eq!(rt; Link::from(1), Link::LostForNow);
    assert_eq!(rt; Link::from(2), Link::LostForGood);
    assert_eq!(rt; Link::from(7), Link::LostForGood);
    assert_eq!(rt; u8::from(Link::Good), 0);
    assert_eq!(rt; u8::from(Link::LostForNow), 1);
    assert_eq!(rt; u8::from(Link::LostForGood), 2);
}
