// A lent drive is a drive, and the caller has its list back afterwards.
use crate::asked::change;
use bench_drive::{BenchDrive, PlanEntry};
use drive::{Cell, ChangeError, Command, Drive, Fault, Key, Link, Speed, Width};
use std::process::Abort;
use std::test::Fail;
use table_drive::TableDrive;

const FIRST: Cell = Cell {
    key: Key {
        group: 10,
        number: 1,
    },
    width: Width::Word,
    low: -100,
    high: 100,
    value: 0,
    writable: true,
    only_while_off: true,
};

const SECOND: Cell = Cell {
    key: Key {
        group: 10,
        number: 2,
    },
    ..FIRST
};

// Whoever is handed a drive by value, as a station is: owned or lent makes no difference.
fn started<D: Drive + Drop>(rt: &impl Abort, mut drive: D) -> i32 {
    assert_eq!(rt; drive.change(change(10, 2, Width::Word, 55)), Ok(()));
    drive.set_command(Command::Run(Speed::held(30)));
    assert_eq!(rt;
        drive.change(change(10, 1, Width::Word, 55)),
        Err(ChangeError::OnlyWhileOff)
    );
    assert_eq!(rt;
        drive.change(change(10, 3, Width::Word, 55)),
        Err(ChangeError::NoCell)
    );
    drive.tick();
    drive.speed().value()
}

#[test]
fn a_lent_table_drive(rt: HostRuntime) {
    let mut list = [FIRST, SECOND];
    {
        let mut table = TableDrive::new(&mut list, 20);
        assert_eq!(rt;
            table.change(change(10, 2, Width::Word, 55)),
            Err(ChangeError::NoCell),
            "no cell is in use yet"
        );
        assert!(rt; table.accept().is_ok());
        assert_eq!(rt; started(&rt, &mut table), 20);
        assert_eq!(rt;
            table.speed().value(),
            20,
            "the caller's own drive has moved"
        );
        assert_eq!(rt;
            table.cell(Key::new(10, 2)),
            Some(Cell {
                value: 55,
                ..SECOND
            })
        );
    }
    assert_eq!(rt;
        list,
        [
            FIRST,
            Cell {
                value: 55,
                ..SECOND
            },
        ],
        "the caller's list was changed in place"
    );
}

// Each call of the trait, on whatever drive is handed in.
fn questioned<D: Drive + Drop>(rt: &impl Abort, mut drive: D) -> Result<(), Fail> {
    let run = Command::Run(Speed::held(-7));
    for command in [run, Command::RampStop, Command::QuickStop, Command::Off] {
        drive.set_command(command);
        assert_eq!(rt; drive.command(), command);
    }
    drive.tick();
    assert_eq!(rt; drive.fault(), Fault::new(9));
    assert_eq!(rt; drive.link(), Link::LostForGood);
    drive.reset();
    assert_eq!(rt; drive.fault(), None);
    let cell = drive
        .cell(Key::new(12, 5))
        .ok_or_else(|| Fail::new("no cell 12.05"))?;
    assert_eq!(rt; cell.value, 1000);
    Ok(())
}

fn tripping() -> BenchDrive {
    let mut plan = [PlanEntry::UNUSED; 8];
    plan[7] = PlanEntry {
        tick: 1,
        fault: Fault::new(9),
        link: 2,
    };
    BenchDrive::with_plan(plan)
}

#[test]
fn a_bench_drive_lent_and_handed_over(rt: HostRuntime) -> Result<(), Fail> {
    let mut bench = tripping();
    questioned(&rt, &mut bench)?;
    assert_eq!(rt; bench.command(), Command::Off);
    assert_eq!(rt;
        bench.link(),
        Link::LostForGood,
        "the caller's own drive has changed"
    );
    questioned(&rt, tripping())
}

#[test]
fn a_table_drive_handed_over(rt: HostRuntime) {
    let mut list = [FIRST, SECOND];
    let mut table = TableDrive::new(&mut list, 20);
    assert!(rt; table.accept().is_ok());
    assert_eq!(rt; started(&rt, table), 20);
    assert_eq!(rt;
        list,
        [
            FIRST,
            Cell {
                value: 55,
                ..SECOND
            },
        ],
        "the caller's list was changed in place"
    );
}
