// Lists of cells, accepted and refused.
use drive::{Cell, Drive, Key, Width};
use std::process::Abort;
use table_drive::{ListRefusal, MOST_CELLS, TableDrive};

fn cell(group: u8, number: u8) -> Cell {
    Cell {
        key: Key::new(group, number),
        width: Width::Word,
        low: 0,
        high: 100,
        value: 7,
        writable: true,
        only_while_off: false,
    }
}

// The answer to the list, that its cells are in use exactly if it is accepted, and that the list stays.
fn judged<const N: usize>(
    rt: &impl Abort,
    list: [Cell; N],
    expected: Result<(), ListRefusal>,
    what: &str,
) {
    let mut lent = list;
    {
        let mut table = TableDrive::new(&mut lent, 1);
        assert_eq!(rt; table.accept(), expected, "{what}");
        for cell in &list {
            let found = table.cell(cell.key);
            assert_eq!(rt; found, expected.is_ok().then_some(*cell), "{what}");
        }
    }
    assert_eq!(rt; lent, list, "{what}");
}

#[test]
fn in_order(rt: HostRuntime) {
    judged(
        &rt,
        [
            cell(1, 1),
            cell(1, 2),
            cell(1, 255),
            cell(2, 1),
            cell(255, 255),
        ],
        Ok(()),
        "rising",
    );
}

#[test]
fn empty(rt: HostRuntime) {
    let mut list: [Cell; 0] = [];
    let mut table = TableDrive::new(&mut list, 1);
    assert_eq!(rt; table.accept(), Ok(()));
    assert_eq!(rt; table.cell(Key::new(1, 1)), None);
}

#[test]
fn not_rising(rt: HostRuntime) {
    judged(
        &rt,
        [cell(1, 1), cell(1, 1)],
        Err(ListRefusal::BadList),
        "two alike",
    );
    judged(
        &rt,
        [cell(1, 2), cell(1, 1)],
        Err(ListRefusal::BadList),
        "falling numbers",
    );
    judged(
        &rt,
        [cell(2, 1), cell(1, 2)],
        Err(ListRefusal::BadList),
        "falling groups",
    );
    judged(
        &rt,
        [cell(1, 1), cell(2, 9), cell(3, 1), cell(2, 10)],
        Err(ListRefusal::BadList),
        "a fall later on",
    );
}

#[test]
fn unsound(rt: HostRuntime) {
    judged(
        &rt,
        [cell(0, 1), cell(1, 1)],
        Err(ListRefusal::BadCell),
        "group 0",
    );
    judged(
        &rt,
        [cell(1, 0), cell(1, 1)],
        Err(ListRefusal::BadCell),
        "number 0",
    );
    let low_above_high = Cell {
        low: 101,
        ..cell(1, 1)
    };
    judged(
        &rt,
        [low_above_high],
        Err(ListRefusal::BadCell),
        "low above high",
    );
    let beyond = Cell {
        high: 32768,
        ..cell(1, 1)
    };
    judged(
        &rt,
        [beyond],
        Err(ListRefusal::BadCell),
        "a high limit beyond 16 bits",
    );
    let outside = Cell {
        value: 101,
        ..cell(1, 1)
    };
    judged(
        &rt,
        [outside],
        Err(ListRefusal::BadCell),
        "a value outside the limits",
    );
}

#[test]
fn order_before_soundness(rt: HostRuntime) {
    judged(
        &rt,
        [cell(1, 0), cell(1, 0)],
        Err(ListRefusal::BadList),
        "neither rising nor sound",
    );
    assert_eq!(rt; u8::from(ListRefusal::BadList), 8);
    assert_eq!(rt; u8::from(ListRefusal::BadCell), 9);
}

// The first keys in their order: 1.1 to 1.255, then 2.1 and on.
fn numbered(list: &mut [Cell]) {
    let keys = (1..=2u8).flat_map(|group| (1..=255u8).map(move |number| (group, number)));
    for (place, (group, number)) in list.iter_mut().zip(keys) {
        *place = cell(group, number);
    }
}

#[test]
fn as_many_as_there_may_be(rt: HostRuntime) {
    let mut list = [cell(1, 1); MOST_CELLS];
    numbered(&mut list);
    let mut table = TableDrive::new(&mut list, 1);
    assert_eq!(rt; table.accept(), Ok(()));
    assert_eq!(rt; table.cell(Key::new(1, 128)), Some(cell(1, 128)));
    assert_eq!(rt;
        table.cell(Key::new(2, 1)),
        Some(cell(2, 1)),
        "the last one"
    );
    assert_eq!(rt; table.cell(Key::new(2, 2)), None);
    assert_eq!(rt; table.cell(Key::new(1, 0)), None);
}

#[test]
fn one_too_many(rt: HostRuntime) {
    let mut list = [cell(1, 1); 257];
    numbered(&mut list);
    list[0].value = 101;
    judged(&rt, list, Err(ListRefusal::BadList), "257 cells");
}
