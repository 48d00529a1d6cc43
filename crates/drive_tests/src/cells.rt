// Cells: sound ones, and the checks of a change in their order.
use drive::{Cell, ChangeError, Command, Key, Speed, Width};
use std::process::Abort;

const WORD: Cell = Cell {
    key: Key {
        group: 12,
        number: 4,
    },
    width: Width::Word,
    low: -2000,
    high: 2000,
    value: 1000,
    writable: true,
    only_while_off: false,
};

const WIDEST_WORD: Cell = Cell {
    key: Key {
        group: 255,
        number: 255,
    },
    width: Width::Word,
    low: -32768,
    high: 32767,
    value: 0,
    writable: true,
    only_while_off: false,
};

const WIDEST_DOUBLE: Cell = Cell {
    key: Key {
        group: 1,
        number: 1,
    },
    width: Width::Double,
    low: -2147483648,
    high: 2147483647,
    value: 0,
    writable: true,
    only_while_off: true,
};

// Command, width and value as check_change takes them.
fn refused(
    rt: &impl Abort,
    cell: Cell,
    command: Command,
    width: Width,
    value: i32,
    error: ChangeError,
    what: &str,
) {
    assert_eq!(rt;
        cell.check_change(command, width, value),
        Err(error),
        "{what}"
    );
}

fn taken(rt: &impl Abort, cell: Cell, command: Command, width: Width, value: i32) {
    assert_eq!(rt; cell.check_change(command, width, value), Ok(()));
}

#[test]
fn sound_at_the_ends_of_the_width(rt: HostRuntime) {
    assert!(rt; WIDEST_WORD.is_sound());
    assert!(rt;
        !Cell {
            low: -32769,
            ..WIDEST_WORD
        }
        .is_sound(),
        "a low limit beyond 16 bits"
    );
    assert!(rt;
        !Cell {
            high: 32768,
            ..WIDEST_WORD
        }
        .is_sound(),
        "a high limit beyond 16 bits"
    );
    assert!(rt; WIDEST_DOUBLE.is_sound());
}

#[test]
fn unsound(rt: HostRuntime) {
    assert!(rt; WORD.is_sound());
    assert!(rt;
        !Cell {
            key: Key::new(0, 4),
            ..WORD
        }
        .is_sound()
    );
    assert!(rt;
        !Cell {
            key: Key::new(12, 0),
            ..WORD
        }
        .is_sound()
    );
    assert!(rt;
        !Cell {
            value: 2001,
            ..WORD
        }
        .is_sound()
    );
    assert!(rt;
        !Cell {
            value: -2001,
            ..WORD
        }
        .is_sound()
    );
    assert!(rt;
        !Cell {
            low: 1,
            high: 0,
            ..WORD
        }
        .is_sound(),
        "low above high: no value lies between"
    );
}

#[test]
fn limits_of_a_change(rt: HostRuntime) {
    taken(&rt, WORD, Command::Off, Width::Word, 2000);
    refused(
        &rt,
        WORD,
        Command::Off,
        Width::Word,
        2001,
        ChangeError::OutsideLimits,
        "above the high limit",
    );
    taken(&rt, WORD, Command::Off, Width::Word, -2000);
    refused(
        &rt,
        WORD,
        Command::Off,
        Width::Word,
        -2001,
        ChangeError::OutsideLimits,
        "below the low limit",
    );
    taken(&rt, WIDEST_WORD, Command::Off, Width::Word, 32767);
    taken(&rt, WIDEST_WORD, Command::Off, Width::Word, -32768);
    refused(
        &rt,
        WIDEST_WORD,
        Command::Off,
        Width::Word,
        32768,
        ChangeError::OutsideLimits,
        "above the highest value of a word",
    );
    taken(&rt, WIDEST_DOUBLE, Command::Off, Width::Double, 2147483647);
    taken(&rt, WIDEST_DOUBLE, Command::Off, Width::Double, -2147483648);
}

#[test]
fn order_of_the_errors(rt: HostRuntime) {
    let run = Command::Run(Speed::held(1));
    let locked = Cell {
        writable: false,
        only_while_off: true,
        ..WORD
    };
    refused(
        &rt,
        locked,
        run,
        Width::Double,
        2001,
        ChangeError::NotWritable,
        "not writable and of another width",
    );
    let guarded = Cell {
        only_while_off: true,
        ..WORD
    };
    refused(
        &rt,
        guarded,
        run,
        Width::Double,
        2001,
        ChangeError::OtherWidth,
        "of another width",
    );
    refused(
        &rt,
        guarded,
        run,
        Width::Word,
        2001,
        ChangeError::OutsideLimits,
        "above the high limit in a run",
    );
    refused(
        &rt,
        guarded,
        run,
        Width::Word,
        5,
        ChangeError::OnlyWhileOff,
        "in a run",
    );
    refused(
        &rt,
        guarded,
        Command::RampStop,
        Width::Word,
        5,
        ChangeError::OnlyWhileOff,
        "in a ramp stop",
    );
    refused(
        &rt,
        guarded,
        Command::QuickStop,
        Width::Word,
        5,
        ChangeError::OnlyWhileOff,
        "in a quick stop",
    );
    taken(&rt, guarded, Command::Off, Width::Word, 5);
}

#[test]
fn numbers_of_the_errors(rt: HostRuntime) {
    assert_eq!(rt; u8::from(ChangeError::NoCell), 0);
    assert_eq!(rt; u8::from(ChangeError::NotWritable), 1);
    assert_eq!(rt; u8::from(ChangeError::OutsideLimits), 2);
    assert_eq!(rt; u8::from(ChangeError::OtherWidth), 5);
    assert_eq!(rt; u8::from(ChangeError::OnlyWhileOff), 17);
}

#[test]
fn another_value_and_nothing_else(rt: HostRuntime) {
    assert_eq!(rt; WORD.with_value(-5), Cell { value: -5, ..WORD });
}
