// A change as the tests ask for it.
use drive::{Change, Key, Width};

pub(crate) fn change(group: u8, number: u8, width: Width, value: i32) -> Change {
    Change {
        key: Key::new(group, number),
        width,
        value,
    }
}
