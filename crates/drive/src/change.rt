// A change of a cell, as it is asked for.
use crate::key::Key;
use crate::width::Width;

// The width is the asker's: a cell of another width refuses the change.
#[derive(Clone, Copy, Debug, PartialEq, Eq)]
pub struct Change {
    pub key: Key,
    pub width: Width,
    pub value: i32,
}
