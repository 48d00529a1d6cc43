// The reader: from bytes to the fields of a telegram, which borrow those bytes.
ghost use Rattle.std.specs.Prelude.{◌≡◌, ◌+◌, ◌<◌, ◌≤◌, length};
ghost use Rattle.frame.specs.Laws.{AcceptedIsWritten, ChangedIsRefused};
ghost use Rattle.frame.specs.Reader.{is_short, is_long, checked, reading, outcome};

use crate::check::check_byte;
use crate::refusal::Refusal;
use crate::telegram::{Address, END, Frame, FunctionCode, LONG_START, SHORT_START, Telegram};

// What a long telegram has besides the bytes that LE counts.
const AROUND: usize = 6;

// LE counts DA, SA, FC and 1 to 246 data bytes.
const LEAST_LE: usize = 4;

const MOST_LE: usize = 249;

// 10h, DA, SA, FC, FCS, 16h.
fn is_short(bytes: &[u8]) -> bool
    ensures { result ≡ is_short bytes.now }
{
    bytes.len() == 6 && bytes[0] == SHORT_START && bytes[5] == END
}

// 68h, LE, LE, 68h, the bytes that LE counts, FCS, 16h.
fn is_long(bytes: &[u8]) -> bool
    ensures { result ≡ is_long bytes.now }
{
    // shorter than LE 4 has it, so an LE below 4 cannot fit the length
    if bytes.len() < LEAST_LE + AROUND {
        return false;
    }
    let le = usize::from(bytes[1]);
    bytes[0] == LONG_START
        && bytes[2] == bytes[1]
        && bytes[3] == LONG_START
        && le <= MOST_LE
        && bytes.len() == le + AROUND
        && bytes[le + 5] == END
}

// The fields that lie from `start` on, DA first, up to the FCS at `end`.
fn fields(bytes: &[u8], start: usize, end: usize) -> Result<Frame<'_>, Refusal>
    requires { (start + 3 ≤ end) × (end < length bytes.now) }
    ensures { outcome result ≡ checked bytes.now start end }
{
    if check_byte(&bytes[start..end]) != bytes[end] {
        return Err(Refusal::WrongCheckByte);
    }
    Ok(Frame {
        telegram: Telegram {
            destination: Address(bytes[start]),
            source: Address(bytes[start + 1]),
            function: FunctionCode(bytes[start + 2]),
            data: &bytes[start + 3..end],
        },
        place: start + 3,
    })
}

// Reads a telegram: refused where neither layout fits, then where the FCS is wrong.
pub fn read(bytes: &[u8]) -> Result<Frame<'_>, Refusal>
    ensures value { outcome result ≡ reading bytes.now }
    ensures accepted_is_written { AcceptedIsWritten bytes.now (outcome result) }
    ensures changed_is_refused { ChangedIsRefused bytes.now (outcome result) }
{
    if is_short(bytes) {
        fields(bytes, 1, 4)
    } else if is_long(bytes) {
        fields(bytes, 4, usize::from(bytes[1]) + 4)
    } else {
        Err(Refusal::NoLayout)
    }
}
