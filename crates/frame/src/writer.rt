// The writer: from the fields of a telegram to its bytes, in a lent buffer.
ghost use Rattle.std.specs.Prelude.{◌≡◌, ◌≤◌, length};
ghost use Rattle.frame.specs.Laws.{WrittenIsReadBack};
ghost use Rattle.frame.specs.Telegram.{telegram_fields};
ghost use Rattle.frame.specs.Writer.{most_data, PutDown, writing, written};

use crate::check::check_byte;
use crate::refusal::Refusal;
use crate::telegram::{Address, END, FunctionCode, LONG_START, SHORT_START, Telegram};

// The longest telegram, and so the room that the writer asks for.
pub const ROOM: usize = 255;

// The most data bytes of a telegram.
pub const MOST_DATA: usize = 246;

// The short layout for a telegram without data, the long one with data.
fn put(telegram: &Telegram<'_>, buffer: &mut [u8; ROOM]) -> usize
    requires { length telegram.now.«data».now ≤ most_data }
    ensures { PutDown (telegram_fields telegram.now) result buffer.old buffer.new }
{
    let Telegram {
        destination: Address(da),
        source: Address(sa),
        function: FunctionCode(fc),
        data,
    } = *telegram;
    if data.is_empty() {
        let fcs = check_byte(&[da, sa, fc]);
        buffer[0..6].copy_from_slice(&[SHORT_START, da, sa, fc, fcs, END]);
        return 6;
    }
    let n = data.len();
    // as: it is 249 at most, so try_from would add an Err that cannot occur
    let le = (n + 3) as u8;
    buffer[0..7].copy_from_slice(&[LONG_START, le, le, LONG_START, da, sa, fc]);
    buffer[7..n + 7].copy_from_slice(data);
    let fcs = check_byte(&buffer[4..n + 7]);
    buffer[n + 7..n + 9].copy_from_slice(&[fcs, END]);
    n + 9
}

// Writes a telegram, short without data and long with data, and answers its length.
// Refused where the buffer is too small, then where the data are too long; a refusal changes no byte.
pub fn write(telegram: &Telegram<'_>, buffer: &mut [u8]) -> Result<usize, Refusal>
    ensures value { result ≡ writing (telegram_fields telegram.now) (length buffer.old) }
    ensures after { buffer.new ≡ written (telegram_fields telegram.now) buffer.old }
    ensures written_is_read_back { WrittenIsReadBack (telegram_fields telegram.now) result buffer.new }
{
    let room = buffer
        .first_chunk_mut::<ROOM>()
        .ok_or(Refusal::BufferTooSmall)?;
    if telegram.data.len() > MOST_DATA {
        return Err(Refusal::DataTooLong);
    }
    Ok(put(telegram, room))
}
