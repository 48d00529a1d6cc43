// A line of the capture, as the bytes that its digits stand for.
ghost use Rattle.std.specs.Prelude.{◌≡◌, IfOk, vec_items};
ghost use Rattle.std.specs.Option.{option_map};
ghost use Rattle.frames.specs.Line.{line_bytes};

use frame::hex;
use std::alloc::{AllocError, Global};

// The bytes of a line, or none where it is no telegram's digits.
pub fn bytes_of(heap: Global, line: &[u8]) -> Result<Option<Vec<u8>>, AllocError>
    ensures { IfOk result (λ o. option_map vec_items o ≡ line_bytes line.now) }
{
    if line.is_empty() {
        return Ok(None);
    }
    let mut bytes = vec![in heap; 0u8; line.len() / 2]?;
    let decoded = hex::decode(line, bytes.as_mut_slice());
    Ok(decoded.is_ok().then_some(bytes))
}
