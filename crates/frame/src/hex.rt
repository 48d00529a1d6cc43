// Upper-case hexadecimal text: two digits a byte, the high one first.
ghost use Rattle.std.specs.Prelude.{◌≡◌, ◌*◌, ◌/◌, ◌<◌, ◌≤◌, true, ◌++◌, length, drop, Some};
ghost use Rattle.frame.specs.Hex.{hex_error_text, digit_of, digits_of, is_digit, value_of, all_digits, is_hex, bytes_of, read_as, encoding, encoded, decoding, decoded, DigitsAreReadBack, TextIsItsDigits};

use std::error::Error;
use std::fmt;

// Why text or bytes are refused.
#[derive(Clone, Copy, Debug, PartialEq, Eq)]
pub enum HexError {
    // the text is no even run of upper-case digits
    NotHex,
    // the result does not fit the memory lent for it
    NoRoom,
}

impl fmt::Display for HexError {
    ghost output = { λ e. Some (hex_error_text e) };

    fn fmt<W: fmt::Write>(&self, f: &mut fmt::Formatter<W>) -> fmt::Result {
        f.pad(match self {
            Self::NotHex => "no even run of upper-case digits",
            Self::NoRoom => "no room for the result",
        })
    }
}

impl Error for HexError {}

// The digits in the order of their values.
const DIGITS: &[u8; 16] = b"0123456789ABCDEF";

// The digit with this value.
fn digit(value: u8) -> u8
    requires { value < 16 }
    ensures { result ≡ digit_of value }
{
    DIGITS[usize::from(value)]
}

// Whether a character is an upper-case digit.
fn is_digit(c: u8) -> bool
    ensures { result ≡ is_digit c }
{
    matches!(c, b'0'..=b'9' | b'A'..=b'F')
}

// The value of a digit.
fn value(digit: u8) -> u8
    requires { is_digit digit ≡ true }
    ensures is { result ≡ value_of digit }
    ensures bound { result < 16 }
{
    if digit <= b'9' {
        digit - b'0'
    } else {
        digit - b'A' + 10
    }
}

// Whether each character is a digit.
fn all_digits(text: &[u8]) -> bool
    ensures { result ≡ all_digits text.now }
{
    text.iter().all(|c| is_digit(*c))
}

// Whether the text is an even run of digits.
fn is_hex(text: &[u8]) -> bool
    ensures { result ≡ is_hex text.now }
{
    text.len() % 2 == 0 && all_digits(text)
}

// Writes two digits for each byte, the high one first.
// By index: tried, and the proof does not close, as nothing is known of what chunks_exact_mut or as_chunks_mut writes, nor after a loop that moves on by split_at_mut.
fn put_digits(bytes: &[u8], text: &mut [u8])
    requires { 2 * length bytes.now ≤ length text.old }
    ensures { text.new ≡ digits_of bytes.now ++ drop (2 * length bytes.now) text.old }
{
    for (i, b) in bytes.iter().enumerate() {
        text[2 * i] = digit(*b / 16);
        text[2 * i + 1] = digit(*b % 16);
    }
}

// Writes a byte for each two digits.
// The bytes by index: tried, and the proof does not close, as nothing is known of what iter_mut writes under zip.
fn put_bytes(text: &[u8], bytes: &mut [u8])
    requires { (all_digits text.now ≡ true) × (length text.now / 2 ≤ length bytes.old) }
    ensures { bytes.new ≡ bytes_of text.now ++ drop (length text.now / 2) bytes.old }
{
    let (pairs, _) = text.as_chunks::<2>();
    for (i, [high, low]) in pairs.iter().enumerate() {
        bytes[i] = value(*high) * 16 + value(*low);
    }
}

// Writes the digits of the bytes, and answers how many they are.
// Refused where they do not fit; a refusal changes nothing.
pub fn encode(bytes: &[u8], text: &mut [u8]) -> Result<usize, HexError>
    ensures value { result ≡ encoding bytes.now (length text.old) }
    ensures after { text.new ≡ encoded bytes.now text.old }
    ensures digits_are_read_back { DigitsAreReadBack bytes.now result text.new }
{
    let n = bytes.len();
    if text.len() / 2 < n {
        return Err(HexError::NoRoom);
    }
    put_digits(bytes, text);
    Ok(2 * n)
}

// Reads an even run of upper-case digits as bytes, and answers how many they are.
// Refused where the text is none, then where the bytes do not fit; a refusal changes nothing.
pub fn decode(text: &[u8], bytes: &mut [u8]) -> Result<usize, HexError>
    ensures value { result ≡ decoding (read_as text.now) (length bytes.old) }
    ensures after { bytes.new ≡ decoded (read_as text.now) bytes.old }
    ensures text_is_its_digits { TextIsItsDigits text.now (read_as text.now) }
{
    if !is_hex(text) {
        return Err(HexError::NotHex);
    }
    let n = text.len() / 2;
    if bytes.len() < n {
        return Err(HexError::NoRoom);
    }
    put_bytes(text, bytes);
    Ok(n)
}
