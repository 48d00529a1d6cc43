// Bytes as digits and back.
use frame::hex::{HexError, decode, encode};

#[test]
fn digits_of_bytes(rt: HostRuntime) {
    let mut text = [b'.'; 9];
    assert_eq!(rt; encode(&[0x00, 0x1f, 0xa9, 0xff], &mut text), Ok(8));
    assert!(rt; &text == b"001FA9FF.", "what lies behind stays");
    assert_eq!(rt; encode(&[], &mut text), Ok(0));
}

#[test]
fn bytes_of_digits(rt: HostRuntime) {
    let mut bytes = [0x77; 5];
    assert_eq!(rt; decode(b"001FA9FF", &mut bytes), Ok(4));
    assert!(rt;
        &bytes == &[0x00, 0x1f, 0xa9, 0xff, 0x77],
        "what lies behind stays"
    );
    assert_eq!(rt; decode(b"", &mut bytes), Ok(0));
}

#[test]
fn no_digits(rt: HostRuntime) {
    let mut bytes = [0x77; 4];
    assert_eq!(rt; decode(b"1", &mut bytes), Err(HexError::NotHex));
    assert_eq!(rt; decode(b"1f", &mut bytes), Err(HexError::NotHex));
    assert_eq!(rt; decode(b"1G", &mut bytes), Err(HexError::NotHex));
    assert_eq!(rt; decode(b"1/", &mut bytes), Err(HexError::NotHex));
    assert_eq!(rt; decode(b"1:", &mut bytes), Err(HexError::NotHex));
    assert_eq!(rt; decode(b"@1", &mut bytes), Err(HexError::NotHex));
    assert_eq!(rt; decode(b" 1F ", &mut bytes), Err(HexError::NotHex));
    assert_eq!(rt; decode(b"0011223344", &mut bytes), Err(HexError::NoRoom));
    assert!(rt; &bytes == &[0x77; 4], "a refusal leaves the bytes");
}

#[test]
fn no_room_for_digits(rt: HostRuntime) {
    let mut text = [b'.'; 5];
    assert_eq!(rt; encode(&[1, 2, 3], &mut text), Err(HexError::NoRoom));
    assert!(rt; &text == b".....", "a refusal leaves the text");
}
