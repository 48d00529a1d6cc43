// Telegrams written, and what a refusal leaves.
use frame::{Address, FunctionCode, Refusal, Telegram, read, write};
use std::test::Fail;

// A telegram from station 2 to station 3.
fn telegram(function: u8, data: &[u8]) -> Telegram<'_> {
    Telegram {
        destination: Address(3),
        source: Address(2),
        function: FunctionCode(function),
        data,
    }
}

#[test]
fn short_telegram(rt: HostRuntime) {
    let mut buffer = [0xaa; 255];
    assert_eq!(rt; write(&telegram(0x49, &[]), &mut buffer), Ok(6));
    assert!(rt; &buffer[0..6] == b"\x10\x03\x02\x49\x4e\x16".as_slice());
    assert!(rt;
        buffer[6] == 0xaa && buffer[254] == 0xaa,
        "what lies behind stays"
    );
}

#[test]
fn long_telegram(rt: HostRuntime) {
    let mut buffer = [0xaa; 300];
    assert_eq!(rt;
        write(&telegram(0x5d, &[0x04, 0x7e, 0x00, 0x00]), &mut buffer),
        Ok(13)
    );
    assert!(rt;
        &buffer[0..13] == b"\x68\x07\x07\x68\x03\x02\x5d\x04\x7e\x00\x00\xe4\x16".as_slice()
    );
    assert!(rt;
        buffer[13] == 0xaa && buffer[299] == 0xaa,
        "what lies behind stays"
    );
}

#[test]
fn buffer_at_its_limit(rt: HostRuntime) {
    let mut small = [0xaa; 254];
    assert_eq!(rt;
        write(&telegram(0x49, &[]), &mut small),
        Err(Refusal::BufferTooSmall)
    );
    assert!(rt; small[0] == 0xaa, "a refusal leaves the buffer");
    let mut enough = [0xaa; 255];
    assert_eq!(rt; write(&telegram(0x49, &[]), &mut enough), Ok(6));
}

#[test]
fn data_at_their_limit(rt: HostRuntime) -> Result<(), Fail> {
    let mut buffer = [0xaa; 255];
    assert_eq!(rt;
        write(&telegram(0x5d, &[1; 247]), &mut buffer),
        Err(Refusal::DataTooLong)
    );
    assert!(rt;
        buffer[0] == 0xaa && buffer[254] == 0xaa,
        "a refusal leaves the buffer"
    );
    assert_eq!(rt; write(&telegram(0x5d, &[1; 246]), &mut buffer), Ok(255));
    assert!(rt; buffer[1] == 249 && buffer[252] == 1 && buffer[253] == 0x58 && buffer[254] == 0x16);
    let frame = read(&buffer)?;
    assert_eq!(rt; frame.telegram.data.len(), 246);
    Ok(())
}

#[test]
fn refusals_by_rising_number(rt: HostRuntime) {
    let mut small = [0xaa; 254];
    assert_eq!(rt;
        write(&telegram(0x5d, &[1; 247]), &mut small),
        Err(Refusal::BufferTooSmall)
    );
    assert_eq!(rt; u8::from(Refusal::BufferTooSmall), 3);
    assert_eq!(rt; u8::from(Refusal::NoLayout), 4);
    assert_eq!(rt; u8::from(Refusal::WrongCheckByte), 5);
    assert_eq!(rt; u8::from(Refusal::DataTooLong), 7);
}
