// Telegrams read, and bytes that are none.
ghost use Rattle.std.specs.Prelude.{◌<◌};

use frame::{Address, Frame, Function, FunctionCode, Kind, Refusal, Telegram, read};
use std::process::Abort;
use std::test::Fail;

fn accepted(rt: &impl Abort, bytes: &[u8], what: &str) {
    assert!(rt; read(bytes).is_ok(), "{what}");
}

fn refused(rt: &impl Abort, bytes: &[u8], refusal: Refusal, what: &str) {
    assert_eq!(rt; read(bytes).err(), Some(refusal), "{what}");
}

// The long layout with this LE, and zeros in between.
fn zeros<const N: usize>(le: u8) -> [u8; N]
    requires { 4 < N }
{
    let mut bytes = [0u8; N];
    bytes[0] = 0x68;
    bytes[1] = le;
    bytes[2] = le;
    bytes[3] = 0x68;
    bytes[N - 1] = 0x16;
    bytes
}

#[test]
fn status_request(rt: HostRuntime) -> Result<(), Fail> {
    let frame = read(b"\x10\x03\x02\x49\x4e\x16")?;
    let expected = Frame {
        telegram: Telegram {
            destination: Address(3),
            source: Address(2),
            function: FunctionCode(0x49),
            data: &[],
        },
        place: 4,
    };
    assert_eq!(rt; frame, expected);
    assert_eq!(rt; frame.telegram.kind(), Kind::Short);
    assert_eq!(rt; frame.telegram.function.function(), Function::Status);
    Ok(())
}

#[test]
fn data_exchange(rt: HostRuntime) -> Result<(), Fail> {
    let frame = read(b"\x68\x07\x07\x68\x03\x02\x5d\x04\x7e\x00\x00\xe4\x16")?;
    let expected = Frame {
        telegram: Telegram {
            destination: Address(3),
            source: Address(2),
            function: FunctionCode(0x5d),
            data: &[0x04, 0x7e, 0x00, 0x00],
        },
        place: 7,
    };
    assert_eq!(rt; frame, expected);
    assert_eq!(rt; frame.telegram.kind(), Kind::Long);
    assert!(rt;
        !frame.telegram.destination.has_services() && !frame.telegram.source.has_services()
    );
    assert_eq!(rt; frame.telegram.function.function(), Function::SendAndReply);
    Ok(())
}

#[test]
fn configuration_with_service_bytes(rt: HostRuntime) -> Result<(), Fail> {
    let telegram = read(b"\x68\x06\x06\x68\x83\x82\x7d\x3e\x3e\xf1\xef\x16")?.telegram;
    assert_eq!(rt; telegram.destination.station(), 3);
    assert_eq!(rt; telegram.source.station(), 2);
    assert!(rt; telegram.destination.has_services() && telegram.source.has_services());
    assert!(rt; telegram.data == [0x3e, 0x3e, 0xf1].as_slice());
    Ok(())
}

#[test]
fn functions(rt: HostRuntime) {
    assert_eq!(rt;
        FunctionCode(0x6c).function(),
        Function::SendAndReply,
        "function 12, bit 5 set"
    );
    assert_eq!(rt;
        FunctionCode(0x5d).function(),
        Function::SendAndReply,
        "function 13, bit 4 set"
    );
    assert_eq!(rt; FunctionCode(0x49).function(), Function::Status);
    assert_eq!(rt; FunctionCode(0x46).function(), Function::OtherRequest);
    assert_eq!(rt; FunctionCode(0x08).function(), Function::Reply);
    assert_eq!(rt;
        FunctionCode(0x0d).function(),
        Function::Reply,
        "bit 6 clear"
    );
}

#[test]
fn short_damaged(rt: HostRuntime) {
    refused(
        &rt,
        b"\x10\x03\x02\x49\x4f\x16",
        Refusal::WrongCheckByte,
        "FCS",
    );
    refused(
        &rt,
        b"\x10\x02\x02\x49\x4e\x16",
        Refusal::WrongCheckByte,
        "DA",
    );
    refused(
        &rt,
        b"\x10\x03\x03\x49\x4e\x16",
        Refusal::WrongCheckByte,
        "SA",
    );
    refused(
        &rt,
        b"\x10\x03\x02\x48\x4e\x16",
        Refusal::WrongCheckByte,
        "FC",
    );
    refused(&rt, b"\x11\x03\x02\x49\x4e\x16", Refusal::NoLayout, "start");
    refused(&rt, b"\x10\x03\x02\x49\x4e\x17", Refusal::NoLayout, "end");
}

#[test]
fn long_damaged(rt: HostRuntime) {
    accepted(
        &rt,
        b"\x68\x05\x05\x68\x03\x02\x5d\x04\x7e\xe4\x16",
        "undamaged",
    );
    refused(
        &rt,
        b"\x68\x05\x05\x68\x03\x02\x5d\x04\x7f\xe4\x16",
        Refusal::WrongCheckByte,
        "data",
    );
    refused(
        &rt,
        b"\x68\x05\x05\x68\x03\x02\x5d\x04\x7e\xe5\x16",
        Refusal::WrongCheckByte,
        "FCS",
    );
    refused(
        &rt,
        b"\x68\x05\x06\x68\x03\x02\x5d\x04\x7e\xe4\x16",
        Refusal::NoLayout,
        "LE unlike",
    );
    refused(
        &rt,
        b"\x68\x06\x06\x68\x03\x02\x5d\x04\x7e\xe4\x16",
        Refusal::NoLayout,
        "LE too large",
    );
    refused(
        &rt,
        b"\x68\x05\x05\x10\x03\x02\x5d\x04\x7e\xe4\x16",
        Refusal::NoLayout,
        "second start",
    );
    refused(
        &rt,
        b"\x68\x05\x05\x68\x03\x02\x5d\x04\x7e\xe4\x10",
        Refusal::NoLayout,
        "end",
    );
}

#[test]
fn too_many_or_too_few_bytes(rt: HostRuntime) {
    refused(&rt, &[], Refusal::NoLayout, "no byte");
    refused(&rt, &[0x10], Refusal::NoLayout, "one byte");
    refused(
        &rt,
        &[0xe5],
        Refusal::NoLayout,
        "the one-byte acknowledgement is no telegram",
    );
    refused(
        &rt,
        &[0x10, 0x03, 0x02, 0x49, 0x4e],
        Refusal::NoLayout,
        "a byte short",
    );
    refused(
        &rt,
        b"\x10\x03\x02\x49\x4e\x16\x16",
        Refusal::NoLayout,
        "a byte more",
    );
    refused(
        &rt,
        b"\x68\x05\x05\x68\x03\x02\x5d\x04\x7e\xe4",
        Refusal::NoLayout,
        "a byte short",
    );
    refused(
        &rt,
        b"\x68\x05\x05\x68\x03\x02\x5d\x04\x7e\xe4\x16\x16",
        Refusal::NoLayout,
        "a byte more",
    );
}

#[test]
fn le_at_its_limits(rt: HostRuntime) {
    refused(
        &rt,
        b"\x68\x03\x03\x68\x03\x02\x5d\x62\x16",
        Refusal::NoLayout,
        "LE 3",
    );
    accepted(&rt, b"\x68\x04\x04\x68\x03\x02\x5d\x00\x62\x16", "LE 4");
    accepted(&rt, &zeros::<255>(249), "LE 249");
    refused(&rt, &zeros::<256>(250), Refusal::NoLayout, "LE 250");
}
