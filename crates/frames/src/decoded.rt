// A telegram of the capture: its fields, and whether the writer makes the same bytes of them.
ghost use Rattle.std.specs.Prelude.{◌≡◌, Some};
ghost use Rattle.std.specs.Fmt.{styled_text};
ghost use Rattle.frame.specs.Reader.{reading};
ghost use Rattle.frame.specs.Telegram.{telegram_fields};
ghost use Rattle.frames.specs.Decoded.{carried, services_of, services_text, Same};

use frame::{Frame, ROOM, Refusal, Telegram, read, write};
use std::fmt;

#[derive(Clone, Copy)]
pub struct Decoded<'a> {
    frame: Frame<'a>,
    same: bool,
}

// Reads a telegram and writes its fields back: what is accepted comes back the same.
pub fn decode(bytes: &[u8]) -> Result<Decoded<'_>, Refusal>
    ensures value { carried result ≡ reading bytes.now }
    ensures same { Same result }
{
    let frame = read(bytes)?;
    let mut buffer = [0u8; ROOM];
    // a length beside the buffer: fixed memory, of which the writer answers how much it wrote
    let n = write(&frame.telegram, &mut buffer)?;
    let same = &buffer[0..n] == bytes;
    Ok(Decoded { frame, same })
}

// Whether the data begin with two service bytes, by both addresses.
#[derive(Clone, Copy)]
enum Services {
    Present,
    Absent,
    // only one top bit says so, or the two bytes are not there
    Unclear,
}

impl fmt::Display for Services {
    ghost output = { λ services. Some (services_text services) };

    ghost styled_output = { λ services style. Some (styled_text style (services_text services)) };

    fn fmt<W: fmt::Write>(&self, f: &mut fmt::Formatter<W>) -> fmt::Result {
        f.pad(match self {
            Self::Present => "services",
            Self::Absent => "no services",
            Self::Unclear => "unclear",
        })
    }
}

fn service_bytes(telegram: &Telegram<'_>) -> Services
    ensures { result ≡ services_of (telegram_fields telegram.now) }
{
    match (
        telegram.destination.has_services(),
        telegram.source.has_services(),
    ) {
        (true, true) if telegram.data.len() >= 2 => Services::Present,
        (false, false) => Services::Absent,
        _ => Services::Unclear,
    }
}

impl fmt::Display for Decoded<'_> {
    fn fmt<W: fmt::Write>(&self, f: &mut fmt::Formatter<W>) -> fmt::Result {
        let telegram = &self.frame.telegram;
        let kind = telegram.kind();
        let source = telegram.source.station();
        let destination = telegram.destination.station();
        let services = service_bytes(telegram);
        let code = telegram.function.0;
        let function = telegram.function.function();
        let count = telegram.data.len();
        write!(
            f,
            "{kind:<5}  {source:>3} to {destination:>3}  {services:<11}  FC {code:02X} {function:<14}  {count:>3} data"
        )?;
        if count > 0 {
            let place = self.frame.place;
            write!(f, " at {place}: ")?;
            for b in telegram.data {
                write!(f, "{b:02X}")?;
            }
        }
        write!(
            f,
            "  written back: {}",
            if self.same { "same" } else { "differs" }
        )
    }
}
