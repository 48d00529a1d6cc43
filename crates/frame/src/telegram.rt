// What a telegram says: who sends it to whom, what it asks for, and its data.
ghost use Rattle.std.specs.Prelude.{◌≡◌, Some, slice_index};
ghost use Rattle.std.specs.Fmt.{styled_text};
ghost use Rattle.frame.specs.Telegram.{station_number, top_bit, function_of, function_text, kind_text, start_byte, telegram_bytes};

use std::fmt;

// The bytes that the two layouts begin with, and the one that both end with.
pub(crate) const SHORT_START: u8 = 0x10;

pub(crate) const LONG_START: u8 = 0x68;

pub(crate) const END: u8 = 0x16;

// A destination or source byte, DA or SA.
#[derive(Clone, Copy, Debug, PartialEq, Eq)]
pub struct Address(pub u8);

impl Address {
    // The station number: the low seven bits.
    pub fn station(self) -> u8
        ensures { result ≡ station_number self.0 }
    {
        self.0 & 0x7f
    }

    // Whether the data begin with two service bytes: the top bit.
    pub fn has_services(self) -> bool
        ensures { result ≡ top_bit self.0 }
    {
        self.0 & 0x80 != 0
    }
}

// A function byte, FC.
#[derive(Clone, Copy, Debug, PartialEq, Eq)]
pub struct FunctionCode(pub u8);

// What a telegram asks for, or that it asks for nothing.
#[derive(Clone, Copy, Debug, PartialEq, Eq)]
pub enum Function {
    SendAndReply,
    Status,
    OtherRequest,
    Reply,
}

impl FunctionCode {
    // Bit 6 marks a request, and the low four bits then name its function.
    pub fn function(self) -> Function
        ensures { result ≡ function_of self.0 }
    {
        if self.0 & 0x40 == 0 {
            return Function::Reply;
        }
        match self.0 & 0x0f {
            12 | 13 => Function::SendAndReply,
            9 => Function::Status,
            _ => Function::OtherRequest,
        }
    }
}

impl fmt::Display for Function {
    ghost output = { λ function. Some (function_text function) };

    ghost styled_output = { λ function style. Some (styled_text style (function_text function)) };

    fn fmt<W: fmt::Write>(&self, f: &mut fmt::Formatter<W>) -> fmt::Result {
        f.pad(match self {
            Self::SendAndReply => "send and reply",
            Self::Status => "status",
            Self::OtherRequest => "other request",
            Self::Reply => "reply",
        })
    }
}

// The two layouts, by their first byte.
#[derive(Clone, Copy, Debug, PartialEq, Eq)]
pub enum Kind {
    Short,
    Long,
}

impl fmt::Display for Kind {
    ghost output = { λ kind. Some (kind_text kind) };

    ghost styled_output = { λ kind style. Some (styled_text style (kind_text kind)) };

    fn fmt<W: fmt::Write>(&self, f: &mut fmt::Formatter<W>) -> fmt::Result {
        f.pad(match self {
            Self::Short => "short",
            Self::Long => "long",
        })
    }
}

// What a telegram says: to whom, from whom, what it asks for, and its data.
// Plain data with no Model, which would hide the fields from clauses.
#[derive(Clone, Copy, Debug, PartialEq, Eq)]
pub struct Telegram<'a> {
    pub destination: Address,
    pub source: Address,
    pub function: FunctionCode,
    pub data: &'a [u8],
}

impl Telegram<'_> {
    // Which layout the telegram has: without data the short one, with data the long one.
    pub fn kind(&self) -> Kind
        ensures { start_byte result ≡ slice_index (telegram_bytes self.now) 0 }
    {
        if self.data.is_empty() {
            Kind::Short
        } else {
            Kind::Long
        }
    }
}

// A telegram that was read: its data lie in the bytes handed in, from `place` on.
#[derive(Clone, Copy, Debug, PartialEq, Eq)]
pub struct Frame<'a> {
    pub telegram: Telegram<'a>,
    pub place: usize,
}
