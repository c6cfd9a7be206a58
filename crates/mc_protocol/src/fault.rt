//! Why a section could not go on.

ghost use Rattle.std.specs.Prelude.{◌≡◌};
ghost use Rattle.mc_protocol.specs.Faults as spec;

use std::fmt::{Display, Error, Formatter, Write};

/// What ended a section before its code did.
#[derive(Clone, Copy, Debug, PartialEq, Eq)]
pub enum Fault {
    /// A request could not be sent.
    WriteFailed,
    /// A reply could not be received.
    ReadFailed,
    /// The server ended the connection where a reply was due.
    Ended,
    /// What came is no reply that the request may have.
    BadReply,
    /// The server answered with a line that reports an error.
    ErrorLine,
    /// More came than the longest reply.
    TooMuch,
    /// The section was closed already.
    Closed,
    /// There was no memory.
    Memory,
}

impl Fault {
    /// Its number.
    pub fn number(self) -> u8
        ensures { result ≡ spec.fault_number self }
    {
        self.number_and_name().0
    }

    /// Its name.
    pub fn name(self) -> &'static str
        ensures { result.now ≡ spec.fault_name self }
    {
        self.number_and_name().1
    }

    /// Its number and its name.
    fn number_and_name(self) -> (u8, &'static str)
        ensures number { result.0 ≡ spec.fault_number self }
        ensures name { result.1.now ≡ spec.fault_name self }
    {
        match self {
            Fault::WriteFailed => (1, "WriteFailed"),
            Fault::ReadFailed => (2, "ReadFailed"),
            Fault::Ended => (3, "Ended"),
            Fault::BadReply => (4, "BadReply"),
            Fault::ErrorLine => (5, "ErrorLine"),
            Fault::TooMuch => (6, "TooMuch"),
            Fault::Closed => (7, "Closed"),
            Fault::Memory => (8, "Memory"),
        }
    }

    /// The fault of this number.
    pub fn from_number(number: u8) -> Option<Self>
        ensures { spec.IsOfNumber number result }
    {
        match number {
            1 => Some(Fault::WriteFailed),
            2 => Some(Fault::ReadFailed),
            3 => Some(Fault::Ended),
            4 => Some(Fault::BadReply),
            5 => Some(Fault::ErrorLine),
            6 => Some(Fault::TooMuch),
            7 => Some(Fault::Closed),
            8 => Some(Fault::Memory),
            _ => None,
        }
    }
}

impl Display for Fault {
    fn fmt<W: Write>(&self, f: &mut Formatter<W>) -> Result<(), Error> {
        f.write_str(match self {
            Fault::WriteFailed => "a request could not be sent",
            Fault::ReadFailed => "a reply could not be received",
            Fault::Ended => "the server ended the connection before a reply",
            Fault::BadReply => "what came is no reply to the request",
            Fault::ErrorLine => "the server answered that there was an error",
            Fault::TooMuch => "more came than the longest reply",
            Fault::Closed => "the section was closed already",
            Fault::Memory => "out of memory",
        })
    }
}
