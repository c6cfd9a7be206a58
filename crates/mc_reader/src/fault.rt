//! Why bytes are no reply.
ghost use Rattle.std.specs.Prelude.{◌≡◌};
ghost use Rattle.mc_reader.specs.ReadFaults as spec;

use std::alloc::AllocError;
use std::fmt::{Display, Formatter, Write};

/// What kind of error a line reports (`protocol.txt`).
#[derive(Clone, Copy, Debug, Drop, PartialEq, Eq)]
pub enum ErrorKind {
    /// `ERROR`: the command doesn't exist.
    Error,
    /// `CLIENT_ERROR`: the request was wrong.
    Client,
    /// `SERVER_ERROR`: the server couldn't do it.
    Server,
}

impl ErrorKind {
    /// The word with which its line begins.
    pub fn word(self) -> &'static str
        ensures { result.now ≡ spec.error_word self }
    {
        match self {
            ErrorKind::Error => "ERROR",
            ErrorKind::Client => "CLIENT_ERROR",
            ErrorKind::Server => "SERVER_ERROR",
        }
    }
}

/// Why the bytes that were fed are no reply to the request, or why there is no answer.
#[derive(Clone, Copy, Debug, Drop, PartialEq, Eq)]
pub enum ReadFault {
    /// The first [`LINE_LIMIT`](crate::LINE_LIMIT) bytes of a line hold no LF.
    LineTooLong,
    /// A line is no reply that the request may have, or doesn't end with CR LF.
    NotAReply,
    /// The item has another key than the one asked for.
    WrongKey,
    /// Flags of more than 32 bits, or a cas unique or a counted number of more than 64.
    NumberTooLarge,
    /// The item's body is longer than [`REPLY_BODY_LIMIT`](mc_protocol::REPLY_BODY_LIMIT).
    DataTooLong,
    /// Another byte than CR or LF stands where CR LF is due after the item's body.
    DataNotEnded,
    /// A line that reports an error.
    ErrorLine(ErrorKind),
    /// There was no memory.
    OutOfMemory,
    /// The reader has answered a reply or a fault before.
    Failed,
}

impl ReadFault {
    /// Its number.
    pub fn number(self) -> u8
        ensures { result ≡ spec.fault_number self }
    {
        match self {
            ReadFault::LineTooLong => 1,
            ReadFault::NotAReply => 2,
            ReadFault::WrongKey => 3,
            ReadFault::NumberTooLarge => 4,
            ReadFault::DataTooLong => 5,
            ReadFault::DataNotEnded => 6,
            ReadFault::ErrorLine(_) => 7,
            ReadFault::OutOfMemory => 8,
            ReadFault::Failed => 9,
        }
    }

    /// Its name.
    pub fn name(self) -> &'static str
        ensures { result.now ≡ spec.fault_name self }
    {
        match self {
            ReadFault::LineTooLong => "LineTooLong",
            ReadFault::NotAReply => "NotAReply",
            ReadFault::WrongKey => "WrongKey",
            ReadFault::NumberTooLarge => "NumberTooLarge",
            ReadFault::DataTooLong => "DataTooLong",
            ReadFault::DataNotEnded => "DataNotEnded",
            ReadFault::ErrorLine(_) => "ErrorLine",
            ReadFault::OutOfMemory => "OutOfMemory",
            ReadFault::Failed => "Failed",
        }
    }
}

impl Display for ReadFault {
    fn fmt<W: Write>(&self, f: &mut Formatter<W>) -> Result<(), std::fmt::Error> {
        f.write_str(match self {
            ReadFault::LineTooLong => "a line of the reply is too long",
            ReadFault::NotAReply => "a line is no reply to the request",
            ReadFault::WrongKey => "the item has another key",
            ReadFault::NumberTooLarge => "a number of the reply is too large",
            ReadFault::DataTooLong => "the item's body is too long",
            ReadFault::DataNotEnded => "the item's body isn't followed by CR LF",
            ReadFault::ErrorLine(ErrorKind::Error) =>
                "the server answered that the command doesn't exist",
            ReadFault::ErrorLine(ErrorKind::Client) =>
                "the server answered that the request was wrong",
            ReadFault::ErrorLine(ErrorKind::Server) => "the server answered that it failed",
            ReadFault::OutOfMemory => "out of memory",
            ReadFault::Failed => "the reader has answered before",
        })
    }
}

impl From<AllocError> for ReadFault {
    ghost use Rattle.mc_reader.specs.declared.fault.ReadFault.TheVariants.{OutOfMemory};

    ghost from_gives = { λ _ fault. fault ≡ OutOfMemory };

    fn from(_: AllocError) -> Self {
        ReadFault::OutOfMemory
    }
}
