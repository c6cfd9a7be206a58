//! What a server is asked, and how a reader of requests answers.
ghost use Rattle.std.specs.Prelude.{◌≡◌};
ghost use Rattle.mc_reader.specs.Asks as spec;

use mc_protocol::{Bytes, Request};
use std::alloc::AllocError;

/// Why a request is refused.
#[derive(Clone, Copy, Debug, Drop, PartialEq, Eq)]
pub enum Refuse {
    /// The first word of its line is no command that the server knows, or the line has no word.
    Unknown,
    /// Its words, its numbers or its key are wrong, or it announces a body of 2^31 bytes or more.
    BadLine,
    /// Its time of expiry isn't 0. Where its line announces a body, the block belongs to the refused request.
    Expiry,
    /// Its body has more than [`REQUEST_BODY_LIMIT`](crate::REQUEST_BODY_LIMIT) bytes. The block belongs to the refused
    /// request.
    TooLarge,
    /// Another byte than CR or LF stands where CR LF is due after its body. Nothing is read any more.
    BadChunk,
    /// The first [`LINE_LIMIT`](crate::LINE_LIMIT) bytes of its line hold no LF. Nothing is read any more.
    LongLine,
}

/// What a server is asked.
#[derive(Debug, Drop)]
pub enum Ask {
    /// One request.
    One {
        /// The request. A field that its verb doesn't have is 0 or empty.
        request: Request,
        /// Whether no reply is to be written.
        noreply: bool,
    },
    /// A `get` or `gets` of two keys or more.
    Many {
        /// Whether the cas uniques are asked for: `gets`.
        with_cas: bool,
        /// The keys in their order, and as often as they stand there.
        keys: Vec<Bytes>,
    },
    /// To close the connection.
    Quit,
    /// A request that is refused.
    Refused(Refuse),
}

impl Ask {
    /// Whether nothing is read after it: it is [`Ask::Quit`], or refused with [`Refuse::BadChunk`] or [`Refuse::LongLine`].
    pub fn closes(&self) -> bool
        ensures { result ≡ spec.closes (spec.ask_of self.now) }
    {
        match self {
            Ask::One { .. } | Ask::Many { .. } => false,
            Ask::Quit => true,
            Ask::Refused(refuse) => matches!(refuse, Refuse::BadChunk | Refuse::LongLine),
        }
    }
}

/// What a piece brought.
#[derive(Debug, Drop)]
pub enum Asked {
    /// The request isn't whole yet.
    More,
    /// The request is whole, or refused.
    Done {
        /// What is asked.
        ask: Ask,
        /// How many bytes of this piece belong to it: at least 1.
        used: usize,
    },
}

/// Why there is no answer.
#[derive(Clone, Copy, Debug, Drop, PartialEq, Eq)]
pub enum AskFault {
    /// There was no memory.
    OutOfMemory,
    /// The reader has answered a fault, or what closes, before.
    Failed,
}

impl From<AllocError> for AskFault {
    ghost use Rattle.mc_reader.specs.declared.ask.AskFault.TheVariants.{OutOfMemory};

    ghost from_gives = { λ _ fault. fault ≡ OutOfMemory };

    fn from(_: AllocError) -> Self {
        AskFault::OutOfMemory
    }
}
