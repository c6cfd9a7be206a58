//! What came of a connection.

use mc_protocol::OutOfMemory;

/// Why nothing more is read from a connection.
#[derive(Clone, Copy, Debug, PartialEq, Eq)]
pub enum Why {
    /// Its end was read, perhaps in the middle of a request, which isn't answered then.
    Ended,
    /// The client asked for it.
    Quit,
    /// A read failed.
    ReadFailed,
    /// A write failed. What was written before is the front of the answers.
    WriteFailed,
    /// A request was refused after which nothing can be read: its line is too long, or its body isn't ended as it has to be.
    Refused,
    /// Memory ran out. A line that says so is the last thing that was written.
    Memory,
    /// As many bytes were read as may be read of one connection.
    TooMuch,
}

impl From<OutOfMemory> for Why {
    ghost use Rattle.std.specs.Prelude.{◌≡◌};
    ghost use Rattle.mc_server.specs.declared.served.Why.TheVariants.{Memory};

    ghost from_gives = { λ _ why. why ≡ Memory };

    fn from(_: OutOfMemory) -> Self {
        Why::Memory
    }
}

/// What came of a connection.
#[derive(Clone, Copy, Debug, PartialEq, Eq)]
pub struct Served {
    /// How many requests were read: those to be answered, also where no reply is to be written. A retrieval of several keys is one;
    /// what is refused isn't counted.
    pub requests: u64,
    /// Why nothing more was read.
    pub why: Why,
}
