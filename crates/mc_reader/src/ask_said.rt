//! What the line of a request says.
ghost use Rattle.std.specs.Prelude.{◌≡◌};
ghost use Rattle.mc_reader.specs.AskLines as lines;
ghost use Rattle.mc_reader.specs.AskParts as spec;

use crate::{Ask, Refuse};
use mc_protocol::{Bytes, Verb};

/// The line of a request whose block follows.
#[derive(Debug, Drop)]
pub(crate) struct StoreLine {
    pub(crate) verb: Verb,
    pub(crate) key: Bytes,
    /// The client's flags of the item.
    pub(crate) flags: u32,
    /// The cas unique, or 0 where the verb has none.
    pub(crate) number: u64,
    /// Whether no reply is to be written.
    pub(crate) noreply: bool,
    /// How many bytes the body has.
    pub(crate) body_len: usize,
}

/// What a line says.
#[derive(Debug, Drop)]
pub(crate) enum AskSaid {
    /// The line is all that is asked.
    Whole(Ask),
    /// A block follows.
    Block(StoreLine),
    /// The request is refused, and this number of bytes after the line belongs to it.
    Skips { refuse: Refuse, bytes: u64 },
}

/// The commands, by the words after their own.
#[derive(Clone, Copy, Debug, Drop)]
pub(crate) enum Command {
    Retrieves(Verb),
    Stores(Verb),
    Swaps,
    Counts(Verb),
    Deletes,
    Touches,
    Quits,
}

/// The request is refused at the end of its line.
pub(crate) fn refused(refuse: Refuse) -> AskSaid
    ensures { spec.said_of result ≡ lines.refused refuse }
{
    AskSaid::Whole(Ask::Refused(refuse))
}
