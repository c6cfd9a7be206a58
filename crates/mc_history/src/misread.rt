//! Which word of a line can't be read, and what was expected in its place.
ghost use Rattle.std.specs.Prelude.{◌≡◌, ◌+◌, ◌<◌, ◌^◌};

use mc_protocol::Verb;
use mc_words::{ExpectedWord, MisreadWord};

/// What was expected in the place of a word of a text. Each variant is one thing that can be said about the word: that
/// it is missing, that it is something else, that it is one too many, or that a rule of the text doesn't allow it.
#[derive(Clone, Copy, Debug, Drop, PartialEq, Eq)]
pub enum Expected {
    /// A word of a request or of a reply.
    Word(ExpectedWord),
    /// The first line of a history, `history 1` or `history 2`.
    HistoryHeader,
    /// A request or a note of a section, or one of the lines `explain` and `end`, which have no other word.
    SectionOrEnd,
    /// `->` after a request.
    Arrow,
    /// A reply to a request of this verb, or `?` alone.
    ReplyTo(Verb),
    /// `begin` or `reply` after the section.
    BeginOrReply,
    /// A key that no earlier `start` line has.
    NewKey,
    /// The number of what a key held, as decimal digits.
    StartNumber,
    /// No word after the number of a `start` line.
    EndOfStart,
    /// A move of a section, or the line `end`, which has no other word. Lines with `start` come before the moves.
    MoveOrEnd,
    /// The number of the version that the move makes, as decimal digits.
    MoveNumber,
    /// `pad`, `refuse`, or both in this order, and no other word.
    Marks,
    /// The line `end` before the text ends.
    EndLine,
    /// No line after `end`.
    EndOfText,
    /// A request for which there is room: a section has few enough of them, and a history few enough keys.
    RoomForRequest,
    /// A request whose turn it is: its section waits for no reply, and the prefix comes before the branches.
    RequestInTurn,
    /// A reply for which the section waits.
    AwaitedReply,
    /// A key that the prefix deletes first.
    ClearedKey,
    /// A cas unique that an earlier `gets` showed to the section.
    SeenUnique,
    /// A reply that the section's last request may have.
    ReplyToLastRequest,
    /// The first line of a step list, `steps`.
    StepsHeader,
    /// A step of a section, or the line `end`, which has no other word.
    StepOrEnd,
    /// `begin`, `reply` or `fail` after the section.
    Event,
    /// No word after `begin`.
    EndAfterBegin,
    /// The number of a fault.
    FaultNumber,
    /// No word after the number of a fault.
    EndAfterFault,
    /// At most as many steps as a step list may have.
    RoomForStep,
    /// What only a timeline's text has.
    InTimeline(ExpectedInTimeline),
}

/// What was expected in the place of a word of a timeline's text, if no other text has it.
#[derive(Clone, Copy, Debug, Drop, PartialEq, Eq)]
pub enum ExpectedInTimeline {
    /// The first line, `history 3`.
    Header,
    /// A note of a client, or one of the lines `explain` and `end`, which have no other word.
    NoteOrEnd,
    /// A move of a client, or the line `end`, which has no other word. Lines with `start` come before the moves.
    MoveOrEnd,
    /// The number of a client, as decimal digits without a leading zero.
    Client,
    /// The number of a client, at most 63.
    SmallClient,
    /// A request for which there is room: a timeline has few enough of them, and few enough keys.
    RoomForRequest,
    /// A request of a client that waits for no reply.
    IdleClient,
    /// A reply for which the client waits.
    AwaitedReply,
    /// A key whose first request was answered; a `delete` or a `set` may be the first.
    OpenedKey,
    /// A cas unique that an earlier reply to a `gets` of the key showed.
    SeenUnique,
    /// A reply that the client's request may have.
    FittingReply,
}

/// A word that isn't what was expected in its place.
#[derive(Clone, Copy, Debug, Drop, PartialEq, Eq)]
pub struct Misread {
    /// How many words of the line stand before it. A missing word comes after the last, and a missing line is one
    /// without words.
    pub word: usize,
    pub expected: Expected,
}

impl Misread {
    /// What is misread in words of a line, before which this many words of the line stand.
    pub(crate) fn of_word(misread: MisreadWord, before: usize) -> Misread
        requires { before + misread.word < 2 ^ 64 }
        ensures { result ≡ record { word = before + misread.word; expected = Expected.Word misread.expected } }
    {
        Misread {
            word: before + misread.word,
            expected: Expected::Word(misread.expected),
        }
    }
}
