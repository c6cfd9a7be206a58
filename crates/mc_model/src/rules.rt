//! The rules of a history, as tests of one request and of those before it.
ghost use Rattle.std.specs.Prelude.{◌≡◌};
ghost use Rattle.mc_model.specs.History as rule;

use crate::Sent;
use mc_protocol::{FaultKind, Fields, REPLY_BODY_LIMIT, Reply, Request, Verb, fits, is_key};
use std::alloc::{AllocError, AllocFailed};
use thiserror::Error;

/// Why a text, or requests with their replies, are no history.
#[derive(Clone, Copy, Debug, Drop, PartialEq, Eq, Error)]
pub enum HistoryKind {
    /// The text has another first line.
    #[error("the first line is neither `history 1` nor `history 2`")]
    Header,
    /// The line can't be read, or may not stand there.
    #[error("the line is not one that may stand there")]
    Line,
    /// A number has more than 20 digits, or is too large.
    #[error("a number is too large")]
    Number,
    /// A request comes before a reply that its section waits for, a reply comes where its section waits for none, or
    /// something of the prefix comes after something of a branch.
    #[error("a request comes before a reply that its section waits for, a reply answers no request, or the prefix isn't first")]
    Order,
    /// The protocol has no such reply to the request, or a hit has the wrong fields or too long a body.
    #[error("the reply is none that the request may have")]
    WrongReply,
    /// The first request of a key is no `delete` of the prefix.
    #[error("the key's first request is not a delete in the prefix")]
    NotCleared,
    /// A `cas` has a number that its section can't know.
    #[error("no earlier `gets` of the key showed this cas number to the section")]
    UnseenNumber,
    /// There are too many requests or keys.
    #[error("a section has more than 24 requests, or the history more than 8 keys")]
    TooMany,
    /// The text ends before its last line.
    #[error("the line `end` is missing")]
    Unended,
    /// No fault of the text: memory ran out.
    #[error("out of memory")]
    OutOfMemory,
}

impl FaultKind for HistoryKind {
    ghost use Rattle.mc_model.specs.Kinds as kinds;
    ghost use Rattle.mc_model.specs.declared.rules.HistoryKind.TheVariants.{OutOfMemory};

    ghost kind_number = { kinds.kind_number };

    ghost kind_name = { kinds.kind_name };

    ghost OutOfMemory = { OutOfMemory };

    fn number_and_name(self) -> (u32, &'static str) {
        match self {
            HistoryKind::Header => (1, "Header"),
            HistoryKind::Line => (2, "Line"),
            HistoryKind::Number => (3, "Number"),
            HistoryKind::Order => (4, "Order"),
            HistoryKind::WrongReply => (5, "WrongReply"),
            HistoryKind::NotCleared => (6, "NotCleared"),
            HistoryKind::UnseenNumber => (7, "UnseenNumber"),
            HistoryKind::TooMany => (8, "TooMany"),
            HistoryKind::Unended => (9, "Unended"),
            HistoryKind::OutOfMemory => (10, "OutOfMemory"),
        }
    }

    fn is_out_of_memory(self) -> bool {
        self == HistoryKind::OutOfMemory
    }
}

impl From<AllocError> for HistoryKind {
    ghost use Rattle.mc_model.specs.declared.rules.HistoryKind.TheVariants.{OutOfMemory};

    ghost from_gives = { λ _ e. e ≡ OutOfMemory };

    fn from(_e: AllocError) -> HistoryKind {
        HistoryKind::OutOfMemory
    }
}

impl<T: Drop> From<AllocFailed<T>> for HistoryKind {
    ghost use Rattle.mc_model.specs.declared.rules.HistoryKind.TheVariants.{OutOfMemory};

    ghost from_gives = { λ _ e. e ≡ OutOfMemory };

    fn from(_e: AllocFailed<T>) -> HistoryKind {
        HistoryKind::OutOfMemory
    }
}

/// Whether some text spells the request: its key and body keep their limits, and a field that its verb lacks is 0 or
/// empty.
pub(crate) fn has_words(request: &Request) -> bool
    ensures { result ≡ rule.has_words request.now }
{
    is_key(request.key.as_slice())
        && request.body.as_slice().len() <= REPLY_BODY_LIMIT
        && has_its_fields(request)
}

/// Whether each field that the verb lacks is 0 or empty.
fn has_its_fields(request: &Request) -> bool
    ensures { result ≡ rule.has_its_fields request.now }
{
    match request.verb.fields() {
        Fields::KeyAlone | Fields::Expiry => {
            request.flags == 0 && request.body.as_slice().is_empty() && request.number == 0
        }
        Fields::Item => request.number == 0,
        Fields::Swap => true,
        Fields::Amount => request.flags == 0 && request.body.as_slice().is_empty(),
    }
}

/// Whether every request of the section was answered.
pub(crate) fn are_answered(section: &[Sent]) -> bool
    ensures { result ≡ rule.are_answered section.now }
{
    section.iter().all(|sent| sent.reply.is_some())
}

/// Whether the section has a request on the key.
pub(crate) fn has_key(section: &[Sent], key: &[u8]) -> bool
    ensures { result ≡ rule.has_key key.now section.now }
{
    section
        .iter()
        .any(|sent| sent.request.key.as_slice() == key)
}

/// Whether one of the earlier requests shows the number of a `cas`. Other requests need none.
pub(crate) fn is_seen(earlier: &[Sent], sent: &Sent) -> bool
    ensures { result ≡ rule.is_seen earlier.now sent.now }
{
    sent.request.verb != Verb::Cas || earlier.iter().any(|shown| shows(shown, &sent.request))
}

/// Whether what was sent is a `gets` of the request's key, answered with its number.
fn shows(sent: &Sent, request: &Request) -> bool
    ensures { result ≡ rule.shows request.now.key request.now.number sent.now }
{
    sent.request.verb == Verb::Gets
        && sent.request.key == request.key
        && shows_number(sent, request.number)
}

/// Whether the reply is a hit with this cas number.
fn shows_number(sent: &Sent, number: u64) -> bool
    ensures { result ≡ rule.shows_number number sent.now.reply }
{
    match &sent.reply {
        Some(Reply::Hit { cas: Some(cas), .. }) => *cas == number,
        _ => false,
    }
}

/// Whether the reply, if one came, is one that the request may have.
pub(crate) fn is_answered_rightly(sent: &Sent) -> bool
    ensures { result ≡ rule.is_answered_rightly sent.now }
{
    match &sent.reply {
        Some(reply) => fits(&sent.request, reply),
        None => true,
    }
}
