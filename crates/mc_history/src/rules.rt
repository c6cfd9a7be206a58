//! Which word of a line breaks a rule of a history.
ghost use Rattle.std.specs.Prelude.{◌≤◌};

use crate::{Expected, Misread};
use mc_model::HistoryKind;
use mc_protocol::Verb;

/// What is misread in a line with a request of this verb and what came back: the words of the request begin at index 1,
/// and those after `->` at `answer`.
pub(crate) fn misread_sent(kind: HistoryKind, verb: Verb, answer: usize) -> Misread {
    match kind {
        HistoryKind::WrongReply => Misread {
            word: answer,
            expected: Expected::ReplyTo(verb),
        },
        _ => misread_request(kind, 1),
    }
}

/// What is misread in a line with a request, whose words begin at this index.
pub(crate) fn misread_request(kind: HistoryKind, verb: usize) -> Misread
    requires { verb ≤ 2 }
{
    let (word, expected) = match kind {
        HistoryKind::TooMany => (0, Expected::RoomForRequest),
        HistoryKind::NotCleared => (verb + 1, Expected::ClearedKey),
        HistoryKind::UnseenNumber => (verb + 4, Expected::SeenUnique),
        // The only other rule that a request breaks: Order.
        _ => (0, Expected::RequestInTurn),
    };
    Misread { word, expected }
}

/// What is misread in a line with a reply, whose words begin at index 2.
pub(crate) fn misread_reply(kind: HistoryKind) -> Misread {
    let (word, expected) = match kind {
        HistoryKind::WrongReply => (2, Expected::ReplyToLastRequest),
        // The only other rule that a reply breaks: Order.
        _ => (0, Expected::AwaitedReply),
    };
    Misread { word, expected }
}
