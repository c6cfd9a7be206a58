//! Which word of a line breaks a rule of a timeline.
use mc_history::{Expected, ExpectedInTimeline, Misread};
use mc_model::HistoryKind;

/// What is misread in the line of a note that breaks a rule.
pub(crate) fn misread_note(kind: HistoryKind, is_reply: bool) -> Misread {
    let (word, expected) = if is_reply {
        misread_reply(kind)
    } else {
        misread_request(kind)
    };
    Misread {
        word,
        expected: Expected::InTimeline(expected),
    }
}

// In a line with a request, whose words follow the client and `begin`.
fn misread_request(kind: HistoryKind) -> (usize, ExpectedInTimeline) {
    match kind {
        HistoryKind::TooMany => (0, ExpectedInTimeline::RoomForRequest),
        HistoryKind::NotCleared => (3, ExpectedInTimeline::OpenedKey),
        HistoryKind::UnseenNumber => (6, ExpectedInTimeline::SeenUnique),
        // The only other rule that a request breaks once it was read: Order.
        _ => (0, ExpectedInTimeline::IdleClient),
    }
}

// In a line with a reply, whose words follow the client and `reply`.
fn misread_reply(kind: HistoryKind) -> (usize, ExpectedInTimeline) {
    match kind {
        HistoryKind::WrongReply => (2, ExpectedInTimeline::FittingReply),
        // The only other rule that a reply breaks: Order.
        _ => (0, ExpectedInTimeline::AwaitedReply),
    }
}
