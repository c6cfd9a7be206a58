//! Why timelines end.
use mc_model::HistoryKind;

/// Why a timeline ends that would be none with the next note.
pub(crate) fn reason_of(kind: HistoryKind) -> &'static str {
    match kind {
        HistoryKind::NotCleared => "a request began before its first one was answered",
        HistoryKind::UnseenNumber => "a cas has a number that wasn't shown since it began",
        HistoryKind::TooMany => "it has as many requests as a timeline may have",
        HistoryKind::WrongReply => "the reply is none that the request may have",
        HistoryKind::OutOfMemory => "there was no memory",
        _ => "a timeline has no words for the request",
    }
}
