//! Why a world doesn't take an event.

use thiserror::Error;

/// What is against an event, in the order in which it is looked for.
#[derive(Clone, Copy, Debug, Drop, PartialEq, Eq, Error)]
pub enum StepRefusal {
    /// The section is a branch, and P isn't done.
    #[error("expected P to be done before an event of a branch")]
    NotYet,
    /// The section is done, or has failed.
    #[error("expected no event of a section after its end")]
    Over,
    /// A call would begin while another one waits for its reply.
    #[error("expected the reply to the last call before the next one")]
    Waiting,
    /// There is no call that waits for a reply.
    #[error("expected a call before its reply")]
    NotWaiting,
    /// The reply isn't one that the call may have.
    #[error("expected a reply that the call may have")]
    WrongReply,
}
