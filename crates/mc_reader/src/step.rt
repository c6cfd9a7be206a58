//! What comes of one piece.

use mc_protocol::Reply;

/// What comes of a piece that brought no fault.
#[derive(Debug, Drop)]
pub(crate) enum Step<S> {
    /// All of the piece was read, and this is how far the reply has come.
    More(S),
    /// The reply is whole, and `unread` bytes of the piece come after it.
    Done { reply: Reply, unread: usize },
}
