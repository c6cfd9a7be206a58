//! What a cache answers where a history stops being explained.
use mc_protocol::Reply;

/// What a cache answers to a request of a section.
#[derive(Debug, Drop)]
pub enum Answer {
    /// To the request that comes next in its section, after all moves of an explanation.
    Next {
        /// The request's place in its section, counted from 0.
        place: usize,
        reply: Reply,
    },
    /// To a request that was not answered and acts in the explanation, where it stands there.
    Acted {
        /// The request's place in its section, counted from 0.
        place: usize,
        reply: Reply,
    },
}
