//! Which request a reply answers.

use mc_protocol::Verb;

/// What a reader must know of the request whose reply it reads.
#[derive(Clone, Copy, Debug, Drop)]
pub struct Shape<'k> {
    /// Its verb.
    pub verb: Verb,
    /// Its key: a hit must show it.
    pub key: &'k [u8],
}
