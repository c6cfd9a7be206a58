//! What the first line of a reply says.

use mc_protocol::Reply;

/// What the first line of a hit says of the item.
#[derive(Clone, Copy, Debug, Drop)]
pub(crate) struct HitLine {
    /// The client's flags of the item.
    pub(crate) flags: u32,
    /// How many bytes its body has.
    pub(crate) body_len: usize,
    /// Its cas unique, where the line shows it.
    pub(crate) cas: Option<u64>,
}

/// What the first line of a reply says.
#[derive(Debug, Drop)]
pub(crate) enum Said {
    /// The line is the whole reply.
    Whole(Reply),
    /// An item was found; its body and a line `END` follow.
    Hit(HitLine),
}
