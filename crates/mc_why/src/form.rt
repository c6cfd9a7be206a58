//! A reply that would be explained where a history stops being explained.
use mc_protocol::{Bytes, Reply};

/// A form of the replies that would be explained at a place.
#[derive(Debug, Drop)]
pub enum Form {
    /// This reply.
    Reply(Reply),
    /// A hit with these flags, this body and a number that no reply showed before, such as this one.
    NewNumber {
        flags: u32,
        body: Bytes,
        number: u64,
    },
}
