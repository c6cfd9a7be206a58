//! Expected outcomes.
use mc_protocol::{Bytes, Reply, Verb};
use mc_reader::ReadFault;

/// What is expected of a text: a reply, or a fault.
#[derive(Clone, Copy)]
pub(crate) enum Wanted {
    Stored,
    NotStored,
    Exists,
    NotFound,
    Miss,
    Deleted,
    Touched,
    Number(u64),
    NotNumber,
    Hit(u32, &'static [u8], Option<u64>),
    Fault(ReadFault),
}

impl Wanted {
    pub(crate) fn is_reply(&self, reply: &Reply) -> bool {
        match (self, reply) {
            (Wanted::Stored, Reply::Stored)
            | (Wanted::NotStored, Reply::NotStored)
            | (Wanted::Exists, Reply::Exists)
            | (Wanted::NotFound, Reply::NotFound)
            | (Wanted::Miss, Reply::Miss)
            | (Wanted::Deleted, Reply::Deleted)
            | (Wanted::Touched, Reply::Touched)
            | (Wanted::NotNumber, Reply::NotNumber) => true,
            (Wanted::Number(wanted), Reply::Number(number)) => wanted == number,
            (Wanted::Hit(flags, body, cas), reply) => is_hit(reply, *flags, body, *cas),
            _ => false,
        }
    }

    pub(crate) fn is_fault(&self, fault: ReadFault) -> bool {
        match self {
            Wanted::Fault(wanted) => *wanted == fault,
            _ => false,
        }
    }
}

/// Whether the reply is a hit with this item.
pub(crate) fn is_hit(reply: &Reply, flags: u32, body: &[u8], cas: Option<u64>) -> bool {
    match reply {
        Reply::Hit {
            flags: shown,
            body: bytes,
            cas: number,
        } => *shown == flags && bytes.as_slice() == body && *number == cas,
        _ => false,
    }
}

/// A request's verb, a text that ends in answer to it, and what is expected at its end. The key is `a`.
pub(crate) type Row = (Verb, &'static [u8], Wanted);
