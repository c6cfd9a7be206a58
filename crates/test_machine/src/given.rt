//! Replies as the tests' tables write them.

use mc_protocol::{Bytes, Reply};
use std::alloc::Global;

/// A reply with nothing in it but a number, where it has one.
#[derive(Clone, Copy)]
pub(crate) enum Given {
    Stored,
    NotStored,
    Exists,
    NotFound,
    /// The hit of a `get`.
    Hit,
    /// The hit of a `gets`, which shows this cas unique.
    Unique(u64),
    Miss,
    Deleted,
    Touched,
    Number(u64),
    NotNumber,
}

impl Given {
    /// The reply; the body of a hit is empty.
    pub(crate) fn reply(self, alloc: Global) -> Reply {
        match self {
            Given::Stored => Reply::Stored,
            Given::NotStored => Reply::NotStored,
            Given::Exists => Reply::Exists,
            Given::NotFound => Reply::NotFound,
            Given::Hit => hit(alloc, None),
            Given::Unique(number) => hit(alloc, Some(number)),
            Given::Miss => Reply::Miss,
            Given::Deleted => Reply::Deleted,
            Given::Touched => Reply::Touched,
            Given::Number(number) => Reply::Number(number),
            Given::NotNumber => Reply::NotNumber,
        }
    }
}

fn hit(alloc: Global, cas: Option<u64>) -> Reply {
    Reply::Hit {
        flags: 0,
        body: Bytes::new(Vec::new(alloc)),
        cas,
    }
}
