//! Which replies a request may have.
use crate::values::{hit, request};
use mc_protocol::{Class, OutOfMemory, Reply, Verb, fits, legal};
use std::alloc::Global;
use std::test::Fail;

static CLASSES: &[Class] = &[
    Class::Stored,
    Class::NotStored,
    Class::Exists,
    Class::NotFound,
    Class::Hit,
    Class::Miss,
    Class::Deleted,
    Class::Touched,
    Class::Number,
    Class::NotNumber,
];

// For each verb a mark for each class, in the order above: `y` where the reply is legal.
static LEGAL: &[(Verb, &[u8])] = &[
    (Verb::Set, b"yyyy------"),
    (Verb::Add, b"yyyy------"),
    (Verb::Replace, b"yyyy------"),
    (Verb::Append, b"yyyy------"),
    (Verb::Prepend, b"yyyy------"),
    (Verb::Cas, b"yyyy------"),
    (Verb::Get, b"----yy----"),
    (Verb::Gets, b"----yy----"),
    (Verb::Incr, b"---y----yy"),
    (Verb::Decr, b"---y----yy"),
    (Verb::Delete, b"---y--y---"),
    (Verb::Touch, b"---y---y--"),
];

fn has_marks(verb: Verb, marks: &[u8]) -> bool {
    for (class, mark) in CLASSES.iter().zip(marks) {
        if legal(verb, *class) != (*mark == b'y') {
            return false;
        }
    }
    marks.len() == CLASSES.len()
}

#[test]
fn knows_legal_replies(rt: HostRuntime) {
    for (verb, marks) in LEGAL {
        assert!(rt; has_marks(*verb, marks), "{verb:?}");
    }
}

// Whether a `get` may have this reply.
fn fits_get(alloc: Global, reply: &Reply) -> Result<bool, OutOfMemory> {
    Ok(fits(&request(alloc, Verb::Get, b"a", b"", 0)?, reply))
}

// A hit's length and cas number, and whether a `get` may have it.
static HITS: &[(usize, Option<u64>, bool)] = &[
    (65_536, None, true),
    (65_537, None, false),
    (1, Some(9), false),
];

#[test]
fn knows_which_hits_fit(rt: HostRuntime) -> Result<(), Fail> {
    for (length, cas, expected) in HITS {
        let reply = hit(rt.alloc(), *length, *cas)?;
        assert!(rt; fits_get(rt.alloc(), &reply)? == *expected, "{length}");
    }
    Ok(())
}

#[test]
fn knows_which_replies_fit(rt: HostRuntime) -> Result<(), Fail> {
    assert!(rt; fits_get(rt.alloc(), &Reply::Miss)? && !fits_get(rt.alloc(), &Reply::Stored)?);
    Ok(())
}
