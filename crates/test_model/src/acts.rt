//! What a cache does with a request: one row for each verb, and for each choice that changes something. The other
//! rows are cases of the program.
use crate::lines::{bytes, reply_in, request_in};
use crate::memory::again;
use mc_model::{Cache, Choice, Item};
use mc_protocol::{OutOfMemory, Reply, Request};
use mc_words::WordsFault;
use std::alloc::Global;
use std::test::Fail;

/// What a server chooses where a row asks for nothing else.
const PLAIN: Choice = Choice {
    pad: false,
    read: false,
};

const READS: Choice = Choice {
    pad: false,
    read: true,
};

const PADS: Choice = Choice {
    pad: true,
    read: false,
};

/// The flags, body and number of an item.
type Held = Option<(u32, &'static str, u64)>;

/// The body that is at the key with flags 5 and the number 4, what is asked and answered, and what is there then. The
/// number of a version that is made is 9.
type Row = (&'static str, &'static str, Choice, &'static str, Held);

static ACTS: &[Row] = &[
    ("old", "set k 7 =new", PLAIN, "STORED", Some((7, "new", 9))),
    (
        "old",
        "add k 7 =new",
        PLAIN,
        "NOT_STORED",
        Some((5, "old", 4)),
    ),
    (
        "old",
        "replace k 7 =new",
        PLAIN,
        "STORED",
        Some((7, "new", 9)),
    ),
    (
        "old",
        "append k 7 =new",
        PLAIN,
        "STORED",
        Some((5, "oldnew", 9)),
    ),
    (
        "old",
        "prepend k 7 =new",
        PLAIN,
        "STORED",
        Some((5, "newold", 9)),
    ),
    (
        "old",
        "cas k 7 =new 4",
        PLAIN,
        "STORED",
        Some((7, "new", 9)),
    ),
    ("old", "get k", PLAIN, "HIT 5 =old", Some((5, "old", 4))),
    ("old", "gets k", PLAIN, "HIT 5 =old 4", Some((5, "old", 4))),
    ("5", "incr k 1", PLAIN, "NUMBER 6", Some((5, "6", 9))),
    ("10", "decr k 1", PLAIN, "NUMBER 9", Some((5, "9", 9))),
    ("10", "decr k 1", PADS, "NUMBER 9", Some((5, "9 ", 9))),
    (
        "5 5",
        "incr k 1",
        PLAIN,
        "NOT_A_NUMBER",
        Some((5, "5 5", 4)),
    ),
    ("5 5", "incr k 1", READS, "NUMBER 6", Some((5, "6", 9))),
    ("old", "delete k", PLAIN, "DELETED", None),
    ("old", "touch k", PLAIN, "TOUCHED", Some((5, "old", 4))),
    // A key that is not there, for which room must be made.
    (
        "old",
        "add other 7 =new",
        PLAIN,
        "STORED",
        Some((5, "old", 4)),
    ),
];

fn has(cache: &Cache, expected: Option<(u32, &str, u64)>) -> bool {
    match (cache.find(b"k"), expected) {
        (Some(item), Some((flags, body, number))) => {
            item.flags == flags && item.body.as_slice() == body.as_bytes() && item.number == number
        }
        (None, None) => true,
        _ => false,
    }
}

fn cache_of(alloc: Global, body: &str) -> Result<Cache, OutOfMemory> {
    let mut cache = Cache::new(alloc);
    let item = Item {
        flags: 5,
        body: bytes(alloc, body)?,
        number: 4,
    };
    cache.put(bytes(alloc, "k")?, item)?;
    Ok(cache)
}

/// Whether a cache answers so, and holds this then.
fn acts(alloc: Global, row: &Row) -> Result<bool, WordsFault> {
    let (body, line, choice, reply, after) = row;
    let request = request_in(alloc, line)?;
    acts_on(alloc, body, &request, *choice, reply, *after)
}

fn acts_on(
    alloc: Global,
    body: &str,
    request: &Request,
    choice: Choice,
    reply: &str,
    after: Option<(u32, &str, u64)>,
) -> Result<bool, WordsFault> {
    let reply = reply_in(alloc, reply)?;
    acts_so(alloc, body, request, choice, &reply, after)
}

/// The same of a reply that is read.
fn acts_so(
    alloc: Global,
    body: &str,
    request: &Request,
    choice: Choice,
    reply: &Reply,
    after: Option<(u32, &str, u64)>,
) -> Result<bool, WordsFault> {
    let mut cache = cache_of(alloc, body)?;
    Ok(replies_again(&mut cache, body, request, choice, reply)? && has(&cache, after))
}

/// Whether the cache with this body answers so. A call that finds no memory leaves the cache as it was, and is made once more.
fn replies_again(
    cache: &mut Cache,
    body: &str,
    request: &Request,
    choice: Choice,
    expected: &Reply,
) -> Result<bool, OutOfMemory> {
    match replies(cache, request, choice, expected) {
        Err(_) if has(cache, Some((5, body, 4))) => replies(cache, request, choice, expected),
        Err(_) => Ok(false),
        answer => answer,
    }
}

/// Whether the cache answers so, where the number of a version that is made is 9.
fn replies(
    cache: &mut Cache,
    request: &Request,
    choice: Choice,
    expected: &Reply,
) -> Result<bool, OutOfMemory> {
    let reply = cache.act(request, choice, 9)?;
    Ok(reply == *expected)
}

#[test]
fn acts_as_the_protocol_says(rt: HostRuntime) -> Result<(), Fail> {
    for row in ACTS {
        assert!(rt; acts(rt.alloc(), row)?, "{} {:?}", row.1, row.2);
    }
    Ok(())
}

fn copies(alloc: Global) -> Result<bool, WordsFault> {
    let mut cache = cache_of(alloc, "old")?;
    let copy = changed(alloc, &mut cache)?;
    Ok(has(&cache, Some((7, "new", 9))) && has(&copy, Some((5, "old", 4))))
}

/// Changes the cache, and answers a copy that was made before.
fn changed(alloc: Global, cache: &mut Cache) -> Result<Cache, WordsFault> {
    let copy = again(|| cache.copy())?;
    store(alloc, cache)?;
    Ok(copy)
}

fn store(alloc: Global, cache: &mut Cache) -> Result<(), WordsFault> {
    let request = request_in(alloc, "set k 7 =new")?;
    cache.act(&request, PLAIN, 9)?;
    Ok(())
}

#[test]
fn copies_caches(rt: HostRuntime) -> Result<(), Fail> {
    assert!(rt; copies(rt.alloc())?);
    Ok(())
}
