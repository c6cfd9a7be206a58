//! What is decided of a request, and what a decision does that is applied later.
use crate::lines::{bytes, reply_in, request_in};
use crate::memory::again;
use mc_model::{
    Answer, Cache, Change, Choice, Decision, Found, Item, Numeral, Reading, decide, make_version,
    numeral_of, reply_with,
};
use mc_protocol::{OutOfMemory, Reply, Request, Verb};
use mc_words::WordsFault;
use std::alloc::Global;
use std::test::Fail;

const PLAIN: Choice = Choice {
    pad: false,
    read: true,
};

fn cache_of(alloc: Global, body: &str) -> Result<Cache, OutOfMemory> {
    let mut cache = Cache::new(alloc);
    let item = Item {
        flags: 5,
        body: bytes(alloc, body)?,
        number: 4,
    };
    cache.put(bytes(alloc, "k")?, item)?;
    Ok(cache)
}

fn holds(cache: &Cache, body: &str) -> bool {
    match cache.find(b"k") {
        Some(item) => item.body.as_slice() == body.as_bytes(),
        None => false,
    }
}

/// The body of an item, two requests that are decided by it before both are done, and the body after that.
type Twice = (&'static str, &'static str, &'static str, &'static str);

/// Whether the row's body is there after its requests.
fn is_met(alloc: Global, row: &Twice) -> Result<bool, WordsFault> {
    let (body, first, second, after) = *row;
    let mut cache = cache_of(alloc, body)?;
    decide_twice(alloc, &mut cache, first, second)?;
    Ok(holds(&cache, after))
}

fn decide_twice(
    alloc: Global,
    cache: &mut Cache,
    first: &str,
    second: &str,
) -> Result<(), WordsFault> {
    let first = request_in(alloc, first)?;
    let second = request_in(alloc, second)?;
    Ok(apply_both(cache, &first, &second)?)
}

/// Both are decided before either is done. A call that finds no memory leaves the cache as it was, so the first request is decided as
/// before and done once more. The second isn't: what was decided of it is gone then.
fn apply_both(cache: &mut Cache, first: &Request, second: &Request) -> Result<(), OutOfMemory> {
    let later = cache.decide(second, PLAIN);
    again(|| apply_now(cache, first))?;
    let _ = cache.apply(second, later, false, 10)?;
    Ok(())
}

fn apply_now(cache: &mut Cache, request: &Request) -> Result<(), OutOfMemory> {
    let decision = cache.decide(request, PLAIN);
    let _ = cache.apply(request, decision, false, 9)?;
    Ok(())
}

/// Of two counts that are decided by one number, one is lost; what joins a body is not.
static TWICE: &[Twice] = &[
    ("5", "incr k 1", "incr k 2", "7"),
    ("5", "decr k 7", "append k 0 =x", "0x"),
    ("5", "set k 0 =x", "prepend k 0 =y", "yx"),
];

#[test]
fn applies_what_was_decided_before(rt: HostRuntime) -> Result<(), Fail> {
    for row in TWICE {
        assert!(rt; is_met(rt.alloc(), row)?, "{row:?}");
    }
    Ok(())
}

fn answers_a_miss(alloc: Global) -> Result<bool, WordsFault> {
    let mut cache = cache_of(alloc, "x")?;
    let get = request_in(alloc, "get k")?;
    let decision = cache.decide(&get, PLAIN);
    delete(alloc, &mut cache)?;
    let shown = cache.apply(&get, decision, false, 10)?;
    Ok(shown == Reply::Miss)
}

fn delete(alloc: Global, cache: &mut Cache) -> Result<(), WordsFault> {
    let delete = request_in(alloc, "delete k")?;
    let _ = cache.act(&delete, PLAIN, 9)?;
    Ok(())
}

#[test]
fn shows_nothing_that_is_gone(rt: HostRuntime) -> Result<(), Fail> {
    assert!(rt; answers_a_miss(rt.alloc())?);
    Ok(())
}

fn found(says: Numeral) -> Option<Found> {
    Some(Found {
        has_number: false,
        says,
    })
}

#[test]
fn decides_by_what_is_known(rt: HostRuntime) {
    let none = decide(Verb::Cas, 4, PLAIN, None);
    assert!(rt; none.change == Change::Keeps && none.answer == Answer::Reply(Reply::NotFound));
    let other = decide(Verb::Cas, 4, PLAIN, found(Numeral::NoNumber));
    assert!(rt; other.change == Change::Keeps && other.answer == Answer::Reply(Reply::Exists));
    let counted = decide(Verb::Decr, 7, PLAIN, found(Numeral::Is(5)));
    assert!(rt; counted.change == Change::Counts(0));
    assert!(rt; counted.answer == Answer::Reply(Reply::Number(0)));
}

fn knows_its_number(alloc: Global) -> Result<bool, OutOfMemory> {
    let cache = cache_of(alloc, "12")?;
    let Some(item) = cache.find(b"k") else {
        return Ok(false);
    };
    let known = Found::of(item, 4);
    Ok(known.has_number && known.says.read_as(false) == Some(12) && !Found::of(item, 5).has_number)
}

#[test]
fn knows_an_item(rt: HostRuntime) -> Result<(), Fail> {
    assert!(rt; knows_its_number(rt.alloc())?);
    Ok(())
}

/// An append to the item with the body `12`, step by step: it is decided, the version is made, and the item is shown.
fn appends_in_steps(alloc: Global) -> Result<bool, WordsFault> {
    let cache = cache_of(alloc, "12")?;
    let append = request_in(alloc, "append k 7 =x")?;
    let found = cache.find(b"k");
    Ok(is_appended(alloc, &append, found)? && is_shown(alloc, found)?)
}

fn is_appended(alloc: Global, append: &Request, found: Option<&Item>) -> Result<bool, OutOfMemory> {
    let decision = Decision::of(append, PLAIN, found);
    let made = again(|| make_version(alloc, append, decision.change, false, 9, found))?;
    Ok(is_version(made, 5, b"12x", 9))
}

fn is_shown(alloc: Global, found: Option<&Item>) -> Result<bool, WordsFault> {
    let shown = again(|| reply_with(alloc, Answer::ShowsNumber, found))?;
    Ok(shown == reply_in(alloc, "HIT 5 =12 4")?)
}

fn is_version(made: Option<Item>, flags: u32, body: &[u8], number: u64) -> bool {
    match made {
        Some(item) => {
            item.flags == flags && item.body.as_slice() == body && item.number == number
        }
        None => false,
    }
}

fn appends_to_nothing(alloc: Global) -> Result<bool, WordsFault> {
    let append = request_in(alloc, "append k 7 =x")?;
    let decision = Decision::of(&append, PLAIN, None);
    let made = make_version(alloc, &append, decision.change, false, 9, None)?;
    Ok(made.is_none() && decision.answer == Answer::Reply(Reply::NotStored))
}

#[test]
fn makes_a_version_of_what_is_there(rt: HostRuntime) -> Result<(), Fail> {
    assert!(rt; appends_in_steps(rt.alloc())?);
    assert!(rt; appends_to_nothing(rt.alloc())?);
    Ok(())
}

#[test]
fn reads_a_number_in_pieces(rt: HostRuntime) {
    let pieces = Reading::start().with_bytes(b"1").with_bytes(b"2");
    assert!(rt; pieces.with_spaces(2).numeral() == numeral_of(b"12  "));
    assert!(rt; pieces.with_spaces(1).with_bytes(b"x").numeral() == Numeral::MayBe(12));
    assert!(rt; pieces.with_bytes(b"x").numeral() == Numeral::NoNumber);
}
