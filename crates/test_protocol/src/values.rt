//! Values that the tests need, and their parts.
use crate::memory::again;
use mc_protocol::{Actor, Bytes, Class, Fields, OutOfMemory, Reply, Request, Sections, Verb};
use std::alloc::Global;
use std::test::Fail;

pub(crate) fn bytes(alloc: Global, text: &[u8]) -> Result<Bytes, OutOfMemory> {
    Ok(Bytes::new(Vec::from_slice(alloc, text)?))
}

/// A hit with a body of `length` bytes.
pub(crate) fn hit(alloc: Global, length: usize, cas: Option<u64>) -> Result<Reply, OutOfMemory> {
    Ok(Reply::Hit {
        flags: 0,
        body: Bytes::new(vec![in alloc; b'x'; length]?),
        cas,
    })
}

pub(crate) fn request(
    alloc: Global,
    verb: Verb,
    key: &[u8],
    body: &[u8],
    number: u64,
) -> Result<Request, OutOfMemory> {
    Ok(Request {
        verb,
        key: bytes(alloc, key)?,
        flags: 0,
        body: bytes(alloc, body)?,
        number,
    })
}

fn copies(alloc: Global, text: &[u8]) -> Result<bool, OutOfMemory> {
    let bytes = bytes(alloc, text)?;
    let copy = again(|| bytes.copy(alloc))?;
    Ok(copy == bytes && copy.as_slice() == text && copy.into_vec().as_slice() == text)
}

#[test]
fn copies_bytes(rt: HostRuntime) -> Result<(), Fail> {
    assert!(rt; copies(rt.alloc(), b"a\xffb")?);
    Ok(())
}

#[test]
fn knows_words_and_fields(rt: HostRuntime) {
    assert!(rt;
        Verb::Set.fields() == Fields::Item
            && Verb::Delete.fields() == Fields::KeyAlone
            && Verb::Delete.word() == "delete"
            && Actor::P != Actor::A
            && Reply::Miss.class() == Class::Miss
    );
}

#[test]
fn gets_the_value_of_a_section(rt: HostRuntime) {
    let places = Sections { p: 1, a: 2, b: 3 };
    assert!(rt;
        *places.get(Actor::P) == 1 && *places.get(Actor::A) == 2 && *places.get(Actor::B) == 3
    );
}

fn tells_replies_apart(alloc: Global) -> Result<bool, OutOfMemory> {
    let hit_of_two = hit(alloc, 2, None)?;
    Ok(
        Reply::Miss != Reply::Deleted
            && hit_of_two == hit(alloc, 2, None)?
            && hit_of_two != hit(alloc, 3, None)?,
    )
}

#[test]
fn compares_replies(rt: HostRuntime) -> Result<(), Fail> {
    assert!(rt; tells_replies_apart(rt.alloc())?);
    Ok(())
}
