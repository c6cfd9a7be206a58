//! What `verify` hands out: sound code with its greatest costs, or the refusal with the code as it was.

use crate::answer::{Answer, COUNTER, Fault, answer_to, fault_of};
use mc_code::Code;
use mc_image::encode;
use mc_protocol::{Actor, Class};
use mc_verify::{Checked, RefusalKind};
use std::alloc::{AllocError, Global};
use std::test::Fail;

/// What the sections of the counter cost, P, A and B, each with its requests and its bytes.
const COSTS: [(u32, u32); 3] = [(2, 26), (1, 10), (1, 10)];

#[test]
fn hands_out_the_counter(rt: HostRuntime) -> Result<(), Fail> {
    let found = checked_counter(rt.alloc())?;
    assert_eq!(rt; found, Some((COSTS, true)));
    Ok(())
}

/// What the sections of the counter's code cost, and whether the sound code has the same image, where it is sound. Want of memory is an
/// error.
fn checked_counter(alloc: Global) -> Result<Option<([(u32, u32); 3], bool)>, Fail> {
    let answer = answer_to(alloc, COUNTER)?;
    checked_in(alloc, &answer, COUNTER)
}

fn checked_in(
    alloc: Global,
    answer: &Answer,
    image: &[u8],
) -> Result<Option<([(u32, u32); 3], bool)>, Fail> {
    match answer {
        Ok(checked) => Ok(Some((costs_of(checked), has_image(alloc, checked.code(), image)?))),
        Err((refusal, _)) if refusal.kind == RefusalKind::OutOfMemory => Err(AllocError)?,
        Err(_) => Ok(None),
    }
}

fn costs_of(checked: &Checked) -> [(u32, u32); 3] {
    [Actor::P, Actor::A, Actor::B].map(|actor| {
        let cost = checked.maxima(actor);
        (cost.requests, cost.bytes)
    })
}

#[test]
fn hands_back_what_it_refuses(rt: HostRuntime) -> Result<(), Fail> {
    let expected = (RefusalKind::TooManyBytes, Actor::P, 1);
    let found = refused_poor_counter(rt.alloc())?;
    assert_eq!(rt; found, Some((expected, true, true)));
    Ok(())
}

/// What is wrong where P may send a byte fewer than it sends.
fn refused_poor_counter(alloc: Global) -> Result<Option<(Fault, bool, bool)>, Fail> {
    let mut bytes = Vec::from_slice(alloc, COUNTER)?;
    // the first byte of P's budget of bytes: 26 bytes become 25
    bytes[11] = 25;
    refused(alloc, &bytes)
}

/// What is wrong with the code of the image, whether P's delete alone is shown, and whether the code that is handed back has the
/// same image; nothing where it is sound.
fn refused(alloc: Global, image: &[u8]) -> Result<Option<(Fault, bool, bool)>, Fail> {
    let answer = answer_to(alloc, image)?;
    refused_in(alloc, &answer, image)
}

fn refused_in(
    alloc: Global,
    answer: &Answer,
    image: &[u8],
) -> Result<Option<(Fault, bool, bool)>, Fail> {
    match answer {
        Ok(_) => Ok(None),
        Err((refusal, code)) => {
            let is_shown = shows_a_delete(&refusal.shown);
            let is_same = has_image(alloc, code, image)?;
            Ok(Some((fault_of(refusal), is_shown, is_same)))
        }
    }
}

/// Whether one delete of P is shown: both of its replies lead on.
fn shows_a_delete(shown: &[(Actor, Class)]) -> bool {
    matches!(shown, [(Actor::P, Class::Deleted | Class::NotFound)])
}

fn has_image(alloc: Global, code: &Code, image: &[u8]) -> Result<bool, Fail> {
    let mut found = Vec::new(alloc);
    encode(code, &mut found)?;
    Ok(found.as_slice() == image)
}
