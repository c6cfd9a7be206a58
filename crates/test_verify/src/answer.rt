//! An image of sound code, and what `verify` answers to the code of an image.

use mc_code::Code;
use mc_image::{ImageFault, decode};
use mc_protocol::Actor;
use mc_verify::{Checked, Refusal, RefusalKind, verify};
use std::alloc::Global;

/// The image of sound code: two increments of one counter.
pub(crate) static COUNTER: &[u8] =
    b"MCR1\x01\x01a\x00\x00\x02\x00\x1a\x01\x00\x0a\x01\x00\x0a\x04\x0a\
    \x00\x00\x00\x00\x00\x00\x00\x00\x00\x00\x00\x00\x00\x00\x00\x00\x00\x00\x00\x00\
    \x00\x00\x00\x00\x00\x00\x00\x00\x00\x00\x00\x00\x00\x00\x00\x00\x00\x00\x00\x00\
    \x00\x00\x00\x00\x00\x00\x015\x00\x00\x00\x00\x00\x00\x00\x00\x00\x00\x00\x00\
    \x00\x00\x00\x00\x08\x00\x00\x00\x00\x00\x01\x00\x00\x00\x00\x00\x00\x00\x01\x00\
    \x00\x00\x00\x00\x00\x00\x00\x00\x00\x00\x00\x00\x00\x00\x00\x00\x08\x00\x00\x00\
    \x00\x00\x01\x00\x00\x00\x00\x00\x00\x00\x01\x00\x00\x00\x00\x00\x00\x00\x00\x00\
    \x00\x00\x00\x00\x00\x00\x00\x00\x03\x00\x00\xff\xff\xff\x01\xff\xff\x01\xff\xff\
    \xff\x00\x01\x02\x02\x02\x02\xff\xff\xff\xff\xff\xff\x03\x02\x00\x02\xff\xff\xff\
    \x01\xff\xff\xff\xff\x01\x01\x03\x02\x00\x03\xff\xff\xff\x01\xff\xff\xff\xff\x01\
    \x01\x03";

/// Sound code with its greatest costs, or the refusal with the code as it was.
pub(crate) type Answer = Result<Checked, (Refusal, Code)>;

/// What is wrong, in which section, and at which place.
pub(crate) type Fault = (RefusalKind, Actor, u8);

/// The fault that the refusal names.
pub(crate) fn fault_of(refusal: &Refusal) -> Fault {
    (refusal.kind, refusal.actor, refusal.place)
}

pub(crate) fn answer_to(alloc: Global, image: &[u8]) -> Result<Answer, ImageFault> {
    Ok(verified(alloc, decode(alloc, image)?))
}

/// What `verify` answers. If it finds no memory, the code that it hands back is verified once more.
fn verified(alloc: Global, code: Code) -> Answer {
    match verify(alloc, code) {
        Ok(checked) => Ok(checked),
        Err((refusal, code)) => refused_or_verified(alloc, refusal, code),
    }
}

fn refused_or_verified(alloc: Global, refusal: Refusal, code: Code) -> Answer {
    if refusal.kind == RefusalKind::OutOfMemory {
        verify(alloc, code)
    } else {
        Err((refusal, code))
    }
}
