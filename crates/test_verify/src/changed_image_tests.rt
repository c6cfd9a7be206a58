//! Each byte of an image takes each value in turn.

use crate::answer::{Answer, COUNTER, answer_to};
use mc_image::{ImageFault, ImageKind};
use mc_sound::RefusalKind;
use std::alloc::{AllocError, Global};
use std::test::Fail;

// The number is how many of these images are those of sound code by `docs/FORMATS.md`; the image itself is among them once for each
// of its bytes.
#[test]
fn accepts_what_is_sound(rt: HostRuntime) -> Result<(), Fail> {
    assert_eq!(rt; count_accepted(rt.alloc(), COUNTER)?, 1_259);
    Ok(())
}

fn count_accepted(alloc: Global, image: &[u8]) -> Result<usize, ImageFault> {
    let mut count = 0usize;
    for offset in 0..image.len() {
        for value in 0..=u8::MAX {
            if is_accepted_with(alloc, image, offset, value)? {
                count = count.saturating_add(1);
            }
        }
    }
    Ok(count)
}

fn is_accepted_with(
    alloc: Global,
    image: &[u8],
    offset: usize,
    value: u8,
) -> Result<bool, ImageFault> {
    let mut bytes = Vec::from_slice(alloc, image)?;
    if let Some(byte) = bytes.get_mut(offset) {
        *byte = value;
    }
    is_accepted(alloc, &bytes)
}

// Whether these bytes are an image of sound code. Want of memory is an error.
fn is_accepted(alloc: Global, image: &[u8]) -> Result<bool, ImageFault> {
    match answer_to(alloc, image) {
        Ok(answer) => is_sound(&answer),
        Err(fault) if fault.kind == ImageKind::OutOfMemory => Err(fault),
        Err(_) => Ok(false),
    }
}

fn is_sound(answer: &Answer) -> Result<bool, ImageFault> {
    match answer {
        Ok(_) => Ok(true),
        Err((refusal, _)) if refusal.kind == RefusalKind::OutOfMemory => {
            Err(ImageFault::from(AllocError))
        }
        Err(_) => Ok(false),
    }
}
