//! `decode`: the code of images, its requests, and how many changed images are read.

use crate::images::{COUNTER_IMAGE, EVERYTHING_IMAGE, LAST_FLAG_IMAGE, LONGEST_BODY, image_after};
use crate::memory::again;
use mc_code::{Call, Code};
use mc_image::{ImageFault, ImageKind, decode};
use mc_protocol::{Request, Verb};
use std::alloc::Global;
use std::test::Fail;

#[test]
fn reads_two_images(rt: HostRuntime) -> Result<(), Fail> {
    assert!(rt; is_written_again(rt.alloc(), COUNTER_IMAGE)?);
    assert!(rt; is_written_again(rt.alloc(), EVERYTHING_IMAGE)?);
    Ok(())
}

fn is_written_again(alloc: Global, image: &[u8]) -> Result<bool, ImageFault> {
    let code = again(|| decode(alloc, image))?;
    Ok(image_after(alloc, b"", &code)?.as_slice() == image)
}

// Each byte of an image takes each value in turn. The number is how many of these images `docs/FORMATS.md` allows; the image
// itself is among them once for each of its bytes.
#[test]
fn reads_changed_images(rt: HostRuntime) -> Result<(), Fail> {
    assert_eq!(rt; count_read(rt.alloc(), COUNTER_IMAGE)?, 17_613);
    Ok(())
}

#[test]
fn reads_changed_images_of_version_2(rt: HostRuntime) -> Result<(), Fail> {
    assert_eq!(rt; count_read(rt.alloc(), LAST_FLAG_IMAGE)?, 33_596);
    Ok(())
}

fn count_read(alloc: Global, image: &[u8]) -> Result<usize, ImageFault> {
    let mut count = 0usize;
    for offset in 0..image.len() {
        for value in 0..=u8::MAX {
            if is_read_with(alloc, image, offset, value)? {
                count = count.saturating_add(1);
            }
        }
    }
    Ok(count)
}

fn is_read_with(alloc: Global, image: &[u8], offset: usize, value: u8) -> Result<bool, ImageFault> {
    let mut bytes = Vec::from_slice(alloc, image)?;
    if let Some(byte) = bytes.get_mut(offset) {
        *byte = value;
    }
    Ok(fault_in(alloc, &bytes)?.is_none())
}

// Why the bytes are no image, if they aren't. Want of memory is an error.
fn fault_in(alloc: Global, bytes: &[u8]) -> Result<Option<ImageFault>, ImageFault> {
    match decode(alloc, bytes) {
        Ok(_) => Ok(None),
        Err(fault) if fault.kind == ImageKind::OutOfMemory => Err(fault),
        Err(fault) => Ok(Some(fault)),
    }
}

// Bytes that the program reads as a script.
static OTHERS: [(&[u8], ImageKind); 5] = [
    (b"", ImageKind::Short),
    (b"xyz", ImageKind::Short),
    (b"mCR1", ImageKind::Magic),
    (b"McR1", ImageKind::Magic),
    (b"MC\x001", ImageKind::Magic),
];

#[test]
fn refuses_what_begins_otherwise(rt: HostRuntime) -> Result<(), Fail> {
    for (bytes, kind) in &OTHERS {
        let fault = ImageFault {
            kind: *kind,
            offset: 0,
        };
        assert_eq!(rt; fault_in(rt.alloc(), bytes)?, Some(fault));
    }
    Ok(())
}

// A call of a template, and the request that it makes.
struct Made {
    call: Call,
    verb: Verb,
    key: &'static [u8],
    flags: u32,
    body: &'static [u8],
    number: u64,
}

static MADE: [Made; 3] = [
    // no number
    Made {
        call: Call {
            template: 0,
            number: 0,
        },
        verb: Verb::Add,
        key: b"b-1",
        flags: 4_294_967_295,
        body: LONGEST_BODY,
        number: 0,
    },
    // the template's own number
    Made {
        call: Call {
            template: 2,
            number: 18_446_744_073_709_551_615,
        },
        verb: Verb::Incr,
        key: b"a",
        flags: 0,
        body: b"",
        number: 18_446_744_073_709_551_615,
    },
    // the number of a variable
    Made {
        call: Call {
            template: 1,
            number: 17,
        },
        verb: Verb::Cas,
        key: b"a",
        flags: 0,
        body: b"x",
        number: 17,
    },
];

#[test]
fn makes_requests(rt: HostRuntime) -> Result<(), Fail> {
    for made in &MADE {
        assert!(rt;
            is_made(rt.alloc(), made)?,
            "template {}",
            made.call.template
        );
    }
    Ok(())
}

fn is_made(alloc: Global, made: &Made) -> Result<bool, Fail> {
    let code = again(|| decode(alloc, EVERYTHING_IMAGE))?;
    makes(alloc, &code, made)
}

fn makes(alloc: Global, code: &Code, made: &Made) -> Result<bool, Fail> {
    if usize::from(made.call.template) >= code.templates().len() {
        return Ok(false);
    }
    let request = again(|| code.request(alloc, made.call))?;
    Ok(is_request(&request, made))
}

fn is_request(request: &Request, made: &Made) -> bool {
    request.verb == made.verb
        && request.key.as_slice() == made.key
        && request.flags == made.flags
        && request.body.as_slice() == made.body
        && request.number == made.number
}
