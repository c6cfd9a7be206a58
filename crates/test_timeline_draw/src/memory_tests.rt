//! Pictures of a timeline that is short, so that each of the few allocations can be refused.

use crate::memory::again;
use mc_protocol::{Bytes, OutOfMemory, fault_of_input};
use mc_timeline_draw::{Drawing, Form, TimelineKnown, draw, draw_key, draw_only, find_out};
use mc_timeline_text::parse_timeline;
use std::alloc::Global;
use std::test::Fail;

const TEXT: &[u8] = b"history 3\n7 begin delete a\n7 reply NOT_FOUND\n7 begin get a\nend\n";

static DRAWN: &[u8] = b"explained: an order of these requests gives these replies (key a)\n\n\
    #  lines     request   reply\n\
    1  2-3    7  delete a  NOT_FOUND\n\
    2  4      7  get a     no reply\n\n\
    The requests took effect in this order:\n\
    1  7  delete a\n";

// Whether what is drawn ends so.
fn ends_with(alloc: Global, form: Form, end: &[u8]) -> Result<bool, OutOfMemory> {
    match again(|| draw(alloc, TEXT, form, 100, None))? {
        Drawing::Drawn(picture) => Ok(picture.as_slice().ends_with(end)),
        Drawing::Refused(_) => Ok(false),
    }
}

// Whether what is drawn of the key ends so.
fn is_only_drawn(alloc: Global, end: &[u8]) -> Result<bool, OutOfMemory> {
    let form = Form::Text { lines: true };
    match again(|| draw_only(alloc, TEXT, form, 100, None, b"a"))? {
        Some(Drawing::Drawn(picture)) => Ok(picture.as_slice() == end),
        _ => Ok(false),
    }
}

fn is_explained(alloc: Global) -> Result<bool, OutOfMemory> {
    match parse_timeline(alloc, TEXT) {
        Ok((timeline, _)) => {
            let known = again(|| find_out(alloc, &timeline, None, 100))?;
            Ok(matches!(known, TimelineKnown::Explained(_)))
        }
        Err(fault) => {
            fault_of_input(fault.kind)?;
            Ok(false)
        }
    }
}

fn is_key_drawn(alloc: Global) -> Result<bool, OutOfMemory> {
    let key = Bytes::new(Vec::from_slice(alloc, b"a")?);
    match parse_timeline(alloc, TEXT) {
        Ok((timeline, _)) => {
            let picture = again(|| draw_key(alloc, &timeline, &key, Form::Svg, 100))?;
            Ok(picture.as_slice().ends_with(b"</svg>\n"))
        }
        Err(fault) => {
            fault_of_input(fault.kind)?;
            Ok(false)
        }
    }
}

#[test]
fn draws_a_short_text(rt: HostRuntime) -> Result<(), Fail> {
    assert!(rt; ends_with(rt.alloc(), Form::Text { lines: true }, DRAWN)?);
    Ok(())
}

#[test]
fn draws_a_short_svg(rt: HostRuntime) -> Result<(), Fail> {
    assert!(rt; ends_with(rt.alloc(), Form::Svg, b"</svg>\n")?);
    Ok(())
}

#[test]
fn draws_only_a_key_of_a_short_text(rt: HostRuntime) -> Result<(), Fail> {
    assert!(rt; is_only_drawn(rt.alloc(), DRAWN)?);
    Ok(())
}

#[test]
fn draws_a_key_of_a_short_timeline(rt: HostRuntime) -> Result<(), Fail> {
    assert!(rt; is_key_drawn(rt.alloc())?);
    Ok(())
}

#[test]
fn finds_out_what_is_known_of_a_short_timeline(rt: HostRuntime) -> Result<(), Fail> {
    assert!(rt; is_explained(rt.alloc())?);
    Ok(())
}
