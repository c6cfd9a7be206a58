//! Pictures of a history that is short, so that each of the few allocations can be refused.

use crate::memory::again;
use mc_draw::{Drawing, Form, Known, draw, find_out};
use mc_explain::parse_history;
use mc_protocol::{OutOfMemory, fault_of_input};
use std::alloc::Global;
use std::test::Fail;

const TEXT: &[u8] = b"history 2\nP begin delete a\nP reply NOT_FOUND\nP begin get a\nend\n";

static DRAWN: &[u8] = b"explained: an order of these requests gives these replies\n\n\
    #  lines     request   reply\n\
    1  2-3    P  delete a  NOT_FOUND\n\
    2  4      P  get a     no reply\n\n\
    The requests took effect in this order:\n\
    1  P  delete a\n";

// Whether what is drawn ends so.
fn ends_with(alloc: Global, form: Form, end: &[u8]) -> Result<bool, OutOfMemory> {
    match again(|| draw(alloc, TEXT, form, 100, None))? {
        Drawing::Drawn(picture) => Ok(picture.as_slice().ends_with(end)),
        Drawing::Refused(_) => Ok(false),
    }
}

fn is_explained(alloc: Global) -> Result<bool, OutOfMemory> {
    match parse_history(alloc, TEXT) {
        Ok((history, _)) => {
            let known = again(|| find_out(alloc, &history, None, 100))?;
            Ok(matches!(known, Known::Explained(_)))
        }
        Err(fault) => {
            fault_of_input(fault.kind)?;
            Ok(false)
        }
    }
}

#[test]
fn draws_a_short_text(rt: HostRuntime) -> Result<(), Fail> {
    assert!(rt; ends_with(rt.alloc(), Form::Text { lines: true }, DRAWN)?);
    Ok(())
}

#[test]
fn draws_a_short_svg(rt: HostRuntime) -> Result<(), Fail> {
    assert!(rt; ends_with(rt.alloc(), Form::Svg, b"</svg>\n")?);
    Ok(())
}

#[test]
fn finds_out_what_is_known_of_a_short_history(rt: HostRuntime) -> Result<(), Fail> {
    assert!(rt; is_explained(rt.alloc())?);
    Ok(())
}
