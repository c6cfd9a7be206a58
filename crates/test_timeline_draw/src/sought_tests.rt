//! Pictures of a key that is sought in a text.

use mc_protocol::OutOfMemory;
use mc_timeline_draw::{Drawing, Form, draw_only};
use std::alloc::Global;
use std::test::Fail;

// Requests on a stand before, between and after those on b.
const TEXT: &[u8] =
    b"round 1 of 1\nhistory 3\n0 begin delete a\n1 begin set b 0 =1\n0 reply NOT_FOUND\n\
    1 reply STORED\n0 begin get a\n2 begin get b\n0 reply MISS\n2 reply HIT 0 =1\nend\n";

const OF_B: &[u8] = b"explained: an order of these requests gives these replies (key b)\n\n\
    #  lines     request     reply\n\
    1  4-6    1  set b 0 =1  STORED\n\
    2  8-10   2  get b       HIT 0 =1\n\n\
    The requests took effect in this order:\n\
    1  1  set b 0 =1\n\
    2  2  get b\n";

const WITH_CLAIM: &[u8] = b"history 3\n0 begin delete a\n0 reply NOT_FOUND\nexplain\n0 0\nend\n";

// Whether the key is drawn so; or isn't, if there is nothing to compare with.
fn is_drawn(
    alloc: Global,
    text: &[u8],
    key: &[u8],
    wanted: Option<&[u8]>,
) -> Result<bool, OutOfMemory> {
    let form = Form::Text { lines: true };
    match (draw_only(alloc, text, form, 1_000, None, key)?, wanted) {
        (Some(Drawing::Drawn(picture)), Some(wanted)) => Ok(picture.as_slice() == wanted),
        (None, None) => Ok(true),
        _ => Ok(false),
    }
}

fn are_drawn(alloc: Global) -> Result<bool, OutOfMemory> {
    Ok(
        is_drawn(alloc, TEXT, b"b", Some(OF_B))?
            && is_drawn(alloc, TEXT, b"c", None)?
            && is_drawn(alloc, WITH_CLAIM, b"a", None)?,
    )
}

#[test]
fn draws_only_keys_that_are_there(rt: HostRuntime) -> Result<(), Fail> {
    assert!(rt; are_drawn(rt.alloc())?);
    Ok(())
}
