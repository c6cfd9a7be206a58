//! Pictures of one key of a timeline.

use mc_protocol::{Bytes, OutOfMemory};
use mc_timeline_draw::{Form, draw_key};
use mc_timeline_text::parse_timeline;
use std::alloc::Global;
use std::test::Fail;

// What clients did to two keys: nothing explains the miss of b.
const TEXT: &[u8] =
    b"history 3\n0 begin delete a\n0 reply NOT_FOUND\n1 begin set b 0 =1\n2 begin get a\n1 reply STORED\n\
    3 begin get b\n2 reply MISS\n3 reply MISS\nend\n";

// A key, and the text of its picture.
static KEYS: [(&str, &str); 3] = [
    (
        "a",
        "explained: an order of these requests gives these replies (key a)\n\n\
         #     request   reply\n\
         1  0  delete a  NOT_FOUND\n\
         2  2  get a     MISS\n\
         \nThe requests took effect in this order:\n\
         1  0  delete a\n\
         2  2  get a\n",
    ),
    (
        "b",
        "unexplained: no order of these requests gives these replies (key b)\n\n\
         #     request     reply\n\
         1  1  set b 0 =1  STORED\n\
         2  3  get b       MISS\n\
         \x20                 ^ no order explains this\n\
         \nWhat came before is explained if the requests took effect in this order:\n\
         1  1  set b 0 =1\n",
    ),
    // A key without requests.
    (
        "c",
        "explained: an order of these requests gives these replies\n\n\n",
    ),
];

fn is_drawn(alloc: Global, key: &[u8], wanted: &[u8]) -> Result<bool, OutOfMemory> {
    let key = Bytes::new(Vec::from_slice(alloc, key)?);
    match parse_timeline(alloc, TEXT) {
        Ok((timeline, _)) => {
            let form = Form::Text { lines: false };
            let picture = draw_key(alloc, &timeline, &key, form, 1_000)?;
            Ok(picture.as_slice() == wanted)
        }
        Err(_) => Ok(false),
    }
}

fn are_drawn(alloc: Global) -> Result<bool, OutOfMemory> {
    'keys: for (key, wanted) in &KEYS {
        if !is_drawn(alloc, key.as_bytes(), wanted.as_bytes())? {
            return Ok(false);
        }
    }
    Ok(true)
}

#[test]
fn draws_each_key(rt: HostRuntime) -> Result<(), Fail> {
    assert!(rt; are_drawn(rt.alloc())?);
    Ok(())
}
