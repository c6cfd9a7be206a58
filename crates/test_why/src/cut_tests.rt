//! Histories cut at a place.

use crate::memory::again;
use mc_explain::{parse_history, print_history};
use mc_protocol::OutOfMemory;
use mc_why::cut;
use std::alloc::Global;
use std::test::Fail;

// The text of a history, how much stands before the place, and the text of that.
type Row = (&'static str, usize, &'static str);

const NOTED: &str =
    "history 2\nP begin delete a\nP reply DELETED\nA begin set a 3 =%00x\nB begin gets a\nB reply HIT 3 =%00x 9\nend\n";

const UNNOTED: &str =
    "history 1\nP delete a -> NOT_FOUND\nB get a -> MISS\nA incr a 2 -> ?\nB get a -> ?\nend\n";

static ROWS: [Row; 9] = [
    (NOTED, 0, "history 2\nend\n"),
    (NOTED, 1, "history 2\nP begin delete a\nend\n"),
    (
        NOTED,
        4,
        "history 2\nP begin delete a\nP reply DELETED\nA begin set a 3 =%00x\nB begin gets a\nend\n",
    ),
    (NOTED, 5, NOTED),
    (NOTED, 6, NOTED),
    (UNNOTED, 0, "history 1\nend\n"),
    // P's stand before A's, and A's before B's.
    (
        UNNOTED,
        2,
        "history 1\nP delete a -> NOT_FOUND\nA incr a 2 -> ?\nend\n",
    ),
    (
        UNNOTED,
        3,
        "history 1\nP delete a -> NOT_FOUND\nA incr a 2 -> ?\nB get a -> MISS\nend\n",
    ),
    (
        UNNOTED,
        9,
        "history 1\nP delete a -> NOT_FOUND\nA incr a 2 -> ?\nB get a -> MISS\nB get a -> ?\nend\n",
    ),
];

fn text_of_cut(alloc: Global, text: &str, count: usize) -> Result<Vec<u8>, Fail> {
    let (history, _) = parse_history(alloc, text.as_bytes())?;
    let mut lines = Vec::new(alloc);
    let front = again(|| cut(alloc, &history, count))?;
    print_history(&front, &mut lines)?;
    Ok(lines)
}

#[test]
fn cuts_each_history(rt: HostRuntime) -> Result<(), Fail> {
    for (text, count, wanted) in &ROWS {
        let lines = text_of_cut(rt.alloc(), text, *count)?;
        assert!(rt; lines.as_slice() == wanted.as_bytes(), "{text} {count}");
    }
    Ok(())
}
