//! What is known of a history.

use mc_draw::{Known, find_out};
use mc_explain::parse_history;
use mc_protocol::OutOfMemory;
use std::alloc::Global;
use std::test::Fail;

// A text, the limit of each search, and what is known.
type Row = (&'static str, u64, &'static str);

static TEXTS: [Row; 5] = [
    (
        "history 1\nP delete a -> NOT_FOUND\nA get a -> MISS\nexplain\nP 0\nA 0\nend\n",
        0,
        "confirmed",
    ),
    (
        "history 1\nP delete a -> NOT_FOUND\nA get a -> MISS\nexplain\nP 0\nend\n",
        100,
        "explained",
    ),
    (
        "history 1\nP delete a -> NOT_FOUND\nA get a -> MISS\nend\n",
        100,
        "explained",
    ),
    (
        "history 1\nP delete a -> NOT_FOUND\nA get a -> HIT 0 =1\nend\n",
        100,
        "unexplained",
    ),
    (
        "history 1\nP delete a -> NOT_FOUND\nA get a -> MISS\nend\n",
        0,
        "undecided",
    ),
];

fn are_known(alloc: Global) -> Result<bool, OutOfMemory> {
    'texts: for (text, limit, wanted) in &TEXTS {
        match parse_history(alloc, text.as_bytes()) {
            Ok((history, given)) => {
                let known = find_out(alloc, &history, given, *limit)?;
                if name_of(&known) != *wanted {
                    return Ok(false);
                }
            }
            Err(_) => return Ok(false),
        }
    }
    Ok(true)
}

fn name_of(known: &Known) -> &'static str {
    match known {
        Known::Confirmed(_) => "confirmed",
        Known::Explained(_) => "explained",
        Known::Unexplained(_) => "unexplained",
        Known::Undecided => "undecided",
    }
}

#[test]
fn finds_out_what_is_known(rt: HostRuntime) -> Result<(), Fail> {
    assert!(rt; are_known(rt.alloc())?);
    Ok(())
}
