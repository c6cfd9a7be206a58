//! What is known of a timeline.

use mc_protocol::OutOfMemory;
use mc_timeline_draw::{TimelineKnown, find_out};
use mc_timeline_text::parse_timeline;
use std::alloc::Global;
use std::test::Fail;

// A text, the limit of each search, what is known, and of which key.
type Row = (&'static str, u64, &'static str, &'static str);

static TEXTS: [Row; 6] = [
    (
        "history 3\n0 begin delete a\n0 reply NOT_FOUND\nexplain\n0 0\nend\n",
        0,
        "confirmed",
        "",
    ),
    // A claim that explains nothing is no matter.
    (
        "history 3\n0 begin delete a\n0 reply NOT_FOUND\nexplain\n1 0\nend\n",
        100,
        "explained",
        "",
    ),
    (
        "history 3\n0 begin delete a\n0 reply NOT_FOUND\nend\n",
        100,
        "explained",
        "",
    ),
    // A key that is unexplained goes before an undecided one.
    (
        "history 3\n0 begin delete a\n0 reply NOT_FOUND\n1 begin delete b\n1 reply NOT_FOUND\n1 begin get b\n1 reply HIT 0 =1\nend\n",
        100,
        "unexplained",
        "b",
    ),
    (
        "history 3\n0 begin delete a\n0 reply STORED\nend\n",
        100,
        "refused",
        "",
    ),
    (
        "history 3\n0 begin delete a\n0 reply NOT_FOUND\n1 begin delete b\n1 reply NOT_FOUND\nend\n",
        0,
        "undecided",
        "a",
    ),
];

fn are_known(alloc: Global) -> Result<bool, OutOfMemory> {
    'texts: for (text, limit, wanted, key) in &TEXTS {
        let found = match parse_timeline(alloc, text.as_bytes()) {
            Ok((timeline, given)) => is_known(
                &find_out(alloc, &timeline, given, *limit)?,
                wanted,
                key.as_bytes(),
            ),
            Err(_) => *wanted == "refused",
        };
        if !found {
            return Ok(false);
        }
    }
    Ok(true)
}

fn is_known(known: &TimelineKnown, wanted: &str, key: &[u8]) -> bool {
    match known {
        TimelineKnown::Confirmed(_) => wanted == "confirmed",
        TimelineKnown::Explained(_) => wanted == "explained",
        TimelineKnown::Unexplained(named, _) => wanted == "unexplained" && named.as_slice() == key,
        TimelineKnown::Undecided(named) => wanted == "undecided" && named.as_slice() == key,
    }
}

#[test]
fn finds_out_what_is_known(rt: HostRuntime) -> Result<(), Fail> {
    assert!(rt; are_known(rt.alloc())?);
    Ok(())
}
