//! Verdicts on timelines with any number of keys.
use crate::notes::{Line, push_all};
use crate::rows::{CLEARED, ROWS};
use mc_linearize::{TimelineExplanation, TimelineVerdict, judge_timeline};
use mc_timeline::TimelineBuilder;
use mc_words::WordsFault;
use std::alloc::Global;
use std::test::Fail;

/// The lines, the limit of turns for each key, and the verdict with its key.
type Row = (&'static [Line], u64, &'static str, &'static str);

static KEYS: &[Row] = &[
    (&[], 0, "explained", ""),
    // each key is judged, not the first alone
    (
        &[
            (0, true, "delete a"),
            (0, false, "NOT_FOUND"),
            (0, true, "delete b"),
            (0, false, "NOT_FOUND"),
            (1, true, "get a"),
            (1, false, "MISS"),
            (1, true, "get b"),
            (1, false, "HIT 0 =1"),
        ],
        1_000,
        "unexplained",
        "b",
    ),
    // a key may begin with a set
    (
        &[
            (0, true, "delete a"),
            (0, false, "NOT_FOUND"),
            (1, true, "set b 0 =1"),
            (1, false, "STORED"),
            (2, true, "get b"),
            (2, false, "HIT 0 =1"),
        ],
        1_000,
        "explained",
        "",
    ),
    // of two unexplained keys the one that appears first is named
    (
        &[
            (0, true, "set b 0 =1"),
            (1, true, "set a 0 =1"),
            (1, false, "STORED"),
            (0, false, "STORED"),
            (1, true, "get a"),
            (1, false, "MISS"),
            (0, true, "get b"),
            (0, false, "MISS"),
        ],
        1_000,
        "unexplained",
        "b",
    ),
    // and of two undecided ones
    (
        &[
            (0, true, "set b 0 =1"),
            (1, true, "set a 0 =1"),
            (1, false, "STORED"),
            (0, false, "STORED"),
        ],
        0,
        "undecided",
        "b",
    ),
    // an undecided key before an unexplained one is passed over
    (
        &[
            (0, true, "set a 0 =1"),
            (0, false, "STORED"),
            (0, true, "get a"),
            (0, false, "HIT 0 =1"),
            (0, true, "get a"),
            (0, false, "HIT 0 =1"),
            (0, true, "get a"),
            (0, false, "HIT 0 =1"),
            (0, true, "get a"),
            (0, false, "HIT 0 =1"),
            (0, true, "delete b"),
            (0, false, "DELETED"),
            (0, true, "get b"),
            (0, false, "HIT 0 ="),
        ],
        4,
        "unexplained",
        "b",
    ),
    // two keys may be shown with one number, and requests may be unanswered
    (
        &[
            (0, true, "set a 0 =1"),
            (1, true, "set b 0 =1"),
            (0, false, "STORED"),
            (0, true, "gets b"),
            (1, false, "STORED"),
            (1, true, "gets a"),
            (0, false, "HIT 0 =1 5"),
            (1, false, "HIT 0 =1 5"),
            (0, true, "cas b 0 =2 5"),
            (2, true, "incr a 1"),
            (3, true, "get b"),
            (3, false, "HIT 0 =2"),
            (3, true, "get a"),
            (3, false, "HIT 0 =2"),
        ],
        1_000,
        "explained",
        "",
    ),
];

/// The lines, the key at the start with its number, and for each move of the explanation its client and its number.
type Joined = (
    &'static [Line],
    &'static [(&'static [u8], u64)],
    &'static [(u8, u64)],
);

static JOINED: &[Joined] = &[
    // numbers are given key by key
    (
        &[
            (0, true, "delete b"),
            (0, false, "DELETED"),
            (1, true, "set a 0 =1"),
            (2, true, "set b 0 =2"),
            (1, false, "STORED"),
            (2, false, "STORED"),
            (3, true, "gets a"),
            (3, false, "HIT 0 =1 7"),
            (4, true, "get b"),
            (5, true, "get a"),
            (5, false, "HIT 0 =1"),
            (4, false, "HIT 0 =2"),
        ],
        &[(b"b", 1)],
        &[(0, 0), (1, 7), (2, 2), (3, 0), (4, 0), (5, 0)],
    ),
    // of the requests that come next on each key the one that began earliest goes first
    (
        &[
            (0, true, "set a 0 =5"),
            (0, false, "STORED"),
            (0, true, "set b 0 =1"),
            (0, false, "STORED"),
            (1, true, "incr a 1"),
            (2, true, "get b"),
            (3, true, "incr a 1"),
            (1, false, "NUMBER 7"),
            (3, false, "NUMBER 6"),
            (2, false, "HIT 0 =1"),
        ],
        &[],
        &[(0, 1), (0, 1), (2, 0), (3, 2), (1, 3)],
    ),
    // each key that held something at the start stands there, and an unanswered request may take effect
    (
        &[
            (0, true, "delete c"),
            (1, true, "delete a"),
            (0, false, "DELETED"),
            (1, false, "DELETED"),
            (2, true, "set b 0 =1"),
            (2, false, "STORED"),
            (3, true, "set c 0 =1"),
            (0, true, "get a"),
            (1, true, "get c"),
            (0, false, "MISS"),
            (1, false, "HIT 0 =1"),
        ],
        &[(b"c", 1), (b"a", 1)],
        &[(0, 0), (1, 0), (2, 1), (3, 2), (0, 0), (1, 0)],
    ),
];

fn judged(
    alloc: Global,
    opening: &[Line],
    lines: &[Line],
    limit: u64,
) -> Result<(TimelineVerdict, u64), WordsFault> {
    let mut builder = TimelineBuilder::new(alloc);
    push_all(alloc, &mut builder, opening)?;
    push_all(alloc, &mut builder, lines)?;
    Ok(judge_timeline(alloc, &builder.finish(), limit)?)
}

fn is_verdict(verdict: &TimelineVerdict, word: &str, key: &str) -> bool {
    match verdict {
        TimelineVerdict::Explained(_) => word == "explained",
        TimelineVerdict::Unexplained(named) => {
            word == "unexplained" && named.as_slice() == key.as_bytes()
        }
        TimelineVerdict::Undecided(named) => {
            word == "undecided" && named.as_slice() == key.as_bytes()
        }
    }
}

fn judges_one_key(alloc: Global) -> Result<bool, WordsFault> {
    for (lines, explained) in ROWS {
        let word = if *explained {
            "explained"
        } else {
            "unexplained"
        };
        let (verdict, _turns) = judged(alloc, CLEARED, lines, 1_000)?;
        if !is_verdict(&verdict, word, "a") {
            return Ok(false);
        }
    }
    Ok(true)
}

fn judges_each_key(alloc: Global) -> Result<bool, WordsFault> {
    for (lines, limit, word, key) in KEYS {
        let (verdict, turns) = judged(alloc, &[], lines, *limit)?;
        let is_used_up = turns == *limit;
        if !is_verdict(&verdict, word, key) || turns > *limit {
            return Ok(false);
        }
        if *word == "undecided" && !is_used_up {
            return Ok(false);
        }
    }
    Ok(true)
}

fn has_start(explanation: &TimelineExplanation, start: &[(&[u8], u64)]) -> bool {
    explanation.start.as_slice().len() == start.len()
        && explanation.start.iter().zip(start.iter()).all(|(held, (key, number))| held.0.as_slice()
            == *key
            && held.1 == *number)
}

fn has_moves(explanation: &TimelineExplanation, moves: &[(u8, u64)]) -> bool {
    explanation.moves.as_slice().len() == moves.len()
        && explanation.moves.iter().zip(moves.iter()).all(|(by, (client, number))| by.client
            == *client
            && by.number == *number)
}

fn joins_as_expected(alloc: Global) -> Result<bool, WordsFault> {
    for (lines, start, moves) in JOINED {
        let TimelineVerdict::Explained(explanation) = judged(alloc, &[], lines, 1_000)?.0 else {
            return Ok(false);
        };
        if !has_start(&explanation, start) || !has_moves(&explanation, moves) {
            return Ok(false);
        }
    }
    Ok(true)
}

#[test]
fn verdicts_of_timelines_on_one_key(rt: HostRuntime) -> Result<(), Fail> {
    assert!(rt; judges_one_key(rt.alloc())?);
    Ok(())
}

#[test]
fn verdicts_of_several_keys(rt: HostRuntime) -> Result<(), Fail> {
    assert!(rt; judges_each_key(rt.alloc())?);
    Ok(())
}

#[test]
fn explanations_are_joined(rt: HostRuntime) -> Result<(), Fail> {
    assert!(rt; joins_as_expected(rt.alloc())?);
    Ok(())
}
