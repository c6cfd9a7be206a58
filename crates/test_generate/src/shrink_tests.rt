//! Scripts as they are shrunk.

use crate::testers::{Answers, Needs};
use mc_generate::{Shrinker, Tester, shrink};
use mc_script::Script;
use mc_script_text::{parse, print};
use std::alloc::{AllocError, Global};
use std::test::Fail;

const ROUNDS: u32 = 200;

// The first lines of each script, whose budgets have room.
const HEAD: &str =
    "script 1\nkeys a\nvars v\nbudget P 24 8192\nbudget A 24 8192\nbudget B 24 8192\n";

// Two increments of one counter, and what is left of them.
const COUNTER: &str = "P\nset a 0 =5\nA\nincr a 1\nB\nincr a 1\nend\n";

const COUNTER_LESS_B: &str = "P\nset a 0 =5\nA\nincr a 1\nB\nend\n";

const COUNTER_LESS_A: &str = "P\nset a 0 =5\nA\nB\nincr a 1\nend\n";

const EMPTY: &str = "P\nA\nB\nend\n";

// Its cas needs its gets. Neither needs what P sends.
const BOUND: &str = "P\nset a 0 =1\nA\ngets a miss:gone >v\ncas a 0 =2 $v\ngone:\nB\nend\n";

const BOUND_LESS_P: &str = "P\nA\ngets a miss:gone >v\ncas a 0 =2 $v\ngone:\nB\nend\n";

const BOUND_LESS_A: &str = "P\nset a 0 =1\nA\ngone:\nB\nend\n";

// Each section sends more than it needs to.
const LONG: &str = "P\nset a 0 =5\nget a\nA\nget a\nincr a 1\nget a\nB\nincr a 1\nget a\nend\n";

const LONG_SHRUNK: &str = "P\nset a 0 =5\nA\nget a\nincr a 1\nB\nincr a 1\nend\n";

// The script with these sections.
fn script_of(alloc: Global, sections: &str) -> Result<Script, Fail> {
    let text = format!(in alloc; "{HEAD}{sections}")?;
    Ok(parse(alloc, text.as_bytes())?)
}

// What is printed of a script.
fn printed(alloc: Global, script: &Script) -> Result<Vec<u8>, Fail> {
    let mut text = Vec::new(alloc);
    print(alloc, script, &mut text)?;
    Ok(text)
}

// Whether this is printed of the script with these sections, or nothing is where there is none.
fn is_left(alloc: Global, found: &Option<Vec<u8>>, wanted: Option<&str>) -> Result<bool, Fail> {
    match (found, wanted) {
        (Some(text), Some(sections)) => is_printed(alloc, text, sections),
        (None, None) => Ok(true),
        _ => Ok(false),
    }
}

fn is_printed(alloc: Global, text: &[u8], sections: &str) -> Result<bool, Fail> {
    let wanted = format!(in alloc; "{HEAD}{sections}")?;
    Ok(text == wanted.as_bytes())
}

// What is printed of the shrunk script; nothing, where memory ran out.
fn shrunk<T: Tester>(
    alloc: Global,
    sections: &str,
    tester: &mut T,
    rounds: u32,
) -> Result<Option<Vec<u8>>, Fail> {
    let script = script_of(alloc, sections)?;
    match shrink(alloc, script, tester, rounds) {
        Ok(less) => Ok(Some(printed(alloc, &less)?)),
        Err(AllocError) => Ok(None),
    }
}

// A script, the rounds, what the tester answers, how often it is asked, and what is left.
type Row = (
    &'static str,
    u32,
    &'static [bool],
    usize,
    Option<&'static str>,
);

static ROWS: [Row; 11] = [
    (COUNTER, ROUNDS, &[true, true, true], 3, Some(EMPTY)),
    (COUNTER, 1, &[true], 1, Some(COUNTER_LESS_B)),
    (COUNTER, 0, &[], 0, Some(COUNTER)),
    (COUNTER, ROUNDS, &[false, false, false], 3, Some(COUNTER)),
    // A goes after B.
    (COUNTER, 2, &[false, true], 2, Some(COUNTER_LESS_A)),
    // The tester finds no memory at its first, its second and its third call.
    (COUNTER, ROUNDS, &[], 1, None),
    (COUNTER, ROUNDS, &[true], 2, None),
    (COUNTER, ROUNDS, &[false, true], 3, None),
    // Without its gets alone the script isn't accepted: that costs no round.
    (BOUND, 2, &[false, true], 2, Some(BOUND_LESS_P)),
    (BOUND, ROUNDS, &[false, false], 2, Some(BOUND)),
    (BOUND, 2, &[true, true], 2, Some(BOUND_LESS_A)),
];

// Whether the row is met. To shrink a script consumes it and asks a tester, so both are made anew where there was no memory to do so.
fn holds(alloc: Global, row: &Row) -> Result<bool, Fail> {
    match is_met(alloc, row)? {
        Some(is_met) => Ok(is_met),
        None => Ok(is_met(alloc, row)?.ok_or(AllocError)?),
    }
}

// The same, once; nothing where there was no memory though the tester found some each time.
fn is_met(alloc: Global, row: &Row) -> Result<Option<bool>, Fail> {
    let (sections, rounds, answers, asked, wanted) = *row;
    let mut tester = Answers { answers, asked: 0 };
    let left = shrunk(alloc, sections, &mut tester, rounds)?;
    if left.is_none() && tester.asked <= answers.len() {
        return Ok(None);
    }
    Ok(Some(is_left(alloc, &left, wanted)? && tester.asked == asked))
}

// One round: few enough allocations that each of them can be refused.
#[test]
fn drops_the_last_step_in_one_round(rt: HostRuntime) -> Result<(), Fail> {
    assert!(rt; holds(rt.alloc(), &ROWS[1])?);
    Ok(())
}

#[test]
fn drops_steps_from_the_last_to_the_first(rt: HostRuntime) -> Result<(), Fail> {
    for (index, row) in ROWS.iter().enumerate() {
        assert!(rt; holds(rt.alloc(), row)?, "row {index}");
    }
    Ok(())
}

#[test]
fn asks_of_the_smaller_code(rt: HostRuntime) -> Result<(), Fail> {
    let mut tester = Needs {
        instructions: [3, 3, 2],
    };
    let left = shrunk(rt.alloc(), LONG, &mut tester, ROUNDS)?;
    assert!(rt; is_left(rt.alloc(), &left, Some(LONG_SHRUNK))?);
    Ok(())
}

// What is left of the counter where the smaller scripts of these rounds are unexplained, or not.
fn left_after(alloc: Global, rounds: u32, answers: &[bool]) -> Result<Option<Vec<u8>>, Fail> {
    let mut shrinker = Shrinker::new(script_of(alloc, COUNTER)?, rounds);
    for answer in answers {
        if shrinker.next(alloc)?.is_none() {
            return Ok(None);
        }
        shrinker.answer(*answer);
    }
    Ok(Some(printed(alloc, &shrinker.into_script())?))
}

// Whether this is left. Who runs the smaller scripts has the same ones as a tester.
fn gives(alloc: Global, rounds: u32, answers: &[bool], wanted: Option<&str>) -> Result<bool, Fail> {
    let left = left_after(alloc, rounds, answers)?;
    is_left(alloc, &left, wanted)
}

#[test]
fn shrinker_gives_one_script_after_the_other(rt: HostRuntime) -> Result<(), Fail> {
    for (rounds, answers, wanted) in [
        (ROUNDS, [true, true, true].as_slice(), Some(EMPTY)),
        (ROUNDS, &[true, false, false], Some(COUNTER_LESS_B)),
        (ROUNDS, &[false, true], Some(COUNTER_LESS_A)),
        (ROUNDS, &[true, true, true, true], None),
        (1, &[true, true], None),
        (0, &[], Some(COUNTER)),
    ] {
        assert!(rt; gives(rt.alloc(), rounds, answers, wanted)?);
    }
    Ok(())
}

// One round: few enough allocations that each of them can be refused.
#[test]
fn shrinker_gives_the_last_step_first(rt: HostRuntime) -> Result<(), Fail> {
    assert!(rt; gives(rt.alloc(), 1, &[true], Some(COUNTER_LESS_B))?);
    Ok(())
}
