//! What worlds come to, and what their histories are judged to be. `cases/drive/endings.cases` has more of it.

ghost use Rattle.mc_core.specs.Held.{IsHeldBy};

use crate::given::Given::*;
use crate::given::{Step, checked, driven, endings};
use crate::memory::again;
use crate::scripts::{COUNTER, LONE_BRANCH};
use mc_core::{Ending, World};
use mc_explain::{Verdict, judge, print_explanation};
use mc_protocol::Actor::*;
use mc_protocol::{Fault, OutOfMemory};
use mc_sound::Checked;
use std::alloc::Global;
use std::test::Fail;

/// A script, steps, how many of them are refused, how P, A and B stand then, and the lines of the explanation of the history.
type Row = (
    &'static [u8],
    &'static [Step],
    u64,
    [Ending; 3],
    &'static str,
);

static ROWS: [Row; 2] = [
    // an event of A before P is done, one after A failed, and a reply that no increment has
    (
        COUNTER,
        &[
            (A, Begin),
            (P, Begin),
            (P, NotFound),
            (P, Begin),
            (P, Stored),
            (A, Begin),
            (A, Fail(Fault::Ended)),
            (A, Begin),
            (B, Begin),
            (B, Stored),
            (B, Number(6)),
        ],
        3,
        [Ending::Done, Ending::Failed(Fault::Ended), Ending::Done],
        "P 0\nP 1\nB 2\n",
    ),
    // a branch without a call is done when P is
    (
        LONE_BRANCH,
        &[
            (P, Begin),
            (P, NotFound),
            (P, Begin),
            (P, Stored),
            (B, Begin),
        ],
        1,
        [Ending::Done, Ending::Running, Ending::Done],
        "P 0\nP 1\n",
    ),
];

/// Whether the row says what came of its steps: how many were refused, how the sections stand, and what the history is judged to be.
fn is_met(alloc: Global, row: &Row) -> Result<bool, Fail> {
    let code = checked(alloc, row.0)?;
    Ok(is_met_in(alloc, &code, row)?)
}

fn is_met_in(alloc: Global, code: &Checked, row: &Row) -> Result<bool, OutOfMemory> {
    let (world, skipped) = driven(alloc, code, row.1)?;
    if skipped != row.2 || endings(&world) != row.3 {
        return Ok(false);
    }
    is_judged(alloc, code, &world, row.4)
}

/// Whether these are the lines of the explanation of the world's history, or its verdict.
fn is_judged(alloc: Global, code: &Checked, world: &World, lines: &str) -> Result<bool, OutOfMemory>
    requires held { IsHeldBy code.now.code world.now }
{
    let history = again(|| world.history(alloc, code))?;
    let (verdict, _) = judge(alloc, &history, 1_000_000)?;
    is_printed(alloc, &verdict, lines)
}

fn is_printed(alloc: Global, verdict: &Verdict, lines: &str) -> Result<bool, OutOfMemory> {
    let mut out = Vec::new(alloc);
    print_verdict(verdict, &mut out)?;
    Ok(out.as_slice() == lines.as_bytes())
}

fn print_verdict(verdict: &Verdict, out: &mut Vec<u8>) -> Result<(), OutOfMemory> {
    match verdict {
        Verdict::Explained(explanation) => print_explanation(explanation, out),
        Verdict::Unexplained => out.extend_from_slice(b"unexplained\n"),
        Verdict::Undecided => out.extend_from_slice(b"undecided\n"),
    }
}

#[test]
fn comes_to(rt: HostRuntime) -> Result<(), Fail> {
    for (index, row) in ROWS.iter().enumerate() {
        assert!(rt; is_met(rt.alloc(), row)?, "row {index}");
    }
    Ok(())
}
