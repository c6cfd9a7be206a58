//! Which runs show the fault of a refusal: some that do, and others that lack a call, have one too many, end elsewhere, or have a
//! reply that can't be.
ghost use Rattle.std.specs.Prelude.{◌≡◌, ◌<◌, true};
ghost use Rattle.mc_verify.specs.Refusals.{IsRefusalOf};
ghost use Rattle.mc_sound.specs.LeastFaults.{HasNoneFrom, kind_number};

use crate::answer::{Fault, fault_of};
use mc_assembler::assemble;
use mc_code::Code;
use mc_counterexample::shows;
use mc_protocol::Actor::{self, *};
use mc_protocol::Class::{self, *};
use mc_protocol::FaultKind;
use mc_script_text::parse;
use mc_sound::RefusalKind::*;
use mc_verify::{Refusal, verify};
use std::alloc::Global;
use std::test::Fail;

/// Replies, each with its section, and whether they show the fault.
type Row = (&'static [(Actor, Class)], bool);

/// A script, the fault for which it is refused, and rows of replies.
type Script = (&'static [u8], Fault, &'static [Row]);

static SCRIPTS: &[Script] = &[
    // A's request sets the flag that B's needs
    (
        b"script 1\nkeys a\nflags f\nbudget P 24 8192\nbudget A 24 8192\nbudget B 24 8192\nP\nA\n\
          set a 0 =1 +f\nB\nget a ?f\nend\n",
        (FlagMayBeClear, B, 0),
        &[
            (&[(P, Deleted)], true),
            (&[(P, NotFound)], true),
            // P isn't done
            (&[], false),
            // the flag is set
            (&[(P, NotFound), (A, Stored)], false),
            // B has made its call
            (&[(P, NotFound), (B, Miss)], false),
            // P has no second call, and no such reply
            (&[(P, NotFound), (P, NotFound)], false),
            (&[(P, Stored)], false),
            // a branch before P
            (&[(A, Stored), (P, NotFound)], false),
        ],
    ),
    // B's call sets what A's first call clears and its second forbids
    (
        b"script 1\nkeys a\nflags f\nbudget P 24 8192\nbudget A 24 8192\nbudget B 24 8192\nP\nA\nget a -f\nget a !f\nB\n\
          get a +f\nend\n",
        (FlagMayBeSet, A, 1),
        &[
            (&[(P, NotFound), (A, Miss), (B, Hit)], true),
            (&[(P, NotFound), (B, Hit), (A, Miss)], false),
            (&[(P, NotFound), (A, Miss)], false),
            (&[(P, NotFound), (B, Hit)], false),
        ],
    ),
    (
        b"script 1\nkeys a\nbudget P 1 26\nbudget A 1 10\nbudget B 1 10\nP\nset a 0 =5\nA\nincr a 1\nB\nincr a 1\nend\n",
        (TooManyRequests, P, 1),
        &[
            (&[(P, NotFound)], true),
            (&[], false),
            (&[(P, NotFound), (P, Stored)], false),
            (&[(A, Number)], false),
        ],
    ),
    (
        b"script 1\nkeys a b\nvars v\nbudget P 24 8192\nbudget A 2 44\nbudget B 24 8192\nP\nA\ngets a miss:l >v\n\
          cas a 0 =2 $v\nl:\nB\nget a\nend\n",
        (TooManyBytes, A, 2),
        &[
            (&[(P, NotFound), (P, NotFound), (A, Hit)], true),
            // the other branch has no part in it
            (&[(P, NotFound), (P, NotFound), (B, Miss), (A, Hit)], false),
            (&[(P, NotFound), (A, Hit)], false),
            // past the request
            (&[(P, NotFound), (P, NotFound), (A, Miss)], false),
        ],
    ),
    (
        b"script 1\nkeys a b\nvars v\nbudget P 24 8192\nbudget A 24 8192\nbudget B 24 8192\nP\nA\n\
          incr a 1 notfound:l notnumber:l >v\ncas a 0 =2 $v\nl:\nB\nend\n",
        (WrongKind, A, 2),
        &[
            (&[(P, NotFound), (P, NotFound), (A, Number)], true),
            (&[(P, NotFound), (P, NotFound), (A, NotNumber)], false),
            (&[(P, NotFound), (P, NotFound)], false),
        ],
    ),
    // the bind stands between two calls, so the section goes on from it without a reply
    (
        b"script 1\nkeys a b\nvars v\nbudget P 24 8192\nbudget A 24 8192\nbudget B 24 8192\nP\nA\ngets a\nbind v\nget a\nB\nend\n",
        (NothingToBind, A, 1),
        &[
            (&[(P, NotFound), (P, NotFound), (A, Miss)], true),
            (&[(P, NotFound), (P, NotFound), (A, Hit)], false),
            (&[(P, NotFound), (P, NotFound)], false),
            (&[(P, NotFound), (P, NotFound), (A, Miss), (A, Miss)], false),
        ],
    ),
    // P leaves the number only where it jumps, so one of its ends alone leads to the fault
    (
        b"script 1\nkeys a\nvars v\nbudget P 24 8192\nbudget A 24 8192\nbudget B 24 8192\nP\nincr a 1 notfound:l notnumber:l\n\
          bind v\nhalt\nl:\nA\nincr a $v\nB\nend\n",
        (Unbound, A, 0),
        &[
            (&[(P, NotFound), (P, NotFound)], true),
            (&[(P, NotFound), (P, NotNumber)], true),
            (&[(P, NotFound), (P, Number)], false),
            (&[(P, NotFound)], false),
        ],
    ),
];

#[test]
fn tells_runs_that_show_a_fault(rt: HostRuntime) -> Result<(), Fail> {
    for (script, fault, rows) in SCRIPTS {
        assert_eq!(rt;
            other_row(rt.alloc(), script, *fault, rows)?,
            None,
            "{}",
            fault.0.name()
        );
    }
    Ok(())
}

/// The first of the rows of which `shows` says otherwise, or their number where the script isn't refused so.
fn other_row(
    alloc: Global,
    script: &[u8],
    expected: Fault,
    rows: &[Row],
) -> Result<Option<usize>, Fail> {
    match verify(alloc, code(alloc, script)?) {
        Ok(_) => Ok(Some(rows.len())),
        Err((refusal, code)) => row_of(alloc, &code, &refusal, expected, rows),
    }
}

/// The same of code that is refused.
fn row_of(
    alloc: Global,
    code: &Code,
    refusal: &Refusal,
    expected: Fault,
    rows: &[Row],
) -> Result<Option<usize>, Fail>
    requires { IsRefusalOf code.now refusal.now }
{
    if fault_of(refusal) != expected {
        return Ok(Some(rows.len()));
    }
    if is_of_runs(refusal) {
        first_other(alloc, code, expected, rows)
    } else {
        Ok(Some(rows.len()))
    }
}

/// Whether the fault is one of those that a run shows.
fn is_of_runs(refusal: &Refusal) -> bool
    ensures low { result ≡ true → 4 < kind_number refusal.now.kind }
    ensures high { result ≡ true → kind_number refusal.now.kind < 12 }
{
    let number = refusal.kind.number();
    number > 4 && number < 12
}

fn first_other(
    alloc: Global,
    code: &Code,
    fault: Fault,
    rows: &[Row],
) -> Result<Option<usize>, Fail>
    requires { HasNoneFrom code.now 1 5 }
{
    for (index, row) in rows.iter().enumerate() {
        if is_shown(alloc, code, fault, row.0)? != row.1 {
            return Ok(Some(index));
        }
    }
    Ok(None)
}

/// Whether the replies show the fault.
fn is_shown(
    alloc: Global,
    code: &Code,
    fault: Fault,
    shown: &[(Actor, Class)],
) -> Result<bool, Fail>
    requires { HasNoneFrom code.now 1 5 }
{
    let (kind, actor, place) = fault;
    let refusal = Refusal {
        kind,
        actor,
        place,
        shown: Vec::from_slice(alloc, shown)?,
    };
    Ok(shows(code, &refusal))
}

/// The code of a script.
fn code(alloc: Global, script: &[u8]) -> Result<Code, Fail> {
    let script = parse(alloc, script)?;
    Ok(assemble(alloc, &script)?)
}
