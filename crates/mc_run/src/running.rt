//! The threads of a run.
ghost use Rattle.std.specs.Prelude.{◌≡◌, IfOk, IfSome};
ghost use Rattle.mc_core.specs.{Held.IsHeldBy, Histories.history_of};
ghost use Rattle.mc_run.specs.{Agreement.Agree, Running.AllGrew, Running.AreNew, Running.Grew};

use crate::agreement::find_agreed;
use crate::meeting::Meeting;
use crate::notebook::Notebook;
use crate::section::{Part, run_section};
use crate::{Book, Branch, Gate, Lanes, Manner, Meet, Run, RunError};
use core::thread::Stack;
use mc_lane::{Lane, Stream};
use mc_model::History;
use mc_protocol::Actor;
use mc_sound::Checked;
use std::alloc::Global;
use std::snapshot::Snapshot;
use std::sync::{Mutex, Wait};
use std::thread::{self, Promise, Threads};

/// Runs sound code over three new lanes: P first, and when it is done A, on a thread of its own, beside B. All that happens is
/// noted in one book: that a call begins before its first byte is written, and its reply, or the fault that ends its section, after
/// the last one was read. The text of a request is made before its call is noted to begin. `gate` is passed on the way.
///
/// A branch waits with its first request until the other one's first is ready, and with each later one for some 50 microseconds at
/// most; it doesn't wait for a branch that has no more to send. No thread is made where P isn't done or a branch has nothing to
/// send.
///
/// A section for which memory runs out fails with [`Fault::Memory`](mc_protocol::Fault::Memory). It waits for the streams, for the
/// gate and for the threads.
///
/// # Errors
///
/// Why there is no run: see [`RunError`].
pub fn run_lanes<S: Stream + Send, G: Gate, R: Threads + Wait + Sync>(
    rt: &R,
    alloc: Global,
    checked: &Checked,
    lanes: Lanes<S>,
    gate: &G,
) -> Result<Run<S>, RunError>
    requires new { AreNew lanes }
    ensures agrees { IfOk result (λ run. Agree checked.now.code run.world.world run.lanes) }
    ensures grew { IfOk result (λ run. AllGrew lanes run.lanes) }
    ensures held { IfOk result (λ run. IsHeldBy checked.now.code run.world) }
{
    let meet = Meet {
        manner: Manner::Each,
        apart: Branch::A,
        late: None,
    };
    let (run, _) = run_lanes_with(rt, alloc, checked, lanes, gate, Stack::new(), meet)?;
    Ok(run)
}

/// The same with the run's history, where the thread of a branch has this stack, and `meet` says which branch that is, how the branches
/// wait for each other, and which of them is late.
pub fn run_lanes_with<S: Stream + Send, G: Gate, R: Threads + Wait + Sync>(
    rt: &R,
    alloc: Global,
    checked: &Checked,
    lanes: Lanes<S>,
    gate: &G,
    stack: Stack,
    meet: Meet,
) -> Result<(Run<S>, History), RunError>
    requires new { AreNew lanes }
    ensures agrees { IfOk result (λ found. Agree checked.now.code found.0.world.world found.0.lanes) }
    ensures grew { IfOk result (λ found. AllGrew lanes found.0.lanes) }
    ensures held { IfOk result (λ found. IsHeldBy checked.now.code found.0.world) }
    ensures history { IfOk result (λ found. found.1 ≡ history_of checked.now.code found.0.world.world) }
{
    let book = Mutex::new(Notebook::new(Book::new(alloc, checked)?));
    let Lanes { p, a, b } = lanes;
    let p = run_section(rt, alloc, &book, gate, Part::new(Actor::P, p));
    let Some((a, b)) = run_branches(rt, alloc, &book, gate, (a, b), stack, meet) else {
        return Err(RunError::NoThread);
    };
    let noted = book.into_inner().into_world();
    let lanes = Lanes { p, a, b };
    match find_agreed(alloc, checked, &noted, &lanes)? {
        Some((world, history)) => Ok((Run { world, lanes }, history)),
        None => Err(RunError::BookMismatch),
    }
}

/// Runs both branches, and answers their lanes; or nothing where no thread can be made. None is made where not both have a call to
/// make.
fn run_branches<S: Stream + Send, G: Gate, R: Threads + Wait + Sync>(
    rt: &R,
    alloc: Global,
    book: &Mutex<Notebook<'_>>,
    gate: &G,
    lanes: (Lane<S>, Lane<S>),
    stack: Stack,
    meet: Meet,
) -> Option<(Lane<S>, Lane<S>)>
    ensures { IfSome result (λ grown. Grew lanes.0 grown.0 × Grew lanes.1 grown.1) }
{
    if !both_have_calls(rt, book) {
        return Some(run_in_turn(rt, alloc, book, gate, lanes));
    }
    let (a, b) = lanes;
    let meeting = Meeting::beside_new_thread(meet);
    let a = Part::new(Actor::A, a).with_seat(meeting.seat(Branch::A));
    let b = Part::new(Actor::B, b).with_seat(meeting.seat(Branch::B));
    match meet.apart {
        Branch::A => run_both(rt, alloc, book, gate, a, b, stack),
        Branch::B => {
            let (b, a) = run_both(rt, alloc, book, gate, b, a, stack)?;
            Some((a, b))
        }
    }
}

/// Whether both branches have a call to make.
pub(crate) fn both_have_calls<R: Wait>(rt: &R, book: &Mutex<Notebook<'_>>) -> bool {
    let book = book.lock(rt);
    book.upcoming(Actor::A).is_some() && book.upcoming(Actor::B).is_some()
}

/// Runs one branch after the other on this thread, and answers their lanes. They don't wait for each other.
pub(crate) fn run_in_turn<S: Stream, G: Gate, R: Wait>(
    rt: &R,
    alloc: Global,
    book: &Mutex<Notebook<'_>>,
    gate: &G,
    lanes: (Lane<S>, Lane<S>),
) -> (Lane<S>, Lane<S>)
    ensures { Grew lanes.0 result.0 × Grew lanes.1 result.1 }
{
    let (a, b) = lanes;
    let a = run_section(rt, alloc, book, gate, Part::new(Actor::A, a));
    let b = run_section(rt, alloc, book, gate, Part::new(Actor::B, b));
    (a, b)
}

/// Runs both branches, `apart` on a thread of its own and `here` on this one, and answers their lanes in this order; or nothing
/// where no thread can be made.
fn run_both<S: Stream + Send, G: Gate, R: Threads + Wait + Sync>(
    rt: &R,
    alloc: Global,
    book: &Mutex<Notebook<'_>>,
    gate: &G,
    apart: Part<'_, S>,
    here: Part<'_, S>,
    stack: Stack,
) -> Option<(Lane<S>, Lane<S>)>
    ensures { IfSome result (λ grown. Grew apart.entry.lane grown.0 × Grew here.entry.lane grown.1) }
{
    thread::scope(
        thread::scope_env(),
        rt,
        move |scope| -> Option<(Lane<S>, Lane<S>)>
            ensures { IfSome result (λ grown. Grew apart.entry.lane grown.0 × Grew here.entry.lane grown.1) }
        {
            let promise = GrowsFrom(Snapshot::of(&apart.lane));
            let run_apart = move || run_section(rt, alloc, book, gate, apart);
            let Ok(started) = stack.spawn_scoped_with(scope, promise, run_apart) else {
                return None;
            };
            let here = run_section(rt, alloc, book, gate, here);
            Some((started.join(rt), here))
        },
    )
}

/// What the thread of a branch promises of the lane that it answers: it grew from this one.
#[derive(Drop)]
struct GrowsFrom<S: Stream>(Snapshot<Lane<S>>);

impl<S: Stream> Promise<Lane<S>> for GrowsFrom<S> {
    ghost use Rattle.mc_run.specs.Running.{Grew};

    ghost kept_by = { λ promise lane. Grew promise.0.value lane };
}
