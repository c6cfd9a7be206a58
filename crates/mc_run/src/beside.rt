//! Runs of which one branch is given to a thread that is kept.
ghost use Rattle.std.specs.Arc.{arc_value};
ghost use Rattle.std.specs.Prelude.{◌≡◌, IfOk};
ghost use Rattle.mc_core.specs.{Held.IsHeldBy, Histories.history_of};
ghost use Rattle.mc_run.specs.Agreement.{Agree};

use crate::agreement::find_agreed;
use crate::desk::{Table, Task};
use crate::meeting::Meeting;
use crate::notebook::Notebook;
use crate::running::{both_have_calls, run_in_turn};
use crate::section::{Part, run_section};
use crate::{Book, Branch, Desk, Gate, Lanes, Meet, Run, RunError};
use mc_lane::{Lane, Stream};
use mc_model::History;
use mc_protocol::Actor;
use mc_sound::Checked;
use std::alloc::{AllocError, Global};
use std::sync::{Arc, Mutex, Wait};

/// Runs sound code over three lanes, as [`run_lanes_with`](crate::run_lanes_with), but makes no thread: `meet.apart` runs on the thread
/// that is at the desk's other end, all else on this one.
///
/// # Errors
///
/// Why there is no run: see [`RunError`]. Where the other thread has stopped, there is no thread.
pub fn run_beside<S: Stream, G: Gate, R: Wait>(
    rt: &R,
    alloc: Global,
    checked: &Arc<Checked, Global>,
    lanes: Lanes<S>,
    gate: &G,
    desk: &Desk<S>,
    meet: Meet,
) -> Result<(Run<S>, History), RunError>
    ensures agrees { IfOk result (λ found. Agree (arc_value checked.now).code found.0.world.world found.0.lanes) }
    ensures held { IfOk result (λ found. IsHeldBy (arc_value checked.now).code found.0.world) }
    ensures history { IfOk result (λ found. found.1 ≡ history_of (arc_value checked.now).code found.0.world.world) }
{
    let table = lay_table(alloc, checked, meet)?;
    let Lanes { p, a, b } = lanes;
    let p = run_section(rt, alloc, &table.book, gate, Part::new(Actor::P, p));
    let (a, b) = run_branches(rt, alloc, &table, gate, (a, b), desk, meet.apart)?;
    let lanes = Lanes { p, a, b };
    let book = table.book.lock(rt);
    match find_agreed(alloc, checked, book.world(), &lanes)? {
        Some((world, history)) => Ok((Run { world, lanes }, history)),
        None => Err(RunError::BookMismatch),
    }
}

/// A table for a run of the code.
fn lay_table(
    alloc: Global,
    checked: &Arc<Checked, Global>,
    meet: Meet,
) -> Result<Arc<Table, Global>, AllocError> {
    let book = Book::sharing(alloc, Arc::try_clone(checked)?)?;
    let table = Table {
        book: Mutex::new(Notebook::new(book)),
        meeting: Meeting::over_desk(meet),
    };
    Ok(Arc::new(alloc, table)?)
}

/// Runs both branches, and answers their lanes.
fn run_branches<S: Stream, G: Gate, R: Wait>(
    rt: &R,
    alloc: Global,
    table: &Arc<Table, Global>,
    gate: &G,
    lanes: (Lane<S>, Lane<S>),
    desk: &Desk<S>,
    apart: Branch,
) -> Result<(Lane<S>, Lane<S>), RunError> {
    let (a, b) = lanes;
    if !both_have_calls(rt, &table.book) {
        return Ok(run_in_turn(rt, alloc, &table.book, gate, (a, b)));
    }
    let a = task(table, Branch::A, a)?;
    let b = task(table, Branch::B, b)?;
    match apart {
        Branch::A => desk.run_both(rt, alloc, gate, a, b),
        Branch::B => {
            let (b, a) = desk.run_both(rt, alloc, gate, b, a)?;
            Ok((a, b))
        }
    }
}

/// The task to run a branch at a table.
fn task<S: Stream>(
    table: &Arc<Table, Global>,
    branch: Branch,
    lane: Lane<S>,
) -> Result<Task<S>, AllocError> {
    Ok(Task {
        table: Arc::try_clone(table)?,
        branch,
        lane,
    })
}
