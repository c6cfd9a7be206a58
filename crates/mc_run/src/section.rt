//! One section of a run, call by call.
ghost use Rattle.std.specs.Prelude.{◌≡◌};
ghost use Rattle.mc_run.specs.Running.{Grew};

use crate::Gate;
use crate::carrying::{Prepared, carry, prepare};
use crate::meeting::{Seat, come_after_begin, come_before_begin};
use crate::notebook::Notebook;
use mc_lane::{Lane, Stream};
use mc_protocol::{Actor, Event, Fault, REQUESTS_LIMIT};
use std::alloc::Global;
use std::sync::{Mutex, Wait};

/// A section that is to run over its lane.
#[derive(Drop)]
pub(crate) struct Part<'m, S: Stream> {
    actor: Actor,
    pub(crate) lane: Lane<S>,
    /// Where a branch waits for the other one.
    seat: Option<Seat<'m>>,
}

impl<'m, S: Stream> Part<'m, S> {
    /// A section that waits for no other.
    pub(crate) fn new(actor: Actor, lane: Lane<S>) -> Part<'m, S>
        ensures { result.lane ≡ lane }
    {
        Part {
            actor,
            lane,
            seat: None,
        }
    }

    /// The same, where it comes to a meeting before each of its calls.
    pub(crate) fn with_seat(self, seat: Seat<'m>) -> Part<'m, S>
        ensures { result.lane ≡ self.entry.lane }
    {
        let Part { actor, lane, .. } = self;
        Part {
            actor,
            lane,
            seat: Some(seat),
        }
    }
}

/// Runs a section to its end, and answers its lane.
pub(crate) fn run_section<S: Stream, G: Gate, R: Wait>(
    rt: &R,
    alloc: Global,
    book: &Mutex<Notebook<'_>>,
    gate: &G,
    part: Part<'_, S>,
) -> Lane<S>
    ensures { Grew part.entry.lane result }
{
    let Part {
        actor,
        mut lane,
        seat,
    } = part;
    'calls: for index in 0..REQUESTS_LIMIT as u32 {
        let Some(prepared) = prepare_next(rt, alloc, book, actor, &mut lane) else {
            break;
        };
        if !run_call(
            rt,
            book,
            gate,
            seat.as_ref(),
            (actor, index),
            &prepared,
            &mut lane,
        ) {
            break;
        }
    }
    if let Some(seat) = &seat {
        seat.leave(rt);
    }
    lane
}

/// The section's next call, made ready; or nothing where it has no more to make. Want of memory ends the section.
fn prepare_next<S: Stream, R: Wait>(
    rt: &R,
    alloc: Global,
    book: &Mutex<Notebook<'_>>,
    actor: Actor,
    lane: &mut Lane<S>,
) -> Option<Prepared>
    ensures { lane.new ≡ lane.old }
{
    let upcoming = book.lock(rt).upcoming(actor);
    let (held, call) = upcoming?;
    match prepare(alloc, held.checked().code(), call, lane) {
        Ok(prepared) => Some(prepared),
        Err(_) => {
            book.lock(rt).note_result(actor, Event::Fail(Fault::Memory));
            None
        }
    }
}

/// Makes a call that is ready, and answers whether the section may go on. It meets the other branch, if it has a seat. The book is
/// locked for one note at a time, and never while the lane or the gate is called; where the other branch holds the lock, this one looks
/// for longer than a note takes before it sleeps. What the call was made of is freed by the caller, after the reply is noted.
fn run_call<S: Stream, G: Gate, R: Wait>(
    rt: &R,
    book: &Mutex<Notebook<'_>>,
    gate: &G,
    seat: Option<&Seat<'_>>,
    place: (Actor, u32),
    prepared: &Prepared,
    lane: &mut Lane<S>,
) -> bool
    ensures { Grew lane.old lane.new }
{
    let (actor, index) = place;
    come_before_begin(rt, seat, index);
    let begins = book.lock(rt).note_begin(actor, prepared);
    if !begins {
        return false;
    }
    come_after_begin(rt, seat, index);
    gate.before(actor, index);
    let event = carry(prepared, lane);
    let noted = book.lock(rt).note_result(actor, event);
    gate.after(actor, index);
    noted
}
