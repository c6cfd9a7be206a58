//! How far an order of a timeline's requests has come.
ghost use Rattle.std.specs.Prelude.{◌≡◌, ◌+◌, ◌^◌, ◌<◌, ◌≤◌, ◌↔◌, [], length, slice_get, get_or, MatchOption, IsTrue, IfOk, IfSome};
ghost use Rattle.std.specs.Option.{option_copied};
ghost use Rattle.mc_timeline.specs.{Rules.IsTimeline, Operations.Operation as TheOperation};
ghost use Rattle.mc_timeline.specs.Queues as left;
ghost use Rattle.mc_linearize.specs.Standing as standing;

use crate::operation::{Answer, Operation, Queue};
use crate::queues::{no_counts, queues_of};
use mc_model::Note;
use mc_protocol::OutOfMemory;
use std::alloc::Global;
use std::marker::Model;

/// How far an order has come. Contracts see what each client has left.
#[derive(Drop)]
pub(crate) struct Standing<'a> {
    notes: &'a [(u8, Note)],
    // the operations of each client
    queues: Vec<Queue<'a>>,
    // how many of each client's have taken effect
    counts: Vec<usize>,
    // the last place before which no client's next operation was answered
    place: usize,
}

impl<'a> Model for Standing<'a> {
    ghost use Rattle.std.specs.Prelude.{length};
    ghost use Rattle.mc_timeline.specs.Queues.{Queues};
    ghost use Rattle.mc_linearize.specs.Standing.{left_by, IsStanding};

    ghost Value = { Queues };

    ghost view = { λ s. left_by s.queues.items s.counts.items };

    ghost invariant = { λ s. IsStanding s.notes.now s.queues.items s.counts.items s.place };
}

impl<'a> Standing<'a> {
    /// Before the first request takes effect.
    pub(crate) fn new(alloc: Global, notes: &'a [(u8, Note)]) -> Result<Self, OutOfMemory>
        requires { IsTimeline notes.now }
        ensures { IfOk result (λ left. standing.IsWhole notes.entry.now left) }
    {
        let queues = queues_of(alloc, notes)?;
        let counts = no_counts(alloc, queues.len())?;
        let place = settled(notes, queues.as_slice(), counts.as_slice(), 0);
        Ok(Standing {
            notes,
            queues,
            counts,
            place,
        })
    }

    /// Lets the client's next operation take effect, if there is one that may: it began before the next operation of any client was
    /// answered.
    pub(crate) fn take(&mut self, client: u8) -> Option<Operation<'a>>
        ensures { MatchOption result ((x : TheOperation) (after : left.Queues) → standing.MayAct client self.old x after → ⊥)
            (λ x. standing.ActsNext client self.old x self.new) }
    {
        let next = next_of(
            self.queues.as_slice(),
            self.counts.as_slice(),
            self.place,
            client,
        );
        let Some(operation) = next else {
            return None;
        };
        let operation = operation.copy();
        self.counts[client as usize] += 1;
        self.place = settled(
            self.notes,
            self.queues.as_slice(),
            self.counts.as_slice(),
            self.place,
        );
        Some(operation)
    }

    /// Whether the order may end here: every client has nothing left, or one operation that was not answered.
    pub(crate) fn may_end(&self) -> bool
        ensures { IsTrue result ↔ left.MayEnd self.now }
    {
        may_all_end(self.queues.as_slice(), self.counts.as_slice())
    }
}

/// Whether an order may end here: every client has nothing left, or one operation that was not answered.
pub(crate) fn may_all_end(queues: &[Queue<'_>], counts: &[usize]) -> bool
    requires { length counts.now ≡ length queues.now }
    ensures { IsTrue result ↔ left.MayEnd (standing.left_by queues.now counts.now) }
{
    'clients: for client in 0..queues.len() {
        if !queues[client].may_end(counts[client]) {
            return false;
        }
    }
    true
}

/// The client's next operation, if it began no later than this place.
pub(crate) fn next_of<'q, 'a>(
    queues: &'q [Queue<'a>],
    counts: &[usize],
    place: usize,
    client: u8,
) -> Option<&'q Operation<'a>>
    requires { length counts.now ≡ length queues.now }
    ensures { MatchOption result (standing.NoneBegan queues.entry.now counts.now place client) (λ x.
        standing.HasBegan queues.entry.now counts.now place client x.now) }
{
    let Some(operation) = first_left(queues, counts, client) else {
        return None;
    };
    if operation.began > place {
        return None;
    }
    Some(operation)
}

// The first operation that the client has left.
fn first_left<'q, 'a>(
    queues: &'q [Queue<'a>],
    counts: &[usize],
    client: u8,
) -> Option<&'q Operation<'a>>
    requires { length counts.now ≡ length queues.now }
    ensures first { option_copied result ≡ slice_get (get_or queues.entry.now client []) (get_or counts.now client 0) }
    ensures counted { IfSome result (λ _. get_or counts.now client 0 + 1 < 2 ^ 64) }
{
    let Some(count) = counts.get(client as usize) else {
        return None;
    };
    let Some(queue) = queues.get(client as usize) else {
        return None;
    };
    if *count >= queue.len() {
        return None;
    }
    queue.get(*count)
}

/// The last place, from this one on, before which no client's next operation was answered.
pub(crate) fn settled(
    notes: &[(u8, Note)],
    queues: &[Queue<'_>],
    counts: &[usize],
    from: usize,
) -> usize
    requires standing { standing.AreQueues notes.now queues.now }
    requires counted { length counts.now ≡ length queues.now }
    requires none { left.NoNextCameBefore from (standing.left_by queues.now counts.now) }
    requires within { from ≤ length notes.now }
    ensures settled { standing.IsSettled (length notes.now) (standing.left_by queues.now counts.now) result }
    ensures within { result ≤ length notes.now }
{
    let mut place = from;
    'places: while place < notes.len() {
        if is_answered_at(queues, counts, notes[place].0, place) {
            break;
        }
        place += 1;
    }
    place
}

// Whether the client's next operation was answered at this place.
fn is_answered_at(queues: &[Queue<'_>], counts: &[usize], client: u8, place: usize) -> bool
    requires { length counts.now ≡ length queues.now }
    ensures { result ≡ standing.is_answered_at place (standing.queue_left queues.now counts.now client) }
{
    match first_left(queues, counts, client) {
        Some(operation) => came_at(place, &operation.answer),
        None => false,
    }
}

// Whether the answer came at this place.
fn came_at(place: usize, answer: &Option<Answer<'_>>) -> bool
    ensures { result ≡ standing.came_at place answer.now }
{
    match answer {
        Some(answer) => answer.time == place,
        None => false,
    }
}
