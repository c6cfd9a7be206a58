//! A timeline without some of its requests.
ghost use Rattle.std.specs.Prelude.{◌≡◌, ◌≢◌, ◌∷◌, [], ◌++◌, true, false, None, IfOk, IfSome};
ghost use Rattle.mc_timeline.specs.Restrictions.{waiting_in};
ghost use Rattle.mc_timeline.specs.Rules as rule;
ghost use Rattle.mc_shrink.specs.Parts as spec;

use mc_model::{HistoryKind, Note};
use mc_protocol::OutOfMemory;
use mc_timeline::{Timeline, TimelineBuilder};
use std::alloc::{AllocError, Global};

/// The timeline without the requests that go. `goes` says of each place of the notes whether the request that begins there goes; a
/// request stays if the slice ends before its place. The answer is a copy, in memory of its own.
///
/// The answer is none if what is left is no timeline: if it would begin with another request than a `delete` or a `set`, or have a `cas`
/// whose number no `gets` showed before.
pub fn without(
    alloc: Global,
    timeline: &Timeline,
    goes: &[bool],
) -> Result<Option<Timeline>, OutOfMemory>
    ensures part { IfOk result (λ found. IfSome found (λ part. part ≡ spec.part_of (spec.stays_by goes.now) timeline.now)) }
    ensures none { IfOk result (λ found. found ≡ None → rule.IsTimeline (spec.part_of (spec.stays_by goes.now) timeline.now) → ⊥) }
{
    part_of(alloc, timeline.notes(), goes)
}

// The same of notes.
fn part_of(
    alloc: Global,
    notes: &[(u8, Note)],
    goes: &[bool],
) -> Result<Option<Timeline>, OutOfMemory>
    ensures part { IfOk result (λ found. IfSome found (λ part. part ≡ spec.part_of (spec.stays_by goes.now) notes.now)) }
    ensures none { IfOk result (λ found. found ≡ None → rule.IsTimeline (spec.part_of (spec.stays_by goes.now) notes.now) → ⊥) }
{
    let mut builder = TimelineBuilder::new(alloc);
    let mut waiting = [false; 256];
    'notes: for (place, (client, note)) in notes.iter().enumerate() {
        if note_stays(&mut waiting, stays(goes, place), *client, note) {
            if !add(alloc, &mut builder, *client, note)? {
                return Ok(None);
            }
        }
    }
    Ok(Some(builder.finish()))
}

// Whether the request that begins at the place stays.
fn stays(goes: &[bool], place: usize) -> bool
    ensures { result ≡ spec.stays_by goes.now place }
{
    !goes.get(place).copied().unwrap_or(false)
}

// Whether the note stays, if these clients wait for a reply to a request that does; and keeps which wait for one then.
fn note_stays(waiting: &mut [bool; 256], stays: bool, client: u8, note: &Note) -> bool
    ensures is { result ≡ spec.note_stays (waiting_in waiting.old) stays (client, note.now) }
    ensures after { waiting_in waiting.new ≡ spec.staying_after (waiting_in waiting.old) stays (client, note.now) }
{
    match note {
        Note::Begin(_) => {
            waiting[client as usize] = stays;
            stays
        }
        Note::Reply(_) => waiting[client as usize],
    }
}

// Adds a copy of the note, unless it breaks a rule. Answers whether it was added.
fn add(
    alloc: Global,
    builder: &mut TimelineBuilder,
    client: u8,
    note: &Note,
) -> Result<bool, OutOfMemory>
    ensures added { IfOk result (λ done. done ≡ true → builder.new ≡ builder.old ++ (client, note.now) ∷ []) }
    ensures refused { IfOk result (λ done. done ≡ false → rule.fault_of builder.old (client, note.now) ≢ None) }
{
    match builder.push(alloc, client, note.copy(alloc)?) {
        Ok(()) => Ok(true),
        Err(kind) => match kind {
            HistoryKind::OutOfMemory => Err(AllocError),
            _ => Ok(false),
        },
    }
}
