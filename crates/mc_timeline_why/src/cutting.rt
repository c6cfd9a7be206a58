//! The front of a timeline.
ghost use Rattle.std.specs.Prelude.{◌≡◌, IfOk, take};
ghost use Rattle.mc_timeline.specs.Rules.{IsTimeline};

use mc_model::{HistoryKind, Note};
use mc_protocol::OutOfMemory;
use mc_timeline::{Timeline, TimelineBuilder};
use std::alloc::{AllocError, Global};

/// The timeline of the first `count` notes, or of all where there are fewer. It has memory of its own.
///
/// # Errors
///
/// That memory ran out.
pub fn cut_timeline(
    alloc: Global,
    timeline: &Timeline,
    count: usize,
) -> Result<Timeline, OutOfMemory>
    ensures { IfOk result (λ front. front ≡ take count timeline.now) }
{
    timeline_of(alloc, first(timeline.notes(), count))
}

// The timeline of the notes, of which it has copies.
fn timeline_of(alloc: Global, notes: &[(u8, Note)]) -> Result<Timeline, OutOfMemory>
    requires { IsTimeline notes.now }
    ensures { IfOk result (λ timeline. timeline ≡ notes.now) }
{
    let mut builder = TimelineBuilder::new(alloc);
    'notes: for (client, note) in notes {
        let copy = note.copy(alloc)?;
        if let Err(kind) = builder.push(alloc, *client, copy) {
            return Err(want_of_memory(kind));
        }
    }
    Ok(builder.finish())
}

// The first `count` of the notes, or all where there are fewer.
fn first(notes: &[(u8, Note)], count: usize) -> &[(u8, Note)]
    ensures { result.now ≡ take count notes.now }
{
    notes.get(..count).unwrap_or(notes)
}

// A front of a timeline keeps its rules, so a note is refused for want of memory alone.
fn want_of_memory(kind: HistoryKind) -> OutOfMemory
    requires { kind ≡ HistoryKind.OutOfMemory }
{
    let _kind = kind;
    AllocError
}
