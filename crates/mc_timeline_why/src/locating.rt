//! The note with which the requests on a key become unexplained.
ghost use Rattle.std.specs.Prelude.{◌≡◌, [], length, IfOk};
ghost use Rattle.mc_timeline.specs.Timelines.{restricted};
ghost use Rattle.mc_linearize.specs.Verdicts.{IsTrueOf, IsUnexplained};
ghost use Rattle.mc_timeline_why.specs.{Fronts.front, Locating.IsPlaceOn};

use crate::cutting::cut_timeline;
use mc_linearize::{KeyVerdict, TimelineExplanation, judge_key};
use mc_protocol::{Bytes, OutOfMemory};
use mc_timeline::Timeline;
use std::alloc::Global;

/// Where the searches for the place ended.
#[derive(Debug, Drop)]
pub(crate) enum Located {
    /// With the note at this place the requests become unexplained; this explains those before it.
    At(usize, TimelineExplanation),
    /// The search for an explanation of what stands before this place used up its turns.
    Undecided(usize),
}

/// The place is between one whose front is explained and one whose front is not: of those between them the search takes the middle one.
/// Each search takes at most `limit` turns.
pub(crate) fn locate(
    alloc: Global,
    timeline: &Timeline,
    key: &Bytes,
    limit: u64,
) -> Result<Located, OutOfMemory>
    requires { IsUnexplained (restricted key.now timeline.now) }
    ensures { IfOk result (IsPlaceOn timeline.now key.now) }
{
    let mut explained = 0;
    let mut unexplained = count_of(timeline);
    let mut explanation = no_moves(alloc);
    'halving: while unexplained - explained > 1 {
        let middle = explained + (unexplained - explained) / 2;
        match judge_front(alloc, timeline, key, middle, limit)? {
            KeyVerdict::Explained(found) => {
                explained = middle;
                explanation = found;
            }
            KeyVerdict::Unexplained => unexplained = middle,
            KeyVerdict::Undecided => return Ok(Located::Undecided(middle)),
        }
    }
    Ok(Located::At(explained, explanation))
}

// How many notes the timeline has.
fn count_of(timeline: &Timeline) -> usize
    ensures { result ≡ length timeline.now }
{
    timeline.notes().len()
}

// The verdict on the requests on the key before the place.
fn judge_front(
    alloc: Global,
    timeline: &Timeline,
    key: &Bytes,
    place: usize,
    limit: u64,
) -> Result<KeyVerdict, OutOfMemory>
    ensures { IfOk result (IsTrueOf (front key.now place timeline.now)) }
{
    let cut = cut_timeline(alloc, timeline, place)?;
    let (verdict, _) = judge_key(alloc, &cut, key, limit)?;
    Ok(verdict)
}

// The explanation of a timeline without notes.
fn no_moves(alloc: Global) -> TimelineExplanation
    ensures { result ≡ record { start = []; moves = [] } }
{
    TimelineExplanation {
        start: Vec::new(alloc),
        moves: Vec::new(alloc),
    }
}
