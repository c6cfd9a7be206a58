//! What is known of a timeline: an explanation, or from where on nothing explains the requests on one of its keys.
ghost use Rattle.std.specs.Prelude.{IfOk};
ghost use Rattle.mc_timeline_draw.specs.Known.{IsKnownOf};

use mc_linearize::{TimelineExplanation, TimelineVerdict, confirm_timeline, judge_timeline};
use mc_protocol::{Bytes, OutOfMemory};
use mc_timeline::Timeline;
use mc_timeline_why::{TimelineFinding, why_key_unexplained};
use std::alloc::Global;

/// What is known of a timeline.
#[derive(Debug, Drop)]
pub enum TimelineKnown {
    /// The explanation that was given explains it.
    Confirmed(TimelineExplanation),
    /// The explanation that was found explains it.
    Explained(TimelineExplanation),
    /// Nothing explains the requests on this key, and this is from where on.
    Unexplained(Bytes, TimelineFinding),
    /// The turns were used up before a search for what explains the requests on this key came to its end, and no key was found whose
    /// requests nothing explains.
    Undecided(Bytes),
}

/// What is known of the timeline: by the explanation that is given, if it explains the timeline; else by a search for each key, of at
/// most `limit` turns.
///
/// # Errors
///
/// That memory ran out.
pub fn find_out(
    alloc: Global,
    timeline: &Timeline,
    given: Option<TimelineExplanation>,
    limit: u64,
) -> Result<TimelineKnown, OutOfMemory>
    ensures { IfOk result (IsKnownOf timeline.now) }
{
    match given {
        Some(explanation) if confirm_timeline(alloc, timeline, &explanation)? => {
            Ok(TimelineKnown::Confirmed(explanation))
        }
        _ => search(alloc, timeline, limit),
    }
}

fn search(alloc: Global, timeline: &Timeline, limit: u64) -> Result<TimelineKnown, OutOfMemory>
    ensures { IfOk result (IsKnownOf timeline.now) }
{
    let (verdict, _) = judge_timeline(alloc, timeline, limit)?;
    match verdict {
        TimelineVerdict::Explained(explanation) => Ok(TimelineKnown::Explained(explanation)),
        TimelineVerdict::Unexplained(key) => {
            let finding = why_key_unexplained(alloc, timeline, &key, limit)?;
            Ok(TimelineKnown::Unexplained(key, finding))
        }
        TimelineVerdict::Undecided(key) => Ok(TimelineKnown::Undecided(key)),
    }
}
