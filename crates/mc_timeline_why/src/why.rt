//! Why nothing explains the requests on a key.
ghost use Rattle.std.specs.Prelude.{IfOk};
ghost use Rattle.mc_timeline.specs.Timelines.{restricted};
ghost use Rattle.mc_linearize.specs.Verdicts.{IsUnexplained};
ghost use Rattle.mc_timeline_why.specs.TimelineCauses.{IsFoundOn};

use crate::locating::{Located, locate};
use crate::overlap::overlap_at;
use crate::{TimelineCause, TimelineFinding};
use mc_protocol::{Bytes, OutOfMemory};
use mc_timeline::Timeline;
use std::alloc::Global;

/// With which note the requests on the key become unexplained, what explains those before it, and which of them overlap it. Each search
/// for an explanation takes at most `limit` turns. If one uses them up, only its place is answered.
///
/// # Errors
///
/// That memory ran out.
pub fn why_key_unexplained(
    alloc: Global,
    timeline: &Timeline,
    key: &Bytes,
    limit: u64,
) -> Result<TimelineFinding, OutOfMemory>
    requires { IsUnexplained (restricted key.now timeline.now) }
    ensures { IfOk result (IsFoundOn timeline.now key.now) }
{
    match locate(alloc, timeline, key, limit)? {
        Located::At(place, explanation) => {
            let overlap = overlap_at(alloc, timeline, key, place)?;
            Ok(TimelineFinding::Cause(TimelineCause {
                place,
                explanation,
                overlap,
            }))
        }
        Located::Undecided(place) => Ok(TimelineFinding::Undecided(place)),
    }
}
