//! Requests of many clients that nothing explains.
ghost use Rattle.mc_linearize.specs.Verdicts.{IsUnexplained};
ghost use Rattle.mc_timeline.specs.Timelines.{restricted};

use mc_linearize::{KeyVerdict, judge_key};
use mc_protocol::{Bytes, OutOfMemory};
use mc_stress::Evidence;
use mc_timeline::Timeline;
use mc_timeline_why::why_key_unexplained;
use std::alloc::Global;

/// The requests of a round on a key, which nothing explains. Of rounds, nothing else is told as a race.
pub(crate) struct Clash {
    pub(crate) key: Bytes,
    pub(crate) timeline: Timeline,
    /// The place of the note with which they become unexplained, or before which a search was left open.
    pub(crate) place: usize,
    ghost unexplained: { IsUnexplained (restricted key timeline) },
}

// One call drops its parts. A derived `Drop` would write them out at each end of each function that holds one.
impl Drop for Clash {
    fn drop(self) {
        let Clash {
            key: _,
            timeline: _,
            place: _,
        } = self;
    }
}

impl Clash {
    /// What a round shows, if a search of at most `limit` turns shows that nothing explains the requests on its key. They are judged once
    /// more, because this is what is told.
    pub(crate) fn of(
        alloc: Global,
        evidence: Evidence,
        limit: u64,
    ) -> Result<Option<Clash>, OutOfMemory> {
        let Evidence { key, timeline } = evidence;
        let (verdict, _turns) = judge_key(alloc, &timeline, &key, limit)?;
        match verdict {
            KeyVerdict::Unexplained => {}
            KeyVerdict::Explained(_) | KeyVerdict::Undecided => return Ok(None),
        }
        let place = why_key_unexplained(alloc, &timeline, &key, limit)?.place();
        Ok(Some(Clash {
            key,
            timeline,
            place,
        }))
    }
}
