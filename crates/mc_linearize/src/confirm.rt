//! Whether an explanation explains a timeline.
ghost use Rattle.std.specs.Prelude.{◌↔◌, IsTrue, IfOk};
ghost use Rattle.mc_linearize.specs.Claims.{ExplainsTimeline};

use crate::explanation::TimelineExplanation;
use crate::keys::have_distinct_keys;
use crate::trial::Trial;
use mc_protocol::OutOfMemory;
use mc_timeline::Timeline;
use std::alloc::Global;

/// Whether the explanation explains the timeline: its moves name a linearization, the versions of a key have different numbers, and a
/// cache that begins as it says gives every reply that was received.
pub fn confirm_timeline(
    alloc: Global,
    timeline: &Timeline,
    explanation: &TimelineExplanation,
) -> Result<bool, OutOfMemory>
    ensures { IfOk result (λ yes. IsTrue yes ↔ ExplainsTimeline timeline.now explanation.now) }
{
    if !have_distinct_keys(alloc, explanation.start.as_slice())? {
        return Ok(false);
    }
    let mut trial = Trial::new(alloc, timeline.notes(), explanation.start.as_slice())?;
    trial.try_moves(alloc, explanation.moves.as_slice())
}
