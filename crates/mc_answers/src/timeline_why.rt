//! What stands after a verdict on a timeline where the line asks why nothing explains a key.
ghost use Rattle.std.specs.Prelude.{◌≡◌, map, IfOk};
ghost use Rattle.mc_timeline.specs.Timelines.{restricted};
ghost use Rattle.mc_linearize.specs.Verdicts.{IsTrueOf, IsTrueOfAll, IsUnexplained};
ghost use Rattle.mc_answers.specs.TimelineAnswers as answers;
ghost use Rattle.mc_answers.specs.WhyAnswers.{line_after_header};

use crate::why::line_after_header;
use mc_linearize::{KeyVerdict, TimelineVerdict};
use mc_protocol::Bytes;
use mc_timeline::Timeline;
use mc_timeline_why::{print_timeline_why, why_key_unexplained};
use std::alloc::{AllocError, Global};

/// The text that stands after the verdict on all keys: where that is asked for, and nothing explains a key, why that is so; else it is
/// empty. `text` spells the timeline.
pub fn reasons_text(
    alloc: Global,
    why: bool,
    limit: u64,
    text: &[u8],
    timeline: &Timeline,
    verdict: &TimelineVerdict,
) -> Result<Vec<u8>, AllocError>
    requires { IsTrueOfAll timeline.now verdict.now }
    ensures { IfOk result (λ reasons. answers.AreReasons why text.now timeline.now verdict.now reasons.items) }
{
    if !why {
        return Ok(Vec::new(alloc));
    }
    match verdict {
        TimelineVerdict::Unexplained(key) => found_text(alloc, limit, text, timeline, key),
        TimelineVerdict::Explained(_) | TimelineVerdict::Undecided(_) => Ok(Vec::new(alloc)),
    }
}

/// The same of the verdict on one key.
pub fn key_reasons_text(
    alloc: Global,
    why: bool,
    limit: u64,
    text: &[u8],
    timeline: &Timeline,
    key: &Bytes,
    verdict: &KeyVerdict,
) -> Result<Vec<u8>, AllocError>
    requires { IsTrueOf (restricted key.now timeline.now) verdict.now }
    ensures { IfOk result (λ reasons. answers.AreReasonsOnKey why text.now timeline.now key.now verdict.now reasons.items) }
{
    if !why {
        return Ok(Vec::new(alloc));
    }
    match verdict {
        KeyVerdict::Unexplained => found_text(alloc, limit, text, timeline, key),
        KeyVerdict::Explained(_) | KeyVerdict::Undecided => Ok(Vec::new(alloc)),
    }
}

// The text of what is found of a key whose requests nothing explains.
fn found_text(
    alloc: Global,
    limit: u64,
    text: &[u8],
    timeline: &Timeline,
    key: &Bytes,
) -> Result<Vec<u8>, AllocError>
    requires { IsUnexplained (restricted key.now timeline.now) }
    ensures { IfOk result (λ reasons. answers.IsReason text.now timeline.now key.now reasons.items) }
{
    let finding = why_key_unexplained(alloc, timeline, key, limit)?;
    let line = line_after_header(alloc, text, finding.place())?;
    let overlap = lines_of(alloc, text, finding.overlap())?;
    let mut reasons = Vec::new(alloc);
    print_timeline_why(
        &finding,
        timeline,
        key,
        line,
        overlap.as_slice(),
        &mut reasons,
    )?;
    Ok(reasons)
}

// The numbers of the lines of these places.
fn lines_of(alloc: Global, text: &[u8], places: &[usize]) -> Result<Vec<u64>, AllocError>
    ensures { IfOk result (λ lines. lines.items ≡ map (line_after_header text.now) places.now) }
{
    let mut lines = Vec::new(alloc);
    'places: for place in places {
        let line = line_after_header(alloc, text, *place)?;
        lines.push(line)?;
    }
    Ok(lines)
}
