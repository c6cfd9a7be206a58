//! Leaves out requests as long as nothing explains the others.
ghost use Rattle.std.specs.Prelude.{◌≡◌, ◌≤◌, length, true, IfOk, OnOk};
ghost use Rattle.mc_linearize.specs.Verdicts.{IsUnexplained};
ghost use Rattle.mc_timeline.specs.{Rules.IsTimeline, Timelines.restricted};
ghost use Rattle.mc_shrink.specs.Going as going;
ghost use Rattle.mc_shrink.specs.Parts as spec;

use crate::going::may_go;
use crate::part::without;
use mc_linearize::{KeyVerdict, judge_key};
use mc_protocol::{Bytes, OutOfMemory};
use mc_timeline::{Timeline, restrict};
use std::alloc::Global;

/// The timeline of the requests on the key, without requests that changed nothing: as many of them are left out as the searches of
/// the others allow that still find that nothing explains these. The first request stays.
///
/// They are left out from the last to the first: many at once, then half as many where an explanation was found. All searches together use
/// `limit` turns at most, where each note that is searched counts as one turn more; the requests for which no turns are left stay.
pub fn smallest(
    alloc: Global,
    timeline: &Timeline,
    key: &Bytes,
    limit: u64,
) -> Result<Timeline, OutOfMemory>
    ensures part { IfOk result (spec.IsPartOf (restricted key.now timeline.now)) }
    ensures unexplained { IfOk result (λ part. IsUnexplained (restricted key.now timeline.now) → IsUnexplained part) }
{
    let whole = restrict(alloc, timeline, key)?;
    let may = may_go(alloc, whole.notes())?;
    let part = restrict(alloc, timeline, key)?;
    let left = leave_out(alloc, &whole, key, may.as_slice(), part, limit)?;
    Ok(left)
}

// What is left of a timeline when some of its requests went.
#[derive(Drop)]
struct Left {
    // of each place, whether the request that begins there went
    goes: Vec<bool>,
    part: Timeline,
    // the turns that may still be used
    turns: u64,
}

// Leaves out requests of the whole timeline that may go, of which nothing was left out before.
fn leave_out(
    alloc: Global,
    whole: &Timeline,
    key: &Bytes,
    may: &[bool],
    part: Timeline,
    limit: u64,
) -> Result<Timeline, OutOfMemory>
    requires timeline { IsTimeline whole.now }
    requires same { part ≡ whole.now }
    requires may { may.now ≡ going.may_go_from 0 whole.now }
    ensures part { IfOk result (spec.IsPartOf whole.now) }
    ensures unexplained { IfOk result (λ part. IsUnexplained whole.now → IsUnexplained part) }
{
    let mut left = Left {
        goes: Vec::new(alloc),
        part,
        turns: limit,
    };
    let mut end = may.len();
    let mut size = end;
    'places: while end > 0 {
        size = size.min(end);
        let start = end - size;
        if left.leave_out(alloc, whole, key, may, start, end)? {
            end = start;
            size = size.saturating_mul(2);
        } else if size > 1 {
            size /= 2;
        } else {
            end = start;
        }
    }
    Ok(left.part)
}

impl Left {
    // Leaves out all requests that may go and begin at one of these places, if that is a timeline that nothing explains. Answers whether
    // they are left out, or there is none.
    fn leave_out(
        &mut self,
        alloc: Global,
        whole: &Timeline,
        key: &Bytes,
        may: &[bool],
        start: usize,
        end: usize,
    ) -> Result<bool, OutOfMemory>
        requires left { going.IsLeft whole.now self.old.goes.items self.old.part }
        requires may { may.now ≡ going.may_go_from 0 whole.now }
        requires start { start ≤ end }
        requires end { end ≤ length may.now }
        ensures { IfOk result (λ _. going.IsLeft whole.now self.new.goes.items self.new.part) }
    {
        if !may[start..end].contains(&true) {
            return Ok(true);
        }
        if self.turns == 0 {
            return Ok(false);
        }
        let goes = with_places(alloc, self.goes.as_slice(), may, start, end)?;
        let Some(part) = without(alloc, whole, goes.as_slice())? else {
            return Ok(false);
        };
        if !self.is_unexplained(alloc, &part, key)? {
            return Ok(false);
        }
        self.goes = goes;
        self.part = part;
        Ok(true)
    }

    // Whether a search within the turns that are left finds that nothing explains the timeline.
    fn is_unexplained(
        &mut self,
        alloc: Global,
        part: &Timeline,
        key: &Bytes,
    ) -> Result<bool, OutOfMemory>
        ensures goes { OnOk result (self.new.goes ≡ self.old.goes) }
        ensures part { OnOk result (self.new.part ≡ self.old.part) }
        ensures unexplained { IfOk result (λ answer. answer ≡ true → IsUnexplained part.now) }
    {
        self.turns = self.turns.saturating_sub(part.notes().len() as u64);
        let (verdict, turns) = judge_key(alloc, part, key, self.turns)?;
        self.turns = self.turns.saturating_sub(turns);
        Ok(matches!(verdict, KeyVerdict::Unexplained))
    }
}

// Tells more requests to go: those that may and begin at a place from `start` on and before `end`.
fn with_places(
    alloc: Global,
    goes: &[bool],
    may: &[bool],
    start: usize,
    end: usize,
) -> Result<Vec<bool>, OutOfMemory>
    requires { going.Tells may.now goes.now }
    ensures { IfOk result (λ more. going.Tells may.now more.items) }
{
    let mut more = Vec::with_capacity(alloc, may.len())?;
    'places: for place in 0..may.len() {
        let goes = goes.get(place).copied().unwrap_or(false);
        let is_within = start <= place && place < end;
        more.push(goes || (is_within && may[place]))?;
    }
    Ok(more)
}
