//! The place from which on nothing explains a history.
ghost use Rattle.std.specs.Prelude.{◌≡◌, true, is_some, [], IfOk};
ghost use Rattle.mc_model.specs.Notes.{IsHistory};
ghost use Rattle.mc_explain.specs.{Hopeless.IsUnexplained, Verdicts.IsTrueOf};
ghost use Rattle.mc_why.specs.Cuts as cuts;
ghost use Rattle.mc_why.specs.Locating.{IsPlaceOf};

use crate::cutting::cut;
use mc_explain::{Explanation, Verdict, judge};
use mc_model::History;
use mc_protocol::{Actor, OutOfMemory};
use std::alloc::Global;

/// Where the searches for the place ended.
#[derive(Debug, Drop)]
pub(crate) enum Located {
    /// Nothing explains the history from this place on; this explains what stands before it.
    At(usize, Explanation),
    /// The search for an explanation of what stands before this place used up its turns.
    Undecided(usize),
}

/// The place from which on nothing explains the history. Each search takes at most `limit` turns.
pub(crate) fn locate(alloc: Global, history: &History, limit: u64) -> Result<Located, OutOfMemory>
    requires { IsUnexplained history.now }
    ensures { IfOk result (IsPlaceOf history.now) }
{
    let count = place_count(history);
    match history.notes() {
        Some(_) => halve(alloc, history, count, limit),
        None => go_back(alloc, history, count, limit),
    }
}

/// How many places a history has.
fn place_count(history: &History) -> usize
    ensures count { result ≡ cuts.place_count history.now }
    ensures history { IsHistory history.now }
{
    match history.notes() {
        Some(notes) => notes.len(),
        None => {
            history.sent(Actor::P).len()
                + history.sent(Actor::A).len()
                + history.sent(Actor::B).len()
        }
    }
}

/// The verdict on what stands before the place.
fn judge_cut(
    alloc: Global,
    history: &History,
    place: usize,
    limit: u64,
) -> Result<Verdict, OutOfMemory>
    ensures { IfOk result (λ verdict. IsTrueOf (cuts.cut place history.now) verdict) }
{
    let beginning = cut(alloc, history, place)?;
    let (verdict, _) = judge(alloc, &beginning, limit)?;
    Ok(verdict)
}

/// Where the history keeps notes, the place is between one whose cut is explained and one whose cut is not: of those between
/// them the search takes the middle one.
fn halve(alloc: Global, history: &History, count: usize, limit: u64) -> Result<Located, OutOfMemory>
    requires unexplained { IsUnexplained history.now }
    requires count { count ≡ cuts.place_count history.now }
    requires history { IsHistory history.now }
    requires notes { is_some history.now.notes ≡ true }
    ensures { IfOk result (IsPlaceOf history.now) }
{
    let mut explained = 0;
    let mut unexplained = count;
    let mut explanation = no_moves(alloc);
    'halving: while unexplained - explained > 1 {
        let middle = explained + (unexplained - explained) / 2;
        match judge_cut(alloc, history, middle, limit)? {
            Verdict::Explained(found) => {
                explained = middle;
                explanation = found;
            }
            Verdict::Unexplained => unexplained = middle,
            Verdict::Undecided => return Ok(Located::Undecided(middle)),
        }
    }
    Ok(Located::At(explained, explanation))
}

/// Where the history keeps no notes, a later request may explain an earlier one, so the cuts are tried from the longest one.
fn go_back(
    alloc: Global,
    history: &History,
    count: usize,
    limit: u64,
) -> Result<Located, OutOfMemory>
    requires unexplained { IsUnexplained history.now }
    requires count { count ≡ cuts.place_count history.now }
    requires history { IsHistory history.now }
    ensures { IfOk result (IsPlaceOf history.now) }
{
    let mut place = count;
    'going_back: while place > 1 {
        place -= 1;
        match judge_cut(alloc, history, place, limit)? {
            Verdict::Explained(explanation) => return Ok(Located::At(place, explanation)),
            Verdict::Unexplained => {}
            Verdict::Undecided => return Ok(Located::Undecided(place)),
        }
    }
    Ok(Located::At(0, no_moves(alloc)))
}

/// The explanation of a history of which nothing is recorded.
fn no_moves(alloc: Global) -> Explanation
    ensures { result ≡ record { start = []; order = [] } }
{
    Explanation {
        start: Vec::new(alloc),
        order: Vec::new(alloc),
    }
}
