//! What is known of a history: an explanation, or from where on nothing explains it.
ghost use Rattle.std.specs.Prelude.{IfOk};
ghost use Rattle.mc_explain.specs.Verdicts.{IsTrueOf};
ghost use Rattle.mc_draw.specs.Known.{IsKnownOf};

use mc_claims::confirms;
use mc_explain::{Explanation, Verdict, judge};
use mc_model::History;
use mc_protocol::OutOfMemory;
use mc_why::{Finding, why_unexplained};
use std::alloc::Global;

/// What is known of a history.
#[derive(Debug, Drop)]
pub enum Known {
    /// The explanation that was given explains it.
    Confirmed(Explanation),
    /// The explanation that was found explains it.
    Explained(Explanation),
    /// Nothing explains it, and this is from where on.
    Unexplained(Finding),
    /// The turns were used up before a search came to its end.
    Undecided,
}

/// What is known of the history: by the explanation that is given, if it explains the history; else by searches, each of at most
/// `limit` turns.
///
/// # Errors
///
/// That memory ran out.
pub fn find_out(
    alloc: Global,
    history: &History,
    given: Option<Explanation>,
    limit: u64,
) -> Result<Known, OutOfMemory>
    ensures { IfOk result (IsKnownOf history.now) }
{
    match given {
        Some(explanation) if confirms(alloc, history, &explanation)? => {
            Ok(Known::Confirmed(explanation))
        }
        _ => search(alloc, history, limit),
    }
}

fn search(alloc: Global, history: &History, limit: u64) -> Result<Known, OutOfMemory>
    ensures { IfOk result (IsKnownOf history.now) }
{
    let (verdict, _) = judge(alloc, history, limit)?;
    match verdict {
        Verdict::Explained(explanation) => Ok(Known::Explained(explanation)),
        Verdict::Unexplained => Ok(Known::Unexplained(why_unexplained(alloc, history, limit)?)),
        Verdict::Undecided => Ok(Known::Undecided),
    }
}
