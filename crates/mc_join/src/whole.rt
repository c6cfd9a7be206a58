//! Parts that make a whole.
ghost use Rattle.std.specs.Prelude.{◌≡◌, ◌+◌, IfOk, true};
ghost use Rattle.mc_join.specs.Wholes as spec;

use crate::fault::{ReportFault, ReportKind};
use crate::part::Part;
use crate::totals::Totals;

/// What several parts come to.
#[derive(Clone, Copy, Debug, Drop, PartialEq, Eq)]
pub struct Whole {
    /// The number of the first job.
    pub first: u64,
    pub totals: Totals,
}

/// The whole of these parts, if they follow one another: no job is missing, and none stands twice.
///
/// # Errors
///
/// The first part that doesn't follow, whose line is named.
pub fn whole_of(parts: &[Part]) -> Result<Whole, ReportFault>
    ensures follow { IfOk result (λ whole. spec.follow whole.first 0 parts.now ≡ true) }
    ensures totals { IfOk result (λ whole. whole.totals ≡ spec.sums spec.no_totals parts.now) }
{
    let first = parts.first().map_or(0, |part| part.first);
    let mut totals = Totals::none();
    'parts: for part in parts {
        totals = with_next(first, totals, part)?;
    }
    Ok(Whole { first, totals })
}

// The totals with those of the next part, which begins with the job after those that they count, from the first one on.
fn with_next(first: u64, totals: Totals, part: &Part) -> Result<Totals, ReportFault>
    ensures next { IfOk result (λ sum. part.now.first ≡ first + totals.jobs) }
    ensures sum { IfOk result (λ sum. sum ≡ spec.plus totals part.now.totals) }
{
    let line = part.line;
    match first.checked_add(totals.jobs) {
        Some(expected) if part.first > expected => {
            let kind = ReportKind::Missing;
            Err(ReportFault { kind, line })
        }
        Some(expected) if part.first == expected => match totals.plus(part.totals) {
            Some(sum) => Ok(sum),
            None => {
                let kind = ReportKind::Totals;
                Err(ReportFault { kind, line })
            }
        },
        _ => {
            let kind = ReportKind::Doubled;
            Err(ReportFault { kind, line })
        }
    }
}
