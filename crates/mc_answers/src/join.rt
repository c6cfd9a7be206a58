//! What `join` answers to reports.
ghost use Rattle.std.specs.Prelude.{◌≡◌, IfOk};
ghost use Rattle.mc_answers.specs.JoinAnswers as answers;
ghost use Rattle.mc_answers.specs.{JoinAnswers.IsReportStatus, Refusing.Gives};
ghost use Rattle.mc_join.specs.Refusals.{refusal_text};

use crate::answer::Answer;
use crate::refusal::Unanswered;
use crate::status::Status;
use mc_join::{Finding, Joined, ReportFault};
use std::alloc::{AllocError, Global};

/// Joins the reports of a campaign's parts to that of the whole.
pub fn join(alloc: Global, text: &[u8]) -> Result<Answer, Unanswered>
    ensures { Gives answers.Joins result }
{
    match mc_join::join(alloc, text)? {
        Joined::Whole(output, finding) => Ok(Answer {
            output,
            status: status_of(finding),
        }),
        Joined::Refused(fault) => Err(Unanswered::Refused(refusal(alloc, fault)?)),
    }
}

fn refusal(alloc: Global, fault: ReportFault) -> Result<Vec<u8>, AllocError>
    ensures { IfOk result (λ text. text.items ≡ refusal_text fault.kind fault.line) }
{
    let text = fault.text(alloc)?;
    Vec::from_slice(alloc, text.as_bytes())
}

// The status of a report.
fn status_of(finding: Finding) -> Status
    ensures { IsReportStatus result }
{
    match finding {
        Finding::Explained => Status::Success,
        Finding::Unexplained => Status::Unexplained,
        Finding::Other => Status::NoAnswer,
    }
}
