//! An answer in JSON.
ghost use Rattle.std.specs.Prelude.{◌≡◌, IfOk};
ghost use Rattle.mc_answers.specs.{InJson.HasStatusOf, Refusing.Gives};

use crate::answer::Answer;
use crate::refusal::Unanswered;
use mc_convert::report_json;
use std::alloc::{AllocError, Global};

// The same answer in JSON, with its status.
fn in_json(alloc: Global, answer: Answer) -> Result<Answer, AllocError>
    ensures { IfOk result (λ json. json.status ≡ answer.status) }
{
    let Answer { output, status } = answer;
    let output = report_json(alloc, output.as_slice())?;
    Ok(Answer { output, status })
}

/// The same answer or refusal in JSON, with its status.
pub fn found_in_json(alloc: Global, found: Result<Answer, Unanswered>) -> Result<Answer, Unanswered>
    ensures { Gives (HasStatusOf found) result }
{
    match found {
        Ok(answer) => Ok(in_json(alloc, answer)?),
        Err(Unanswered::Refused(text)) => {
            Err(Unanswered::Refused(report_json(alloc, text.as_slice())?))
        }
        Err(Unanswered::OutOfMemory) => Err(Unanswered::OutOfMemory),
    }
}
