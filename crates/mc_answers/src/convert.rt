//! What `convert` answers to a text.
ghost use Rattle.mc_answers.specs.ConvertAnswers as answers;
ghost use Rattle.mc_answers.specs.Refusing.{Gives};

use crate::answer::Answer;
use crate::judge::refuse_history;
use crate::refusal::{Unanswered, refuse};
use crate::status::Status;
use mc_cli::{ConvertArgs, Notation};
use mc_convert::{Converted, Form, convert_timeline, find_history};
use mc_hints::Refused;
use mc_linearize::TimelineExplanation;
use mc_timeline::{Timeline, print_timeline};
use mc_timeline_text::{begins_timeline, parse_timeline, print_timeline_explanation};
use std::alloc::{AllocError, Global};

// What is written for a history that keeps no order, if EDN is wanted.
const NO_ORDER: &[u8] = b"refused edn\n";

/// Converts the first history of the text, or that of a job.
pub fn convert(alloc: Global, args: ConvertArgs, text: &[u8]) -> Result<Answer, Unanswered>
    ensures { Gives answers.Converts result }
{
    let form = match args.to {
        Notation::Json => Form::Json,
        Notation::Edn => Form::Edn,
    };
    if begins_timeline(alloc, find_history(text, args.job).text)? {
        return convert_first(alloc, text, form, args.job);
    }
    match mc_convert::convert(alloc, text, form, args.job)? {
        Converted::Written(output) => Ok(Answer {
            output,
            status: Status::Success,
        }),
        Converted::Refused(fault) => Err(refuse(alloc, false, text, Refused::NoHistory(fault))),
        Converted::NoOrder => Err(Unanswered::Refused(Vec::from_slice(alloc, NO_ORDER)?)),
    }
}

// Converts the first history of the text, or that of a job, which is a timeline.
fn convert_first(
    alloc: Global,
    text: &[u8],
    form: Form,
    job: Option<u64>,
) -> Result<Answer, Unanswered>
    ensures { Gives answers.Converts result }
{
    let lines = find_history(text, job).after_blank_lines(alloc)?;
    match parse_timeline(alloc, lines.as_slice()) {
        Ok((timeline, claim)) => {
            let printed = printed_timeline(alloc, &timeline, &claim)?;
            Ok(Answer {
                output: convert_timeline(alloc, text, form, job, printed.as_slice())?,
                status: Status::Success,
            })
        }
        Err(fault) => Err(refuse_history(alloc, false, text, fault)),
    }
}

// The lines of a timeline, and those of the order that its text claims after `explain`.
fn printed_timeline(
    alloc: Global,
    timeline: &Timeline,
    claim: &Option<TimelineExplanation>,
) -> Result<Vec<u8>, AllocError> {
    let mut printed = Vec::new(alloc);
    print_timeline(timeline, &mut printed)?;
    if let Some(claim) = claim {
        printed.extend_from_slice(b"explain\n")?;
        print_timeline_explanation(claim, &mut printed)?;
    }
    Ok(printed)
}
