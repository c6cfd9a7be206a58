//! What `judge` answers to a text.
ghost use Rattle.std.specs.Prelude.{◌≢◌, IfOk};
ghost use Rattle.mc_hints.specs.Refusals.{history_refusal};
ghost use Rattle.mc_model.specs.declared.rules.HistoryKind.TheVariants as kind;
ghost use Rattle.mc_answers.specs.{InJson.InJson, Refusing.Gives, Refusing.IfRefused, Refusing.IsRefusal};
ghost use Rattle.mc_answers.specs.JudgeAnswers as answers;
ghost use Rattle.mc_answers.specs.Judging as judging;

use crate::answer::Answer;
use crate::in_json::found_in_json;
use crate::outcome::{verdict_status, verdict_text};
use crate::refusal::{Unanswered, refuse};
use crate::status::Status;
use crate::timeline::{judge_timeline_text, refuse_key};
use crate::why::{Counted, why_text};
use mc_claims::confirms;
use mc_cli::{JudgeArgs, Search, SoughtKey};
use mc_convert::find_history;
use mc_hints::Refused;
use mc_history::{Explanation, HistoryFault, parse_history};
use mc_model::History;
use mc_protocol::fault_of_input;
use mc_timeline_text::begins_timeline;
use std::alloc::{AllocError, Global};

/// Judges as the line asks for it: the text, or the first history in what was printed or that of a job; in words or in JSON.
pub fn judge_as_asked(alloc: Global, args: JudgeArgs, text: &[u8]) -> Result<Answer, Unanswered>
    ensures { Gives (judging.JudgesAs args.entry text.now) result }
{
    judge_as(alloc, &args, text)
}

fn judge_as(alloc: Global, args: &JudgeArgs<'_>, text: &[u8]) -> Result<Answer, Unanswered>
    ensures { Gives (judging.JudgesAs args.now text.now) result }
{
    if args.json {
        judge_in_json(alloc, args, text)
    } else {
        judge_in(alloc, args, text)
    }
}

fn judge_in_json(alloc: Global, args: &JudgeArgs<'_>, text: &[u8]) -> Result<Answer, Unanswered>
    ensures { Gives (InJson (judging.JudgesIn args.now.run args.now text.now)) result }
{
    let found = judge_in(alloc, args, text);
    found_in_json(alloc, found)
}

// Judges the text, or a part of it.
fn judge_in(alloc: Global, args: &JudgeArgs<'_>, text: &[u8]) -> Result<Answer, Unanswered>
    ensures { Gives (judging.JudgesIn args.now.run args.now text.now) result }
{
    if args.run {
        judge_part(alloc, args, text)
    } else {
        judge_text(alloc, args, text)
    }
}

// Judges a part of the text, whose lines keep their numbers.
fn judge_part(alloc: Global, args: &JudgeArgs<'_>, text: &[u8]) -> Result<Answer, Unanswered>
    ensures { Gives (judging.JudgesPart args.now text.now) result }
{
    let part = find_history(text, args.job);
    let lines = part.after_blank_lines(alloc)?;
    judge_text(alloc, args, lines.as_slice())
}

// Judges a timeline, or a history whose clients are P, A and B.
fn judge_text(alloc: Global, args: &JudgeArgs<'_>, text: &[u8]) -> Result<Answer, Unanswered>
    ensures { Gives (judging.JudgesText args.now text.now) result }
{
    if begins_timeline(alloc, text)? {
        judge_timeline_text(alloc, args, text)
    } else {
        judge_history_text(alloc, args, text)
    }
}

// Judges a history, of which no key is judged alone.
fn judge_history_text(
    alloc: Global,
    args: &JudgeArgs<'_>,
    text: &[u8],
) -> Result<Answer, Unanswered>
    ensures { Gives (judging.JudgesHistoryFor args.now.key args.now.how text.now) result }
{
    match &args.key {
        Some(key) => judge_no_key(alloc, args.how.why, key, text),
        None => judge(alloc, args.how, text),
    }
}

// Reads a history, and refuses the key.
fn judge_no_key(
    alloc: Global,
    why: bool,
    key: &SoughtKey<'_>,
    text: &[u8],
) -> Result<Answer, Unanswered>
    ensures { Gives (judging.JudgesNoKey why key.now text.now) result }
{
    let _history = match parse_history(alloc, text) {
        Ok(read) => read,
        Err(fault) => return Err(refuse_history(alloc, why, text, fault)),
    };
    Err(refuse_key(alloc, key))
}

// Reads a history, and confirms its explanation, or searches for one.
fn judge(alloc: Global, how: Search, text: &[u8]) -> Result<Answer, Unanswered>
    ensures { Gives (answers.Judges how text.now) result }
{
    match parse_history(alloc, text) {
        Ok((history, claim)) => match claim {
            Some(claim) => Ok(confirm(alloc, &history, &claim)?),
            None => Ok(find_verdict(alloc, how, text, &history)?),
        },
        Err(fault) => Err(refuse_history(alloc, how.why, text, fault)),
    }
}

fn confirm(alloc: Global, history: &History, claim: &Explanation) -> Result<Answer, AllocError>
    ensures { IfOk result (λ answer. answers.Confirms history.now claim.now answer.output.items answer.status) }
{
    if confirms(alloc, history, claim)? {
        Ok(Answer {
            output: Vec::from_slice(alloc, b"confirmed\n")?,
            status: Status::Success,
        })
    } else {
        Ok(Answer {
            output: Vec::from_slice(alloc, b"not confirmed\n")?,
            status: Status::Unexplained,
        })
    }
}

fn find_verdict(
    alloc: Global,
    how: Search,
    text: &[u8],
    history: &History,
) -> Result<Answer, AllocError>
    ensures { IfOk result (λ answer. answers.JudgesHistory how text.now history.now answer.output.items answer.status) }
{
    let (verdict, _) = mc_explain::judge(alloc, history, how.limit)?;
    let why = why_text(alloc, how, Counted::Text(text), history, &verdict)?;
    let mut output = verdict_text(alloc, &verdict)?;
    output.extend_from_slice(why.as_slice())?;
    Ok(Answer {
        output,
        status: verdict_status(&verdict),
    })
}

/// The refusal of a text that is no history, with a hint if `why` asks for one.
pub fn refuse_history(alloc: Global, why: bool, text: &[u8], fault: HistoryFault) -> Unanswered
    ensures { IfRefused result (λ refusal. (fault.kind ≢ kind.OutOfMemory)
        × IsRefusal why (history_refusal fault.kind fault.line) refusal) }
{
    match fault_of_input(fault.kind) {
        Ok(_) => refuse(alloc, why, text, Refused::NoHistory(fault)),
        Err(_) => Unanswered::OutOfMemory,
    }
}
