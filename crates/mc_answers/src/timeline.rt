//! What `judge` answers to the text of a timeline.
ghost use Rattle.std.specs.Prelude.{◌≡◌, IfOk};
ghost use Rattle.std.specs.List.{list_any};
ghost use Rattle.mc_answers.specs.TimelineAnswers as answers;
ghost use Rattle.mc_answers.specs.Refusing.{Gives, IfRefused};

use crate::answer::Answer;
use crate::judge::refuse_history;
use crate::refusal::Unanswered;
use crate::status::Status;
use crate::timeline_why::{key_reasons_text, reasons_text};
use mc_cli::{JudgeArgs, SoughtKey};
use mc_linearize::{
    KeyVerdict, TimelineExplanation, TimelineVerdict, confirm_timeline, judge_key, judge_timeline,
};
use mc_model::Note;
use mc_protocol::{Bytes, append_all};
use mc_timeline::Timeline;
use mc_timeline_text::{parse_timeline, print_timeline_explanation};
use std::alloc::{AllocError, Global};
use std::collections::BTreeMap;

/// The most turns for a key if the line names no limit, and the key has few requests.
const LEAST_LIMIT: u64 = 1_000_000;

/// How many turns each request of a key adds to a greater limit.
const TURNS_OF_REQUEST: u64 = 100;

/// Reads a timeline, and judges it as the line asks for it: all keys or one.
pub fn judge_timeline_text(
    alloc: Global,
    args: &JudgeArgs<'_>,
    text: &[u8],
) -> Result<Answer, Unanswered>
    ensures { Gives (answers.JudgesTimelineFor args.now.key args.now text.now) result }
{
    match &args.key {
        Some(key) => judge_on_key(alloc, args, key, text),
        None => judge_whole(alloc, args, text),
    }
}

// Confirms the explanation of the timeline, or judges each key.
fn judge_whole(alloc: Global, args: &JudgeArgs<'_>, text: &[u8]) -> Result<Answer, Unanswered>
    ensures { Gives (answers.JudgesWhole args.now text.now) result }
{
    match parse_timeline(alloc, text) {
        Ok((timeline, claim)) => match claim {
            Some(claim) => Ok(confirm(alloc, &timeline, &claim)?),
            None => Ok(judge_all(alloc, args, text, &timeline)?),
        },
        Err(fault) => Err(refuse_history(alloc, args.how.why, text, fault)),
    }
}

// Judges one key, if the timeline has it and comes without an explanation.
fn judge_on_key(
    alloc: Global,
    args: &JudgeArgs<'_>,
    key: &SoughtKey<'_>,
    text: &[u8],
) -> Result<Answer, Unanswered>
    ensures { Gives (answers.JudgesOnKey args.now key.now text.now) result }
{
    let (timeline, claim) = match parse_timeline(alloc, text) {
        Ok(read) => read,
        Err(fault) => return Err(refuse_history(alloc, args.how.why, text, fault)),
    };
    if !is_judged_on(key.as_bytes(), &timeline, &claim) {
        return Err(refuse_key(alloc, key));
    }
    Ok(judge_one(alloc, args, text, key.as_bytes(), &timeline)?)
}

// Whether the key is one of the timeline, and no explanation is claimed.
fn is_judged_on(key: &[u8], timeline: &Timeline, claim: &Option<TimelineExplanation>) -> bool
    ensures { result ≡ answers.is_judged_on key.now timeline.now claim.now }
{
    match claim {
        Some(_) => false,
        None => has_key(key, timeline.notes()),
    }
}

// Whether a request on the key begins in these notes.
fn has_key(key: &[u8], notes: &[(u8, Note)]) -> bool
    ensures { result ≡ list_any (answers.begins_on key.now) notes.now }
{
    notes.iter().any(|noted| begins_on(key, noted))
}

// Whether the note is that a request on the key begins.
fn begins_on(key: &[u8], noted: &(u8, Note)) -> bool
    ensures { result ≡ answers.begins_on key.now noted.now }
{
    match noted {
        (_, Note::Begin(request)) => request.key.as_slice() == key,
        (_, Note::Reply(_)) => false,
    }
}

/// The refusal of a key that isn't judged.
pub fn refuse_key(alloc: Global, key: &SoughtKey<'_>) -> Unanswered
    ensures { IfRefused result (λ text. text ≡ answers.refused_key_text key.now) }
{
    let mut text = Vec::new(alloc);
    match append_all(&mut text, &[b"refused key ", key.as_bytes(), b"\n"]) {
        Ok(()) => Unanswered::Refused(text),
        Err(_) => Unanswered::OutOfMemory,
    }
}

fn confirm(
    alloc: Global,
    timeline: &Timeline,
    claim: &TimelineExplanation,
) -> Result<Answer, AllocError>
    ensures { IfOk result (λ answer. answers.ConfirmsTimeline timeline.now claim.now answer.output.items answer.status) }
{
    if confirm_timeline(alloc, timeline, claim)? {
        Ok(Answer {
            output: Vec::from_slice(alloc, b"confirmed\n")?,
            status: Status::Success,
        })
    } else {
        Ok(Answer {
            output: Vec::from_slice(alloc, b"not confirmed\n")?,
            status: Status::Unexplained,
        })
    }
}

fn judge_all(
    alloc: Global,
    args: &JudgeArgs<'_>,
    text: &[u8],
    timeline: &Timeline,
) -> Result<Answer, AllocError>
    ensures { IfOk result (λ answer.
        answers.JudgesTimeline args.now.limit args.now.how.why text.now timeline.now answer.output.items answer.status) }
{
    let limit = limit_of(args.limit, most_requests(alloc, timeline)?);
    let (verdict, _) = judge_timeline(alloc, timeline, limit)?;
    let reasons = reasons_text(alloc, args.how.why, limit, text, timeline, &verdict)?;
    let mut output = timeline_text(alloc, &verdict)?;
    output.extend_from_slice(reasons.as_slice())?;
    Ok(Answer {
        output,
        status: timeline_status(&verdict),
    })
}

fn judge_one(
    alloc: Global,
    args: &JudgeArgs<'_>,
    text: &[u8],
    key: &[u8],
    timeline: &Timeline,
) -> Result<Answer, AllocError>
    ensures { IfOk result (λ answer.
        answers.JudgesKey args.now.limit args.now.how.why text.now timeline.now key.now answer.output.items answer.status) }
{
    let limit = limit_of(args.limit, requests_on(key, timeline));
    let bytes = Bytes::new(Vec::from_slice(alloc, key)?);
    let (verdict, _) = judge_key(alloc, timeline, &bytes, limit)?;
    let reasons = key_reasons_text(alloc, args.how.why, limit, text, timeline, &bytes, &verdict)?;
    let mut output = key_text(alloc, key, &verdict)?;
    output.extend_from_slice(reasons.as_slice())?;
    Ok(Answer {
        output,
        status: key_status(&verdict),
    })
}

// The most turns for a key with this many requests.
fn limit_of(given: Option<u64>, requests: u64) -> u64
    ensures { answers.IsLimit given result }
{
    match given {
        Some(limit) => limit,
        None => LEAST_LIMIT.max(TURNS_OF_REQUEST.saturating_mul(requests)),
    }
}

// How many requests the timeline has on the key.
fn requests_on(key: &[u8], timeline: &Timeline) -> u64 {
    let mut count: u64 = 0;
    'notes: for noted in timeline.notes() {
        if begins_on(key, noted) {
            count = count.saturating_add(1);
        }
    }
    count
}

// How many requests the timeline has on the key that has the most.
fn most_requests(alloc: Global, timeline: &Timeline) -> Result<u64, AllocError> {
    let mut counts: BTreeMap<&[u8], u64> = BTreeMap::new(alloc);
    let mut most = 0;
    'notes: for (_client, note) in timeline.notes() {
        if let Note::Begin(request) = note {
            let key = request.key.as_slice();
            let count = counts.get(key).copied().unwrap_or(0).saturating_add(1);
            counts.insert(key, count)?;
            most = count.max(most);
        }
    }
    Ok(most)
}

// The text of a verdict on all keys.
fn timeline_text(alloc: Global, verdict: &TimelineVerdict) -> Result<Vec<u8>, AllocError>
    ensures { IfOk result (λ text. text.items ≡ answers.timeline_text verdict.now) }
{
    match verdict {
        TimelineVerdict::Explained(explanation) => {
            explanation_text(Vec::from_slice(alloc, b"explained\n")?, explanation)
        }
        TimelineVerdict::Unexplained(key) => named_text(alloc, b"unexplained\n", key.as_slice()),
        TimelineVerdict::Undecided(key) => named_text(alloc, b"undecided\n", key.as_slice()),
    }
}

fn timeline_status(verdict: &TimelineVerdict) -> Status
    ensures { result ≡ answers.timeline_status verdict.now }
{
    match verdict {
        TimelineVerdict::Explained(_) => Status::Success,
        TimelineVerdict::Unexplained(_) => Status::Unexplained,
        TimelineVerdict::Undecided(_) => Status::NoAnswer,
    }
}

// The text of a verdict on one key.
fn key_text(alloc: Global, key: &[u8], verdict: &KeyVerdict) -> Result<Vec<u8>, AllocError>
    ensures { IfOk result (λ text. text.items ≡ answers.key_text key.now verdict.now) }
{
    match verdict {
        KeyVerdict::Explained(explanation) => {
            explanation_text(named_text(alloc, b"explained\n", key)?, explanation)
        }
        KeyVerdict::Unexplained => named_text(alloc, b"unexplained\n", key),
        KeyVerdict::Undecided => named_text(alloc, b"undecided\n", key),
    }
}

fn key_status(verdict: &KeyVerdict) -> Status
    ensures { result ≡ answers.key_status verdict.now }
{
    match verdict {
        KeyVerdict::Explained(_) => Status::Success,
        KeyVerdict::Unexplained => Status::Unexplained,
        KeyVerdict::Undecided => Status::NoAnswer,
    }
}

// The line of a verdict, and that of a key.
fn named_text(alloc: Global, verdict: &[u8], key: &[u8]) -> Result<Vec<u8>, AllocError>
    ensures { IfOk result (λ text. text.items ≡ answers.named_text verdict.now key.now) }
{
    let mut text = Vec::new(alloc);
    append_all(&mut text, &[verdict, b"key ", key, b"\n"])?;
    Ok(text)
}

// The lines of an explanation, and `end`, after this front.
fn explanation_text(
    front: Vec<u8>,
    explanation: &TimelineExplanation,
) -> Result<Vec<u8>, AllocError>
    ensures { IfOk result (λ text. text.items ≡ answers.explanation_text front.items explanation.now) }
{
    let mut text = front;
    print_timeline_explanation(explanation, &mut text)?;
    text.extend_from_slice(b"end\n")?;
    Ok(text)
}
