//! The replies that would be explained at the place from which on nothing explains a history.
ghost use Rattle.std.specs.Prelude.{◌≡◌, ◌+◌, ◌<◌, ◌^◌, true, Some, IfOk, IfSome};
ghost use Rattle.mc_why.specs.Cuts.{cut as the_cut};
ghost use Rattle.mc_why.specs.Forms as forms;
ghost use Rattle.mc_why.specs.Trying as trying;

use crate::Form;
use crate::candidates::candidates;
use crate::cutting::cut;
use crate::replied::replied;
use crate::report::request_place;
use mc_explain::{Verdict, judge};
use mc_model::{History, Sent, copy_reply};
use mc_protocol::{Actor, Bytes, OutOfMemory, REQUESTS_LIMIT, Reply, Request, Verb};
use std::alloc::Global;

/// The most forms that are told.
const MOST: usize = 4;

/// One more than there are requests, so that one of as many numbers isn't shown.
const NUMBERS: u64 = 3 * REQUESTS_LIMIT as u64 + 1;

/// What is found of a candidate.
#[derive(Debug, Drop)]
pub(crate) enum Tried {
    /// It would be explained.
    Explained(Form),
    /// It wouldn't.
    Unexplained,
    /// The search for an explanation used up its turns.
    Undecided,
}

/// The forms of the replies that would be explained at the place. There are none if there would be more than four, if a search used up
/// its `limit` of turns, or if there are too many candidates.
pub(crate) fn forms_at(
    alloc: Global,
    history: &History,
    place: usize,
    limit: u64,
) -> Result<Vec<Form>, OutOfMemory>
    requires { place + 1 < 2 ^ 64 }
    ensures { IfOk result (λ told. forms.AreFormsAt history.now place told.items) }
{
    let before = cut(alloc, history, place)?;
    let up_to = cut(alloc, history, place + 1)?;
    let Some((actor, request)) = asked_at(history, &up_to, place) else {
        return Ok(Vec::new(alloc));
    };
    let number = new_number(&before, request.verb);
    match candidates(alloc, &before, &up_to, actor, request)? {
        Some(replies) => forms_among(alloc, history, place, replies.as_slice(), number, limit),
        None => Ok(Vec::new(alloc)),
    }
}

/// The section at the place, with its last request up to there, if that was answered.
fn asked_at<'a>(
    history: &History,
    up_to: &'a History,
    place: usize,
) -> Option<(Actor, &'a Request)> {
    let actor = section_at(history, place)?;
    match up_to.sent(actor).last() {
        Some(sent) if sent.reply.is_some() => Some((actor, &sent.request)),
        _ => None,
    }
}

/// The section of what stands at the place.
fn section_at(history: &History, place: usize) -> Option<Actor> {
    match history.notes() {
        Some(notes) => notes.get(place).map(|noted| noted.0),
        None => Some(request_place(history, place).0),
    }
}

/// The smallest number from 1 that was not shown before, for a `gets`.
fn new_number(before: &History, verb: Verb) -> Option<u64>
    ensures { IfSome result (λ number. forms.shows_nowhere number before.now ≡ true) }
{
    match verb {
        Verb::Gets => (1..=NUMBERS).find(|number| is_shown_nowhere(before, *number)),
        _ => None,
    }
}

fn is_shown_nowhere(history: &History, number: u64) -> bool
    ensures { result ≡ forms.shows_nowhere number history.now }
{
    lacks_number(history.sent(Actor::P), number)
        && lacks_number(history.sent(Actor::A), number)
        && lacks_number(history.sent(Actor::B), number)
}

/// Whether no reply of the section shows the number.
fn lacks_number(section: &[Sent], number: u64) -> bool
    ensures { result ≡ trying.lacks_number number section.now }
{
    section.iter().all(|sent| !shows_number(sent, number))
}

fn shows_number(sent: &Sent, number: u64) -> bool
    ensures { result ≡ trying.shows_number number sent.now.reply }
{
    match &sent.reply {
        Some(Reply::Hit { cas: Some(cas), .. }) => *cas == number,
        _ => false,
    }
}

/// The forms of those of the candidates that would be explained.
fn forms_among(
    alloc: Global,
    history: &History,
    place: usize,
    replies: &[Reply],
    number: Option<u64>,
    limit: u64,
) -> Result<Vec<Form>, OutOfMemory>
    requires { trying.IsNewAt history.now place number }
    ensures { IfOk result (λ told. forms.AreFormsAt history.now place told.items) }
{
    let mut told = Vec::new(alloc);
    'replies: for reply in replies {
        match try_candidate(alloc, history, place, reply, number, limit)? {
            Tried::Explained(form) => {
                if told.len() == MOST {
                    return Ok(Vec::new(alloc));
                }
                told.push(form)?;
            }
            Tried::Unexplained => {}
            Tried::Undecided => return Ok(Vec::new(alloc)),
        }
    }
    Ok(told)
}

/// Judges a candidate. If there is a new number, a hit without one stands for a hit with the new one.
fn try_candidate(
    alloc: Global,
    history: &History,
    place: usize,
    reply: &Reply,
    number: Option<u64>,
    limit: u64,
) -> Result<Tried, OutOfMemory>
    requires { trying.IsNewAt history.now place number }
    ensures { IfOk result (trying.IsTriedAt history.now place) }
{
    match (reply, number) {
        (
            Reply::Hit {
                flags,
                body,
                cas: None,
            },
            Some(number),
        ) => try_number(alloc, history, place, (*flags, body), number, limit),
        _ => try_reply(alloc, history, place, reply, limit),
    }
}

/// Judges a hit with a new number.
fn try_number(
    alloc: Global,
    history: &History,
    place: usize,
    item: (u32, &Bytes),
    number: u64,
    limit: u64,
) -> Result<Tried, OutOfMemory>
    requires { forms.shows_nowhere number (the_cut place history.now) ≡ true }
    ensures { IfOk result (trying.IsTriedAt history.now place) }
{
    let (flags, body) = item;
    let reply = Reply::Hit {
        flags,
        body: body.copy(alloc)?,
        cas: Some(number),
    };
    let form = Form::NewNumber {
        flags,
        body: body.copy(alloc)?,
        number,
    };
    let answer = is_explained(alloc, history, place, reply, limit)?;
    Ok(outcome(answer, form))
}

/// Judges a reply.
fn try_reply(
    alloc: Global,
    history: &History,
    place: usize,
    reply: &Reply,
    limit: u64,
) -> Result<Tried, OutOfMemory>
    ensures { IfOk result (trying.IsTriedAt history.now place) }
{
    let form = Form::Reply(copy_reply(reply, alloc)?);
    let answer = is_explained(alloc, history, place, copy_reply(reply, alloc)?, limit)?;
    Ok(outcome(answer, form))
}

/// What is found of the form by the answer whether it would be explained.
fn outcome(answer: Option<bool>, form: Form) -> Tried
    ensures { trying.IsTriedBy answer form result }
{
    match answer {
        Some(true) => Tried::Explained(form),
        Some(false) => Tried::Unexplained,
        None => Tried::Undecided,
    }
}

/// Whether the history has an explanation with this reply at the place. `None` if the search for one used up its turns.
fn is_explained(
    alloc: Global,
    history: &History,
    place: usize,
    reply: Reply,
    limit: u64,
) -> Result<Option<bool>, OutOfMemory>
    ensures { IfOk result (λ answer. answer ≡ Some true → forms.WouldBeExplained history.now place reply) }
{
    let Some(other) = replied(alloc, history, place, reply)? else {
        return Ok(Some(false));
    };
    let (verdict, _) = judge(alloc, &other, limit)?;
    Ok(match verdict {
        Verdict::Explained(_) => Some(true),
        Verdict::Unexplained => Some(false),
        Verdict::Undecided => None,
    })
}
