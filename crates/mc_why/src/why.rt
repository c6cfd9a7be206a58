//! Why nothing explains a history.
ghost use Rattle.std.specs.Prelude.{◌+◌, ◌<◌, ◌^◌, IfOk};
ghost use Rattle.mc_explain.specs.Hopeless.{IsUnexplained};
ghost use Rattle.mc_why.specs.Answering.{IsAnswerToNext, IsAnswerToUnanswered};
ghost use Rattle.mc_why.specs.{Answers.IsAnswerIn, Causes.AreAnswersAt, Causes.IsFoundOf};

use crate::cutting::cut;
use crate::forms::forms_at;
use crate::locating::{Located, locate};
use crate::moved::{cache_after, count_moves, first_unanswered, nth_move, reply_of};
use crate::{Answer, Cause, Finding};
use mc_explain::Explanation;
use mc_model::{Choice, History};
use mc_protocol::{Actor, OutOfMemory, Sections};
use std::alloc::Global;

/// The choice that pads nothing, and refuses no body that may be a number.
const PLAIN: Choice = Choice {
    pad: false,
    read: true,
};

/// From which place on nothing explains the history, what explains the part before it, what a cache answers there, and which replies
/// would be explained. Each search for an explanation takes at most `limit` turns. If a search for the place uses them up, only the
/// place is answered. If a search for a reply does, no reply is told.
///
/// # Errors
///
/// That memory ran out.
pub fn why_unexplained(alloc: Global, history: &History, limit: u64) -> Result<Finding, OutOfMemory>
    requires { IsUnexplained history.now }
    ensures { IfOk result (IsFoundOf history.now) }
{
    match locate(alloc, history, limit)? {
        Located::At(place, explanation) => {
            let answers = answers_at(alloc, history, place, &explanation)?;
            let forms = forms_at(alloc, history, place, limit)?;
            Ok(Finding::Cause(Cause {
                place,
                explanation,
                answers,
                forms,
            }))
        }
        Located::Undecided(place) => Ok(Finding::Undecided(place)),
    }
}

/// What a cache answers to each section after the explanation of what stands before the place.
fn answers_at(
    alloc: Global,
    history: &History,
    place: usize,
    explanation: &Explanation,
) -> Result<Sections<Option<Answer>>, OutOfMemory>
    requires { place + 1 < 2 ^ 64 }
    ensures { IfOk result (AreAnswersAt history.now place explanation.now) }
{
    let before = cut(alloc, history, place)?;
    let up_to = cut(alloc, history, place + 1)?;
    Ok(Sections {
        p: answer_in(alloc, &before, &up_to, explanation, Actor::P)?,
        a: answer_in(alloc, &before, &up_to, explanation, Actor::A)?,
        b: answer_in(alloc, &before, &up_to, explanation, Actor::B)?,
    })
}

/// What a cache answers to a section's next request up to a place, or else to one before the place that was not answered.
fn answer_in(
    alloc: Global,
    before: &History,
    up_to: &History,
    explanation: &Explanation,
    actor: Actor,
) -> Result<Option<Answer>, OutOfMemory>
    ensures { IfOk result (IsAnswerIn before.now.sections up_to.now.sections explanation.now actor) }
{
    match answer_to_next(alloc, up_to, explanation, actor)? {
        Some(answer) => Ok(Some(answer)),
        None => answer_to_unanswered(alloc, before, explanation, actor),
    }
}

/// What a cache answers to the section's next request after all moves, if there is one.
fn answer_to_next(
    alloc: Global,
    history: &History,
    explanation: &Explanation,
    actor: Actor,
) -> Result<Option<Answer>, OutOfMemory>
    ensures { IfOk result (IsAnswerToNext history.now.sections explanation.now actor) }
{
    let moves = explanation.order.as_slice();
    let place = count_moves(actor, moves);
    let Some(sent) = history.sent(actor).get(place) else {
        return Ok(None);
    };
    let cache = cache_after(alloc, history, explanation.start.as_slice(), moves)?;
    let reply = reply_of(alloc, &cache, &sent.request, PLAIN)?;
    Ok(Some(Answer::Next { place, reply }))
}

/// What a cache answers to the section's request that was not answered, where a move lets it act.
fn answer_to_unanswered(
    alloc: Global,
    history: &History,
    explanation: &Explanation,
    actor: Actor,
) -> Result<Option<Answer>, OutOfMemory>
    ensures { IfOk result (IsAnswerToUnanswered history.now.sections explanation.now actor) }
{
    let section = history.sent(actor);
    let Some(place) = first_unanswered(section) else {
        return Ok(None);
    };
    let moves = explanation.order.as_slice();
    let Some((index, by)) = nth_move(actor, place, moves) else {
        return Ok(None);
    };
    let cache = cache_after(
        alloc,
        history,
        explanation.start.as_slice(),
        &moves[..index],
    )?;
    let reply = reply_of(alloc, &cache, &section[place].request, by.choice)?;
    Ok(Some(Answer::Acted { place, reply }))
}
