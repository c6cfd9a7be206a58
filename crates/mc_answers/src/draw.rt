//! What `draw` answers to a text.
ghost use Rattle.mc_answers.specs.DrawAnswers as answers;
ghost use Rattle.mc_answers.specs.Refusing.{Gives};

use crate::answer::Answer;
use crate::refusal::{Unanswered, refuse};
use crate::status::Status;
use crate::timeline::refuse_key;
use mc_cli::{DrawArgs, SoughtKey};
use mc_convert::find_history;
use mc_draw::{Drawing, Form};
use mc_hints::Refused;
use mc_timeline_draw::draw_only;
use mc_timeline_text::begins_timeline;
use std::alloc::{AllocError, Global};

/// Draws the first history of the text, or that of a job; of a timeline one key.
pub fn draw(alloc: Global, how: DrawArgs<'_>, text: &[u8]) -> Result<Answer, Unanswered>
    ensures { Gives answers.Draws result }
{
    match &how.key {
        Some(key) => draw_sought(alloc, &how, key, text),
        None => {
            let drawing = draw_first(alloc, &how, text)?;
            answer_with(alloc, text, drawing)
        }
    }
}

// Draws the key. A history that is no timeline has none.
fn draw_sought(
    alloc: Global,
    how: &DrawArgs<'_>,
    key: &SoughtKey<'_>,
    text: &[u8],
) -> Result<Answer, Unanswered>
    ensures { Gives answers.Draws result }
{
    let drawing = if is_timeline(alloc, how, text)? {
        draw_only(
            alloc,
            text,
            form_of(how),
            how.limit,
            how.job,
            key.as_bytes(),
        )?
    } else {
        refused_of(draw_first(alloc, how, text)?)
    };
    match drawing {
        Some(drawing) => answer_with(alloc, text, drawing),
        None => Err(refuse_key(alloc, key)),
    }
}

// What comes of a text without such a history.
fn refused_of(drawing: Drawing) -> Option<Drawing> {
    match drawing {
        Drawing::Drawn(_) => None,
        Drawing::Refused(fault) => Some(Drawing::Refused(fault)),
    }
}

fn answer_with(alloc: Global, text: &[u8], drawing: Drawing) -> Result<Answer, Unanswered>
    ensures { Gives answers.Draws result }
{
    match drawing {
        Drawing::Drawn(output) => Ok(Answer {
            output,
            status: Status::Success,
        }),
        Drawing::Refused(fault) => Err(refuse(alloc, false, text, Refused::NoHistory(fault))),
    }
}

// The picture of the first history, or that of a job, which may be a timeline.
fn draw_first(alloc: Global, how: &DrawArgs<'_>, text: &[u8]) -> Result<Drawing, AllocError> {
    if is_timeline(alloc, how, text)? {
        mc_timeline_draw::draw(alloc, text, form_of(how), how.limit, how.job)
    } else {
        mc_draw::draw(alloc, text, form_of(how), how.limit, how.job)
    }
}

fn is_timeline(alloc: Global, how: &DrawArgs<'_>, text: &[u8]) -> Result<bool, AllocError> {
    begins_timeline(alloc, find_history(text, how.job).text)
}

fn form_of(how: &DrawArgs<'_>) -> Form {
    if how.text {
        Form::Text { lines: how.lines }
    } else {
        Form::Svg
    }
}
