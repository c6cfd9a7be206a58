//! What `drive` answers to a text: a script, and after it a step list.
ghost use Rattle.std.specs.Prelude.{◌≡◌, IfOk};
ghost use Rattle.mc_protocol.specs.{Lines.line_count, Lines.lines_of_text, declared.lines.Separator.TheVariants.Space};
ghost use Rattle.mc_answers.specs.DriveAnswers as answers;
ghost use Rattle.mc_answers.specs.Refusing.{Gives, IfRefused};

use crate::answer::Answer;
use crate::loading::{load_front, sound_code};
use crate::outcome::{endings_text, status_of_run, verdict_text};
use crate::refusal::{Unanswered, refuse};
use crate::steps::take_steps;
use crate::why::{Counted, why_text};
use mc_cli::Search;
use mc_core::World;
use mc_explain::Verdict;
use mc_hints::Refused;
use mc_history::{StepsFault, parse_steps};
use mc_protocol::{Actor, Event, Lines, Separator, fault_of_input};
use mc_sound::Checked;
use std::alloc::{AllocError, Global};

/// Reads a script and the steps after it, leads the script's code through the steps, and judges what they came to.
pub fn drive(alloc: Global, how: Search, text: &[u8]) -> Result<Answer, Unanswered>
    ensures { Gives (answers.Drives how.why text.now) result }
{
    match load_front(alloc, text)? {
        Ok((code, size)) => {
            let script = &text[..size.min(text.len())];
            let checked = sound_code(alloc, how.why, script, code)?;
            drive_steps(alloc, how, &checked, text, size)
        }
        Err(fault) => Err(refuse(alloc, how.why, text, Refused::NoCode(fault))),
    }
}

// Leads the code of the text's first `size` bytes through the steps after them.
fn drive_steps(
    alloc: Global,
    how: Search,
    checked: &Checked,
    text: &[u8],
    size: usize,
) -> Result<Answer, Unanswered>
    requires { answers.BeginsWith text.now checked.now.code size }
    ensures { Gives (answers.Drives how.why text.now) result }
{
    let (front, list) = text.split_at(size);
    let before = count_lines(front);
    match parse_steps(alloc, list, before.saturating_add(1)) {
        Ok(steps) => Ok(lead(alloc, how, checked, steps, before, list)?),
        Err(fault) => Err(refuse_steps(alloc, how.why, text, fault)),
    }
}

// Leads the code through the steps, which the text `list` spells after `before` lines.
fn lead(
    alloc: Global,
    how: Search,
    checked: &Checked,
    steps: Vec<(Actor, Event)>,
    before: u32,
    list: &[u8],
) -> Result<Answer, AllocError>
    ensures { IfOk result (λ answer. answers.Leads how.why checked.now.code steps.items before list.now
        answer.output.items answer.status) }
{
    let taken = take_steps(alloc, checked, steps)?;
    let history = taken.world.history(alloc, checked)?;
    let (verdict, _) = mc_explain::judge(alloc, &history, how.limit)?;
    let counts = Counted::Steps(before, list, taken.makers.as_slice());
    let why = why_text(alloc, how, counts, &history, &verdict)?;
    let output = ended_text(alloc, &taken.world, taken.skipped, &verdict, why.as_slice())?;
    Ok(Answer {
        output,
        status: status_of_run(&taken.world, &verdict),
    })
}

// How many lines the text has.
fn count_lines(text: &[u8]) -> u32
    ensures { result ≡ line_count (lines_of_text Space text.now) }
{
    let mut lines = Lines::new(text, Separator::Space);
    'lines: while lines.next().is_some() {}
    lines.number()
}

fn refuse_steps(alloc: Global, why: bool, text: &[u8], fault: StepsFault) -> Unanswered
    ensures { IfRefused result (answers.NamesFault why fault.kind fault.line) }
{
    match fault_of_input(fault.kind) {
        Ok(_) => refuse(alloc, why, text, Refused::NoSteps(fault)),
        Err(_) => Unanswered::OutOfMemory,
    }
}

fn ended_text(
    alloc: Global,
    world: &World,
    skipped: u64,
    verdict: &Verdict,
    why: &[u8],
) -> Result<Vec<u8>, AllocError>
    ensures { IfOk result (λ text. text.items ≡ answers.ended_text world.now skipped verdict.now why.now) }
{
    let endings = endings_text(alloc, world)?;
    let verdict = verdict_text(alloc, verdict)?;
    let mut text = format!(in alloc; "skipped {skipped}\n{endings}")?.into_bytes();
    text.extend_from_slice(verdict.as_slice())?;
    text.extend_from_slice(why)?;
    Ok(text)
}
