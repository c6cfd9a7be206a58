//! What came of a run, or of a history: how the sections ended, and the verdict; their texts, and the exit status.
ghost use Rattle.std.specs.Prelude.{◌≡◌, IfOk, string_bytes};
ghost use Rattle.mc_answers.specs.Endings as endings;
ghost use Rattle.mc_answers.specs.Statuses.{status_number};
ghost use Rattle.mc_answers.specs.Verdicts as verdicts;

use crate::status::Status;
use mc_core::{Ending, World};
use mc_explain::Verdict;
use mc_history::{Explanation, print_explanation};
use mc_protocol::{Actor, Fault};
use mc_sound::Checked;
use std::alloc::{AllocError, Global};

/// A line for each section: how it stands.
pub fn endings_text(alloc: Global, world: &World) -> Result<String, AllocError>
    ensures { IfOk result (λ text. string_bytes text ≡ endings.endings_text world.now.endings) }
{
    let p = ending_line(alloc, Actor::P, world.ending(Actor::P))?;
    let a = ending_line(alloc, Actor::A, world.ending(Actor::A))?;
    let b = ending_line(alloc, Actor::B, world.ending(Actor::B))?;
    format!(in alloc; "{p}{a}{b}")
}

fn ending_line(alloc: Global, actor: Actor, ending: Ending) -> Result<String, AllocError>
    ensures { IfOk result (λ line. string_bytes line ≡ endings.ending_line actor ending) }
{
    let section = actor.word();
    match ending {
        Ending::NotBegun => format!(in alloc; "{section} not begun\n"),
        Ending::Running => format!(in alloc; "{section} running\n"),
        Ending::Done => format!(in alloc; "{section} done\n"),
        Ending::Failed(fault) => {
            let number = fault.number();
            let name = fault.name();
            format!(in alloc; "{section} failed {number} {name}\n")
        }
    }
}

/// The text of a verdict. That of an explanation is its lines and `end` after `explained`.
pub fn verdict_text(alloc: Global, verdict: &Verdict) -> Result<Vec<u8>, AllocError>
    ensures { IfOk result (λ text. text.items ≡ verdicts.verdict_text verdict.now) }
{
    match verdict {
        Verdict::Explained(explanation) => explained_text(alloc, explanation),
        Verdict::Unexplained => Vec::from_slice(alloc, b"unexplained\n"),
        Verdict::Undecided => Vec::from_slice(alloc, b"undecided\n"),
    }
}

fn explained_text(alloc: Global, explanation: &Explanation) -> Result<Vec<u8>, AllocError>
    ensures { IfOk result (λ text. text.items ≡ verdicts.explained_text explanation.now) }
{
    let mut text = Vec::from_slice(alloc, b"explained\n")?;
    print_explanation(explanation, &mut text)?;
    text.extend_from_slice(b"end\n")?;
    Ok(text)
}

/// The exit status of a verdict.
pub fn verdict_status(verdict: &Verdict) -> Status
    ensures { result ≡ verdicts.verdict_status verdict.now }
{
    match verdict {
        Verdict::Explained(_) => Status::Success,
        Verdict::Unexplained => Status::Unexplained,
        Verdict::Undecided => Status::NoAnswer,
    }
}

/// What the program exits with after a run of this code: 0 where all sections are done and the verdict is an explanation;
/// 1 where there is none, or what a section received is no reply; and else 4.
pub fn run_status(_checked: &Checked, world: &World, verdict: &Verdict) -> u8
    ensures { result ≡ status_number (endings.run_status world.now.endings verdict.now) }
{
    status_of_run(world, verdict).number()
}

/// The same as a status.
pub fn status_of_run(world: &World, verdict: &Verdict) -> Status
    ensures { result ≡ endings.run_status world.now.endings verdict.now }
{
    let p = ending_status(world.ending(Actor::P));
    let a = ending_status(world.ending(Actor::A));
    let b = ending_status(world.ending(Actor::B));
    verdict_status(verdict).joined(p).joined(a).joined(b)
}

fn ending_status(ending: Ending) -> Status
    ensures { result ≡ endings.ending_status ending }
{
    match ending {
        Ending::Done => Status::Success,
        Ending::Failed(Fault::BadReply) => Status::Unexplained,
        Ending::NotBegun | Ending::Running | Ending::Failed(_) => Status::NoAnswer,
    }
}
