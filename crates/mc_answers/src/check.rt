//! What `check` answers to an input.
ghost use Rattle.std.specs.Prelude.{◌≡◌, IfOk, string_bytes, true};
ghost use Rattle.mc_sound.specs.Checked.{IsChecked};
ghost use Rattle.mc_answers.specs.CheckAnswers as answers;
ghost use Rattle.mc_answers.specs.{InJson.InJson, Refusing.Gives};

use crate::answer::Answer;
use crate::in_json::found_in_json;
use crate::loading::{load, sound_code};
use crate::refusal::{Unanswered, refuse};
use crate::status::Status;
use mc_cli::CheckArgs;
use mc_code::Code;
use mc_hints::Refused;
use mc_protocol::{Actor, Sections};
use mc_verify::{Checked, Cost};
use std::alloc::{AllocError, Global};

/// Checks as the line asks for it: in words, or in JSON, which has the hint too.
pub fn check_as_asked(alloc: Global, args: CheckArgs, input: &[u8]) -> Result<Answer, Unanswered>
    ensures { Gives (answers.ChecksAs args input.now) result }
{
    check_in(alloc, args.json, args.why, input)
}

fn check_in(alloc: Global, json: bool, why: bool, input: &[u8]) -> Result<Answer, Unanswered>
    ensures { Gives (answers.ChecksIn json why input.now) result }
{
    if json {
        check_in_json(alloc, input)
    } else {
        check(alloc, why, input)
    }
}

fn check_in_json(alloc: Global, input: &[u8]) -> Result<Answer, Unanswered>
    ensures { Gives (InJson (answers.Checks true input.now)) result }
{
    let found = check(alloc, true, input);
    found_in_json(alloc, found)
}

// Reads the code of a script or of an image, and answers the greatest costs of its sections if it is sound.
fn check(alloc: Global, why: bool, input: &[u8]) -> Result<Answer, Unanswered>
    ensures { Gives (answers.Checks why input.now) result }
{
    match load(alloc, input)? {
        Ok(code) => check_code(alloc, why, input, code),
        Err(fault) => Err(refuse(alloc, why, input, Refused::NoCode(fault))),
    }
}

fn check_code(alloc: Global, why: bool, input: &[u8], code: Code) -> Result<Answer, Unanswered>
    ensures { Gives (answers.ChecksCode why code) result }
{
    let checked = sound_code(alloc, why, input, code)?;
    let output = accepted_text(alloc, &maxima_of(&checked))?;
    Ok(Answer {
        output,
        status: Status::Success,
    })
}

#[tactic(auto, using(crate::proofs::Maxima::is_checked))]
fn maxima_of(checked: &Checked) -> Sections<Cost>
    ensures { IsChecked (record { code = checked.now.code; maxima = result }) }
{
    // That the code is sound is what reading it tells.
    let _code = checked.code();
    Sections {
        p: checked.maxima(Actor::P),
        a: checked.maxima(Actor::A),
        b: checked.maxima(Actor::B),
    }
}

fn accepted_text(alloc: Global, maxima: &Sections<Cost>) -> Result<Vec<u8>, AllocError>
    ensures { IfOk result (λ text. text.items ≡ answers.accepted_text maxima.now) }
{
    let p = cost_line(alloc, Actor::P, maxima.p)?;
    let a = cost_line(alloc, Actor::A, maxima.a)?;
    let b = cost_line(alloc, Actor::B, maxima.b)?;
    let text = format!(in alloc; "accepted\n{p}{a}{b}")?;
    Ok(text.into_bytes())
}

fn cost_line(alloc: Global, actor: Actor, cost: Cost) -> Result<String, AllocError>
    ensures { IfOk result (λ line. string_bytes line ≡ answers.cost_line actor cost) }
{
    let section = actor.word();
    let Cost { requests, bytes } = cost;
    format!(in alloc; "{section} {requests} {bytes}\n")
}
