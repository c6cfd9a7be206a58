//! The code that a line of `run` plays: that of its script, or that under its name.
ghost use Rattle.std.specs.Prelude.{◌≡◌, Bool, List, Option, ℕ, IfErr, IfOk};
ghost use Rattle.mc_command.specs.RunAnswers as answers;

use crate::run::Remarks;
use mc_answers::{Answer, Status, Unanswered, load_sound, sound_code};
use mc_cli::{RunArgs, long_key_text};
use mc_generate::{PutFault, put_under};
use mc_settings::Namespace;
use mc_sound::Checked;
use std::alloc::{AllocError, Global};

/// Why no code is played.
#[derive(Drop)]
pub enum Unplayed {
    /// The script is refused, or its code under the name is: this text says why.
    Refused(Vec<u8>),
    /// Under the name a key becomes too long: this text, for standard error, is the fault of the line.
    KeyTooLong(String),
    /// Memory ran out.
    OutOfMemory,
}

impl From<AllocError> for Unplayed {
    ghost use Rattle.std.specs.Prelude.{◌≡◌};
    ghost use Rattle.mc_command.specs.declared.target_code.Unplayed.TheVariants.{OutOfMemory};

    ghost from_gives = { λ _ e. e ≡ OutOfMemory };

    fn from(_e: AllocError) -> Unplayed {
        Unplayed::OutOfMemory
    }
}

/// The code that is played: that of the script which the text spells, or that under the target's name.
pub fn read_target_code(
    alloc: Global,
    target: &RunArgs<'_>,
    text: &[u8],
) -> Result<Checked, Unplayed>
    ensures code { IfOk result (λ checked. answers.SpellsUnder target.now.name text.now checked.code) }
    ensures refused { IfErr result (answers.IsUnplayed target.now.how.why target.now.name text.now) }
{
    match load_sound(alloc, target.how.why, text) {
        Ok(checked) => match &target.name {
            Some(name) => put_code_under(alloc, &checked, name),
            None => Ok(checked),
        },
        Err(fault) => Err(unplayed_by(fault)),
    }
}

fn unplayed_by(fault: Unanswered) -> Unplayed
    ensures { result ≡ answers.unplayed_by fault }
{
    match fault {
        Unanswered::Refused(text) => Unplayed::Refused(text),
        Unanswered::OutOfMemory => Unplayed::OutOfMemory,
    }
}

/// The code under the name.
pub fn put_code_under(
    alloc: Global,
    checked: &Checked,
    name: &Namespace<'_>,
) -> Result<Checked, Unplayed>
    ensures code { IfOk result (λ under. answers.IsUnder name.now checked.now.code under.code) }
    ensures refused { IfErr result (answers.IsUnput name.now checked.now.code) }
{
    match put_under(alloc, checked.code(), name) {
        Ok(code) => match sound_code(alloc, false, &[], code) {
            Ok(under) => Ok(under),
            Err(fault) => Err(unplayed_by(fault)),
        },
        Err(PutFault::KeyTooLong(index)) => {
            let key = &checked.code().keys()[index];
            let text = long_key_text(alloc, name, key.as_slice())?;
            Err(Unplayed::KeyTooLong(text))
        }
        Err(PutFault::OutOfMemory) => Err(Unplayed::OutOfMemory),
    }
}

/// What is written in place of a run, with what standard error says.
pub fn unplayed_answer(alloc: Global, unplayed: Unplayed) -> Result<(Answer, Remarks), AllocError>
    ensures { IfOk result (λ found. (why : Bool) (name : Option (List ℕ)) (text : List ℕ) → answers.IsUnplayed why name text unplayed
        → answers.Refuses why name text found.0.output.items found.0.status) }
{
    match unplayed {
        Unplayed::Refused(output) => Ok((
            Answer {
                output,
                status: Status::Refused,
            },
            Remarks::None,
        )),
        Unplayed::KeyTooLong(text) => Ok((
            Answer {
                output: Vec::new(alloc),
                status: Status::WrongLine,
            },
            Remarks::WrongLine(text),
        )),
        Unplayed::OutOfMemory => Err(AllocError),
    }
}
