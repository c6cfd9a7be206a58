//! What `asm` answers to a text.
ghost use Rattle.std.specs.Prelude.{◌≡◌, IfOk};
ghost use Rattle.mc_image.specs.Image.{image_of};
ghost use Rattle.mc_answers.specs.AsmAnswers as answers;
ghost use Rattle.mc_answers.specs.Refusing.{Gives};

use crate::answer::Answer;
use crate::loading::load_script;
use crate::refusal::{Unanswered, refuse};
use crate::status::Status;
use mc_code::Code;
use mc_hints::Refused;
use mc_image::encode;
use std::alloc::{AllocError, Global};

/// Reads a script, which needn't be sound, and answers the image of its code.
pub fn assemble(alloc: Global, why: bool, text: &[u8]) -> Result<Answer, Unanswered>
    ensures { Gives (answers.Assembles why text.now) result }
{
    match load_script(alloc, text)? {
        Ok(code) => Ok(image_answer(alloc, &code)?),
        Err(fault) => Err(refuse(alloc, why, text, Refused::NoCode(fault))),
    }
}

fn image_answer(alloc: Global, code: &Code) -> Result<Answer, AllocError>
    ensures image { IfOk result (λ answer. answer.output.items ≡ image_of code.now) }
    ensures status { IfOk result (λ answer. answer.status ≡ Status.Success) }
{
    let mut output = Vec::new(alloc);
    encode(code, &mut output)?;
    Ok(Answer {
        output,
        status: Status::Success,
    })
}
