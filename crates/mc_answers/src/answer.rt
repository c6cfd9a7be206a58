//! What is answered to a text, whatever it is asked.
ghost use Rattle.std.specs.Prelude.{IfOk};
ghost use Rattle.mc_answers.specs.{Answers.Does, Refusing.Gives};

use crate::asm::assemble;
use crate::check::check_as_asked;
use crate::convert::convert;
use crate::draw::draw;
use crate::drive::drive;
use crate::join::join;
use crate::judge::judge_as_asked;
use crate::refusal::Unanswered;
use crate::status::Status;
use mc_cli::Question;
use std::alloc::{AllocError, Global};

/// What is written for a text, and the exit status with it.
#[derive(Drop)]
pub struct Answer {
    pub output: Vec<u8>,
    pub status: Status,
}

/// Answers the question about the text. A refusal is an answer too.
pub fn answer_to(alloc: Global, question: Question, text: &[u8]) -> Result<Answer, AllocError>
    ensures { IfOk result (λ answer. Does question.entry text.now answer.output.items answer.status) }
{
    match give(alloc, question, text) {
        Ok(answer) => Ok(answer),
        Err(Unanswered::Refused(output)) => Ok(Answer {
            output,
            status: Status::Refused,
        }),
        Err(Unanswered::OutOfMemory) => Err(AllocError),
    }
}

fn give(alloc: Global, question: Question, text: &[u8]) -> Result<Answer, Unanswered>
    ensures { Gives (Does question.entry text.now) result }
{
    match question {
        Question::Judge(args) => judge_as_asked(alloc, args, text),
        Question::Check(args) => check_as_asked(alloc, args, text),
        Question::Asm(why) => assemble(alloc, why, text),
        Question::Drive(how) => drive(alloc, how, text),
        Question::Draw(how) => draw(alloc, how, text),
        Question::Convert(args) => convert(alloc, args, text),
        Question::Join => join(alloc, text),
    }
}
