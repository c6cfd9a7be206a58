//! What `generate` writes: a script that is made by a seed and a job.
ghost use Rattle.std.specs.Prelude.{◌≡◌, IfOk};
ghost use Rattle.mc_answers.specs.GenerateAnswers as answers;
ghost use Rattle.mc_answers.specs.Writing.{WritesRightly};

use crate::input::InputFault;
use crate::status::Status;
use crate::streams::Sink;
use crate::writing::{write_fault, write_text};
use mc_generate::generate_script;
use mc_script_text::print;
use std::alloc::{AllocError, Global};

/// Writes the script that this seed and this job give, or that memory ran out.
pub fn write_generated<O: Sink>(alloc: Global, seed: u64, job: u64, output: &mut O) -> Status
    ensures { WritesRightly O.written O.has_failed (answers.Generates seed job) output.old output.new result }
{
    match text_of(alloc, seed, job) {
        Ok(text) => write_text(text.as_slice(), Status::Success, output),
        Err(_) => write_fault(InputFault::OutOfMemory, output),
    }
}

fn text_of(alloc: Global, seed: u64, job: u64) -> Result<Vec<u8>, AllocError>
    ensures { IfOk result (λ text. text.items ≡ answers.text_of seed job) }
{
    let script = generate_script(alloc, seed, job)?;
    let mut text = Vec::new(alloc);
    print(alloc, &script, &mut text)?;
    Ok(text)
}
