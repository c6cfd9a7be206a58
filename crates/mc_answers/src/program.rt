//! What is done for a line that asks a question about its input, or for a generated script.
ghost use Rattle.std.specs.Prelude.{◌≡◌, ◌≢◌, ◌⊎◌, ℕ, List, String, true, false, map, string_bytes, IfOk};
ghost use Rattle.std.specs.{Global.Global, IoError.error_kind};
ghost use Rattle.mc_cli.specs.Asking.{AsksFor, IsFaulty, MayShow, MayTell};
ghost use Rattle.mc_answers.specs.Answers.{AnswersBy, AnswersQuestion, IsAnswerTo, IsWhole, most_read, not_utf8_text};
ghost use Rattle.mc_answers.specs.Command.{needs_network, reads_history, reads_input};
ghost use Rattle.mc_answers.specs.Writing.{WritesBy, out_of_memory_text};
ghost use Rattle.mc_answers.specs.{GenerateAnswers.Generates, Statuses.status_number, Streams.Grows, Streams.TakesAtMost};
ghost use Rattle.mc_answers.specs.Input as input_rule;
ghost use Rattle.std.specs.declared.io.ErrorKind.TheVariants as io_kind;

use crate::answer::{Answer, answer_to};
use crate::generate::write_generated;
use crate::input::{InputFault, read_asked};
use crate::status::Status;
use crate::streams::{Sink, Source};
use crate::writing::{OUT_OF_MEMORY, write_fault, write_text};
use mc_cli::{LineFault, Question, Request, read_request};
use std::alloc::Global;
use std::io;

const NOT_UTF8: &[u8] = b"error: the command line is not UTF-8\n";

/// Does what the line asks for, and answers the exit status. The line's first word is the program's name. To a line that needs a network
/// nothing is done: its status is that of no answer.
///
/// At most 1,048,577 bytes of the input are read, or 67,108,865 if a history is judged, and they are read whole before a byte is written.
/// They are read for a question about them alone. A fault of the line goes to the faults, and help, the version and want of memory go to
/// the output.
#[tactic(auto, using(crate::proofs::Limits::takes_nothing))]
pub fn command<I: Source, O: Sink, F: Sink>(
    alloc: Global,
    line: &[String],
    input: &mut I,
    output: &mut O,
    faults: &mut F,
) -> u8
    ensures answered { (question : Question) → AsksFor (map string_bytes line.now) (Request.Question question)
        → I.has_failed input.old ≡ false → I.has_failed input.new ≡ false
        → O.has_failed output.old ≡ false → O.has_failed output.new ≡ false
        → (ended : Status) × (result ≡ status_number ended)
        × AnswersBy (IsAnswerTo question) (I.left input.old) (O.written output.old) (O.written output.new) ended }
    ensures generated { (seed : ℕ) (job : ℕ) → AsksFor (map string_bytes line.now) (Request.Generate seed job)
        → O.has_failed output.old ≡ false → O.has_failed output.new ≡ false
        → (ended : Status) × (result ≡ status_number ended)
        × WritesBy (Generates seed job) (O.written output.old) (O.written output.new) ended }
    ensures elsewhere { (wanted : Request) → AsksFor (map string_bytes line.now) wanted → needs_network wanted ≡ true
        → O.has_failed output.old ≡ false → O.has_failed output.new ≡ false
        → (result ≡ 4) × ((output.new ≡ output.old) ⊎ Grows (O.written output.old) (O.written output.new) out_of_memory_text) }
    ensures unasked { (wanted : Request) → AsksFor (map string_bytes line.now) wanted → reads_input wanted ≡ false
        → input.new ≡ input.old }
    ensures no_fault { (wanted : Request) → AsksFor (map string_bytes line.now) wanted → faults.new ≡ faults.old }

    ensures fault { IsFaulty (map string_bytes line.now)
        → O.has_failed output.old ≡ false → O.has_failed output.new ≡ false
        → F.has_failed faults.old ≡ false → F.has_failed faults.new ≡ false
        → ((result ≡ 2) × (output.new ≡ output.old) × MayTell (map string_bytes line.now))
        ⊎ (((result ≡ 0) × (faults.new ≡ faults.old) × MayShow (map string_bytes line.now))
        ⊎ ((result ≡ 4) × (faults.new ≡ faults.old)
        × Grows (O.written output.old) (O.written output.new) out_of_memory_text)) }
    ensures apart { IsFaulty (map string_bytes line.now) → (output.new ≡ output.old) ⊎ (faults.new ≡ faults.old) }
    ensures unread { IsFaulty (map string_bytes line.now) → input.new ≡ input.old }

    ensures broken_input { I.has_failed input.old ≡ false → I.has_failed input.new ≡ true
        → (result ≡ 4) × (output.new ≡ output.old) }
    ensures broken_output { O.has_failed output.old ≡ false → O.has_failed output.new ≡ true → result ≡ 4 }
    ensures broken_faults { F.has_failed faults.old ≡ false → F.has_failed faults.new ≡ true → result ≡ 4 }
    ensures taken { TakesAtMost 67108865 (I.left input.old) (I.left input.new) }
    ensures few { (wanted : Request) → AsksFor (map string_bytes line.now) wanted → reads_history wanted ≡ false
        → TakesAtMost 1048577 (I.left input.old) (I.left input.new) }
{
    match read_request(alloc, line) {
        Ok(Request::Question(question)) => answer_question(alloc, question, input, output).number(),
        Ok(Request::Generate(seed, job)) => write_generated(alloc, seed, job, output).number(),
        Ok(Request::Run(_)) => Status::NoAnswer.number(),
        Ok(Request::Test(_)) => Status::NoAnswer.number(),
        Ok(Request::Serve(_)) => Status::NoAnswer.number(),
        Ok(Request::Record(_)) => Status::NoAnswer.number(),
        Ok(Request::Campaign(_)) => Status::NoAnswer.number(),
        Ok(Request::Stress(_)) => Status::NoAnswer.number(),
        Ok(Request::Selftest) => Status::NoAnswer.number(),
        Err(fault) => explain_fault(&fault, output, faults).number(),
    }
}

/// Reads the input whole, answers the question about it, and answers the exit status.
pub fn answer_question<I: Source, O: Sink>(
    alloc: Global,
    question: Question,
    input: &mut I,
    output: &mut O,
) -> Status
    ensures { AnswersQuestion I.left I.has_failed O.written O.has_failed question.entry
        input.old input.new output.old output.new result }
{
    match read_answer(alloc, question, input) {
        Ok(answer) => write_text(answer.output.as_slice(), answer.status, output),
        Err(fault) => write_fault(fault, output),
    }
}

// Reads the input whole, and finds the answer to it.
fn read_answer<I: Source>(
    alloc: Global,
    question: Question,
    input: &mut I,
) -> Result<Answer, InputFault>
    ensures right { IfOk result (λ answer. (text : List ℕ) × IsWhole (I.left input.old) text
        × IsAnswerTo question.entry text answer.output.items answer.status) }
    ensures fails { input_rule.Fails (I.has_failed input.old) (I.has_failed input.new) result }
    ensures taken { TakesAtMost (most_read question.entry) (I.left input.old) (I.left input.new) }
{
    match read_asked(alloc, &question, input)? {
        Ok(text) => Ok(answer_to(alloc, question, text.as_slice())?),
        Err(too_long) => Ok(too_long),
    }
}

/// The exit status where the line could not be read: memory ran out, which goes to the output, or a word of it is not UTF-8, which
/// goes to the faults.
pub fn unread_line<O: Sink, F: Sink>(error: &io::Error, output: &mut O, faults: &mut F) -> Status
    ensures memory { error_kind error.now ≡ io_kind.OutOfMemory → (faults.new ≡ faults.old)
        × (O.has_failed output.old ≡ false → O.has_failed output.new ≡ false
        → (result ≡ Status.NoAnswer) × Grows (O.written output.old) (O.written output.new) out_of_memory_text) }
    ensures word { error_kind error.now ≢ io_kind.OutOfMemory → (output.new ≡ output.old)
        × (F.has_failed faults.old ≡ false → F.has_failed faults.new ≡ false
        → (result ≡ Status.WrongLine) × Grows (F.written faults.old) (F.written faults.new) not_utf8_text) }
    ensures broken_output { O.has_failed output.old ≡ false → O.has_failed output.new ≡ true → result ≡ Status.NoAnswer }
    ensures broken_faults { F.has_failed faults.old ≡ false → F.has_failed faults.new ≡ true → result ≡ Status.NoAnswer }
    ensures fails { (result ≡ Status.WrongLine) ⊎ (result ≡ Status.NoAnswer) }
{
    match error.kind() {
        io::ErrorKind::OutOfMemory => write_text(OUT_OF_MEMORY, Status::NoAnswer, output),
        _ => write_text(NOT_UTF8, Status::WrongLine, faults),
    }
}

/// Writes help and the version to the output, and a fault of the line to the faults; or to the output that memory ran out.
pub fn explain_fault<O: Sink, F: Sink>(fault: &LineFault, output: &mut O, faults: &mut F) -> Status
    ensures memory { fault.now ≡ LineFault.OutOfMemory
        → O.has_failed output.old ≡ false → O.has_failed output.new ≡ false
        → Grows (O.written output.old) (O.written output.new) out_of_memory_text × (result ≡ Status.NoAnswer) }
    ensures no_fault { fault.now ≡ LineFault.OutOfMemory → faults.new ≡ faults.old }
    ensures shown { (text : String Global) → fault.now ≡ LineFault.Shown text → (faults.new ≡ faults.old)
        × (O.has_failed output.old ≡ false → O.has_failed output.new ≡ false
        → (result ≡ Status.Success) × Grows (O.written output.old) (O.written output.new) (string_bytes text)) }
    ensures wrong { (text : String Global) → fault.now ≡ LineFault.Wrong text → (output.new ≡ output.old)
        × (F.has_failed faults.old ≡ false → F.has_failed faults.new ≡ false
        → (result ≡ Status.WrongLine) × Grows (F.written faults.old) (F.written faults.new) (string_bytes text)) }
    ensures apart { (output.new ≡ output.old) ⊎ (faults.new ≡ faults.old) }
    ensures broken_output { O.has_failed output.old ≡ false → O.has_failed output.new ≡ true → result ≡ Status.NoAnswer }
    ensures broken_faults { F.has_failed faults.old ≡ false → F.has_failed faults.new ≡ true → result ≡ Status.NoAnswer }
{
    match fault {
        LineFault::Shown(text) => write_text(text.as_bytes(), Status::Success, output),
        LineFault::Wrong(text) => write_text(text.as_bytes(), Status::WrongLine, faults),
        LineFault::OutOfMemory => write_text(OUT_OF_MEMORY, Status::NoAnswer, output),
    }
}
