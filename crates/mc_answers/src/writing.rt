//! Writing an answer.
ghost use Rattle.std.specs.Prelude.{◌≡◌, ◌⊎◌, false, true};
ghost use Rattle.mc_answers.specs.{Streams.Grows, Writing.out_of_memory_text};

use crate::input::InputFault;
use crate::status::Status;
use crate::streams::Sink;

/// What is written where memory runs out.
pub const OUT_OF_MEMORY: &[u8] = b"out of memory\n";

/// Writes the text by one call, and answers the status, or that of a failure.
pub fn write_text<S: Sink>(text: &[u8], status: Status, sink: &mut S) -> Status
    ensures written { S.has_failed sink.old ≡ false → S.has_failed sink.new ≡ false
        → Grows (S.written sink.old) (S.written sink.new) text.now × (result ≡ status) }
    ensures broken { S.has_failed sink.old ≡ false → S.has_failed sink.new ≡ true → result ≡ Status.NoAnswer }
    ensures status { (result ≡ status) ⊎ (result ≡ Status.NoAnswer) }
{
    match sink.write_all(text) {
        Ok(()) => status,
        Err(_) => Status::NoAnswer,
    }
}

/// What is written where the input was not read or not answered, and its status.
pub fn write_fault<O: Sink>(fault: InputFault, output: &mut O) -> Status
    ensures broken { fault ≡ InputFault.Broken → output.new ≡ output.old }
    ensures memory { fault ≡ InputFault.OutOfMemory → O.has_failed output.old ≡ false → O.has_failed output.new ≡ false
        → Grows (O.written output.old) (O.written output.new) out_of_memory_text }
    ensures status { result ≡ Status.NoAnswer }
{
    match fault {
        InputFault::Broken => Status::NoAnswer,
        InputFault::OutOfMemory => write_text(OUT_OF_MEMORY, Status::NoAnswer, output),
    }
}
