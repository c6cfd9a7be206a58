//! What a line says to a request.
ghost use Rattle.std.specs.Prelude.{◌≡◌, None, Some, MatchResult};
ghost use Rattle.mc_reader.specs.Lines as spec;
ghost use Rattle.mc_reader.specs.Words as words;

use crate::item::read_hit;
use crate::number::read_number;
use crate::said::Said;
use crate::words::{error_of, reply_of_word};
use crate::{ErrorKind, ReadFault, Shape};
use mc_protocol::{Class, Reply, legal};

/// What a line without its LF says to a request of this shape.
pub(crate) fn read_line(shape: Shape<'_>, line: &[u8]) -> Result<Said, ReadFault>
    ensures { result ≡ spec.line_says shape.entry.verb shape.entry.key.now line.now }
{
    match text_of(line) {
        Some(text) => read_text(shape, text),
        None => Err(ReadFault::NotAReply),
    }
}

/// Looks whether the line, without its LF, is the `END` after a block.
pub(crate) fn read_end(line: &[u8]) -> Result<(), ReadFault>
    ensures { MatchResult result (λ _. spec.end_fault_of_text (spec.text_of line.now) ≡ None)
        (λ fault. spec.end_fault_of_text (spec.text_of line.now) ≡ Some fault) }
{
    match text_of(line) {
        Some(text) => read_end_text(text),
        None => Err(ReadFault::NotAReply),
    }
}

/// The line without the CR that ends it, where one does.
pub(crate) fn text_of(line: &[u8]) -> Option<&[u8]>
    ensures { spec.IsTextOf line.now result }
{
    match line {
        [text @ .., last] => match *last == b'\r' {
            true => Some(text),
            false => None,
        },
        [] => None,
    }
}

#[tactic(auto, unfolding(crate::specs::Words::text_says))]
fn read_text(shape: Shape<'_>, text: &[u8]) -> Result<Said, ReadFault>
    ensures { result ≡ words.text_says shape.entry.verb shape.entry.key.now text.now }
{
    if let Some(reply) = reply_of_word(text) {
        return match legal(shape.verb, reply.class()) {
            true => Ok(Said::Whole(reply)),
            false => Err(ReadFault::NotAReply),
        };
    }
    match error_of(text) {
        Some(kind) => read_error(shape, kind),
        None => read_others(shape, text),
    }
}

/// What an error says: to a count, that there is no number.
#[tactic(auto, unfolding(crate::specs::Words::error_says))]
fn read_error(shape: Shape<'_>, kind: ErrorKind) -> Result<Said, ReadFault>
    ensures { result ≡ words.error_says shape.entry.verb kind }
{
    match kind {
        ErrorKind::Client if legal(shape.verb, Class::NotNumber) => {
            Ok(Said::Whole(Reply::NotNumber))
        }
        _ => Err(ReadFault::ErrorLine(kind)),
    }
}

/// Reads the replies of more than one word.
#[tactic(auto, unfolding(crate::specs::Words::others_say))]
fn read_others(shape: Shape<'_>, text: &[u8]) -> Result<Said, ReadFault>
    ensures { result ≡ words.others_say shape.entry.verb shape.entry.key.now text.now }
{
    if legal(shape.verb, Class::Number) {
        read_number(text)
    } else if legal(shape.verb, Class::Hit) {
        read_hit(shape, text)
    } else {
        Err(ReadFault::NotAReply)
    }
}

#[tactic(auto, unfolding(crate::specs::Words::end_fault))]
fn read_end_text(text: &[u8]) -> Result<(), ReadFault>
    ensures { MatchResult result (λ _. words.end_fault text.now ≡ None) (λ fault. words.end_fault text.now ≡ Some fault) }
{
    if text == b"END".as_slice() {
        return Ok(());
    }
    match error_of(text) {
        Some(kind) => Err(ReadFault::ErrorLine(kind)),
        None => Err(ReadFault::NotAReply),
    }
}
