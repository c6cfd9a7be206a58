//! Reads the text of a script that something else may follow.

ghost use Rattle.std.specs.Prelude.{◌≡◌, ◌≢◌, ℕ, IfOk, IfErr};
ghost use Rattle.std.specs.List.{concat};
ghost use Rattle.bstr.specs.Text.{lines_of};
ghost use Rattle.mc_script.specs.Script as spec;
ghost use Rattle.mc_script_text.specs.{FrontText.SpellsFront, Reading.is_end, Reading.to_end};
ghost use Rattle.mc_script.specs.WellFormed.{IsScript};

use crate::{ScriptFault, ScriptKind, parse};
use bstr::ByteSlice;
use mc_protocol::{OutOfMemory, Separator, WordLines};
use mc_script::Script;
use std::alloc::Global;

/// Reads the script that the text begins with, up to and with its line `end`, and answers it with the number of these bytes.
/// What follows is not looked at. A text with no such front has the fault that [`parse`] finds up to its first line
/// `end`, or in all of it where it has none. Want of memory is the fault of line 0.
pub fn parse_front(alloc: Global, text: &[u8]) -> Result<(Script, usize), ScriptFault>
    ensures found { IfOk result (λ r. SpellsFront text.now r.0 r.1) }
    ensures kept { IfOk result (λ r. IsScript r.0) }
    ensures none { IfErr result (λ fault. fault.kind ≢ ScriptKind.OutOfMemory
        → (script : spec.Script) → (size : ℕ) → SpellsFront text.now script size → ⊥) }
    ensures memory { IfErr result (λ fault. fault.kind ≡ ScriptKind.OutOfMemory → fault.line ≡ 0) }
{
    let front = front_of(alloc, text)?;
    let script = parse(alloc, front)?;
    Ok((script, front.len()))
}

/// The lines of the text up to and with the first that is `end`, or all of them where none is.
fn front_of<'a>(alloc: Global, text: &'a [u8]) -> Result<&'a [u8], OutOfMemory>
    ensures { IfOk result (λ front. front.now ≡ concat (to_end (lines_of text.entry.now))) }
{
    let mut lines = text.lines_with_terminator();
    let mut len = 0;
    'lines: while let Some(line) = lines.next() {
        len += line.len();
        if is_end_line(alloc, line)? {
            return Ok(&text[..len]);
        }
    }
    Ok(text)
}

/// Whether the word `end` is all that counts in the line.
fn is_end_line(alloc: Global, line: &[u8]) -> Result<bool, OutOfMemory>
    ensures { IfOk result (λ found. found ≡ is_end line.now) }
{
    match WordLines::new(line, Separator::SpaceOrTab).next(alloc)? {
        Some(words) => Ok(words.is_only(b"end")),
        None => Ok(false),
    }
}
