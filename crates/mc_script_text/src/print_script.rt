//! How a script is printed.

ghost use Rattle.std.specs.Prelude.{◌≡◌, ◌++◌, ◌∷◌, IfOk, OnOk, OnErr};
ghost use Rattle.mc_script.specs.Script as spec;
ghost use Rattle.mc_script_text.specs.ScriptText.{SpellsInVersion, header, names_line, names_lines};
ghost use Rattle.mc_script_text.specs.PrintedScript as printed;

use crate::print_section::print_section;
use itoa::Buffer;
use mc_protocol::{Actor, Bytes, OutOfMemory, append_all};
use mc_script::{Budget, Names, Script, Version};
use std::alloc::Global;

/// Appends the text of a script: one space between words, no line that doesn't count, marks in the order `?`, `!`, `+`,
/// `-`, jumps, `>`. It is a text of the first version whose limits the script keeps: `script 1` where it has at most 32
/// flags, and at most 64 steps in each section, and `script 2` otherwise. Want of memory leaves `out` as it was.
pub fn print(alloc: Global, script: &Script, out: &mut Vec<u8>) -> Result<(), OutOfMemory>
    ensures ok { OnOk result (out.new.items ≡ out.old.items ++ printed.script_text script.now) }
    ensures spelled { OnOk result (SpellsInVersion (spec.version_of script.now) (printed.script_text script.now) script.now) }
    ensures err { OnErr result (out.new.items ≡ out.old.items) }
{
    let text = text_of(alloc, script)?;
    out.extend_from_slice(text.as_slice())
}

/// The text of a script.
fn text_of(alloc: Global, script: &Script) -> Result<Vec<u8>, OutOfMemory>
    ensures text { IfOk result (λ text. text.items ≡ printed.script_text script.now) }
    ensures spelled { OnOk result (SpellsInVersion (spec.version_of script.now) (printed.script_text script.now) script.now) }
{
    let mut text = Vec::new(alloc);
    let names = script.names();
    print_declarations(version_of(script), names, &mut text)?;
    print_budget(Actor::P, script.budget(Actor::P), &mut text)?;
    print_budget(Actor::A, script.budget(Actor::A), &mut text)?;
    print_budget(Actor::B, script.budget(Actor::B), &mut text)?;
    print_section(names, Actor::P, script.section(Actor::P), &mut text)?;
    print_section(names, Actor::A, script.section(Actor::A), &mut text)?;
    print_section(names, Actor::B, script.section(Actor::B), &mut text)?;
    text.extend_from_slice(b"end\n")?;
    Ok(text)
}

/// The version whose text is printed of a script: the first one whose limits it keeps.
fn version_of(script: &Script) -> Version
    ensures { result ≡ spec.version_of script.now }
{
    let p = script.steps(Actor::P).len();
    let a = script.steps(Actor::A).len();
    let b = script.steps(Actor::B).len();
    Version::least(script.flags().len(), p.max(a.max(b)))
}

/// Appends the header, and the lines that declare names.
fn print_declarations(version: Version, names: &Names, out: &mut Vec<u8>) -> Result<(), OutOfMemory>
    ensures { OnOk result (out.new.items ≡ out.old.items
        ++ printed.lines_text (header version ∷ names_lines names.now)) }
{
    append_all(out, &[b"script ", version.word().as_bytes(), b"\n"])?;
    print_names(b"keys", names.keys(), out)?;
    print_names(b"flags", names.flags(), out)?;
    print_names(b"vars", names.vars(), out)
}

/// Appends the line that declares these names, if there are any.
fn print_names(word: &[u8], names: &[Bytes], out: &mut Vec<u8>) -> Result<(), OutOfMemory>
    ensures { OnOk result (out.new.items ≡ out.old.items ++ printed.lines_text (names_line word.now names.now)) }
{
    if names.is_empty() {
        return Ok(());
    }
    out.extend_from_slice(word)?;
    print_words(names, out)?;
    out.extend_from_slice(b"\n")
}

/// Appends words, with a space before each.
fn print_words(words: &[Bytes], out: &mut Vec<u8>) -> Result<(), OutOfMemory>
    ensures { OnOk result (out.new.items ≡ out.old.items ++ printed.spaced_text words.now) }
{
    'words: for word in words {
        append_all(out, &[b" ", word.as_slice()])?;
    }
    Ok(())
}

/// Appends the line of a budget.
fn print_budget(actor: Actor, budget: Budget, out: &mut Vec<u8>) -> Result<(), OutOfMemory>
    ensures { OnOk result (out.new.items ≡ out.old.items ++ printed.line_text (printed.budget_line actor budget)) }
{
    let mut requests_text = Buffer::new();
    let requests = requests_text.format(budget.requests).as_bytes();
    let mut bytes_text = Buffer::new();
    let bytes = bytes_text.format(budget.bytes).as_bytes();
    append_all(
        out,
        &[
            b"budget ",
            actor.word().as_bytes(),
            b" ",
            requests,
            b" ",
            bytes,
            b"\n",
        ],
    )
}
