//! How an input is refused: one line, whatever was asked for; and of code that isn't sound a run that shows it.
ghost use Rattle.std.specs.Prelude.{◌≡◌, ◌++◌, IfOk, OnOk, codes, flat_map, string_bytes};
ghost use Rattle.mc_hints.specs.Refusals as refusals;

use crate::refused::{LoadFault, Refused};
use mc_assembler::AsmFault;
use mc_protocol::{Actor, Class, FaultKind, append_all};
use mc_sound::RefusalKind;
use std::alloc::{AllocError, Global};

/// Where in the input the fault is.
#[derive(Clone, Copy, Debug, Drop, PartialEq, Eq)]
pub enum Location {
    /// In the whole of it.
    Whole,
    /// In this line.
    Line(u32),
    /// At this byte, counted from 0.
    Byte(usize),
    /// In this section.
    Section(Actor),
    /// At this instruction of the section, counted from 0.
    Instruction(Actor, u8),
}

/// The text that is written for a refused input, and the hint after it.
pub fn refusal_with_hint(
    alloc: Global,
    refused: Refused<'_>,
    hint: &[u8],
) -> Result<Vec<u8>, AllocError>
    ensures { IfOk result (λ text. text.items ≡ refusals.refused_text refused.entry ++ hint.now) }
{
    let mut text = refusal_text(alloc, refused)?;
    text.extend_from_slice(hint)?;
    Ok(text)
}

fn refusal_text(alloc: Global, refused: Refused<'_>) -> Result<Vec<u8>, AllocError>
    ensures { IfOk result (λ text. text.items ≡ refusals.refused_text refused.entry) }
{
    match refused {
        Refused::NoHistory(fault) => {
            refusal_line(alloc, "history", fault.kind, Location::Line(fault.line))
        }
        Refused::NoCode(LoadFault::NoScript(fault)) => {
            refusal_line(alloc, "script", fault.kind, Location::Line(fault.line))
        }
        Refused::NoCode(LoadFault::TooLarge(fault)) => {
            refusal_line(alloc, "asm", fault, location_of(fault))
        }
        Refused::NoCode(LoadFault::NoImage(fault)) => {
            refusal_line(alloc, "image", fault.kind, Location::Byte(fault.offset))
        }
        Refused::Unsound(refusal) => unsound_text(alloc, refusal),
        Refused::NoSteps(fault) => {
            refusal_line(alloc, "steps", fault.kind, Location::Line(fault.line))
        }
    }
}

// A section that is too large is named.
fn location_of(fault: AsmFault) -> Location
    ensures { result ≡ refusals.location_of fault }
{
    match fault {
        AsmFault::TooManyInstructions(actor) => Location::Section(actor),
        AsmFault::TooManyTemplates | AsmFault::OutOfMemory => Location::Whole,
    }
}

// The line that says what is refused, the number and the name of the fault, and where it is.
fn refusal_line<K: FaultKind>(
    alloc: Global,
    what: &str,
    kind: K,
    location: Location,
) -> Result<Vec<u8>, AllocError>
    ensures { IfOk result (λ text. text.items ≡ refusals.refusal_line what.now (K.kind_number kind) (K.kind_name kind) location) }
{
    let number = kind.number();
    let name = kind.name();
    let place = location_text(alloc, location)?;
    let line = format!(in alloc; "refused {what} {number} {name}{place}\n")?;
    Ok(line.into_bytes())
}

fn location_text(alloc: Global, location: Location) -> Result<String, AllocError>
    ensures { IfOk result (λ text. string_bytes text ≡ refusals.location_text location) }
{
    match location {
        Location::Whole => Ok(String::new(alloc)),
        Location::Line(line) => format!(in alloc; " line {line}"),
        Location::Byte(offset) => format!(in alloc; " byte {offset}"),
        Location::Section(actor) => format!(in alloc; " {}", actor.word()),
        Location::Instruction(actor, number) => format!(in alloc; " {} {number}", actor.word()),
    }
}

// The line of the refusal, and a run that shows the fault, if runs do.
fn unsound_text(alloc: Global, refusal: &mc_verify::Refusal) -> Result<Vec<u8>, AllocError>
    ensures { IfOk result (λ text. text.items ≡ refusals.unsound_text refusal.now) }
{
    let location = Location::Instruction(refusal.actor, refusal.place);
    let mut text = refusal_line(alloc, "verify", refusal.kind, location)?;
    match refusal.kind {
        RefusalKind::BadTarget
        | RefusalKind::BadIndex
        | RefusalKind::NoHalt
        | RefusalKind::NotCleared
        | RefusalKind::OutOfMemory => {}
        _ => append_run(refusal.shown.as_slice(), &mut text)?,
    }
    Ok(text)
}

// Appends a line for each reply, and `end`.
fn append_run(shown: &[(Actor, Class)], text: &mut Vec<u8>) -> Result<(), AllocError>
    ensures { OnOk result (text.new.items ≡ text.old.items ++ (flat_map refusals.reply_line shown.now ++ codes "end\n")) }
{
    'replies: for (section, class) in shown {
        append_all(
            text,
            &[
                section.word().as_bytes(),
                b" ",
                class.word().as_bytes(),
                b"\n",
            ],
        )?;
    }
    text.extend_from_slice(b"end\n")
}
