//! The steps of a generated script.
ghost use Rattle.std.specs.Prelude.{◌≡◌, ◌++◌, ◌∷◌, [], IfOk, OnOk, decimal};
ghost use Rattle.mc_generate.specs.declared.piece.Piece.TheVariants as piece;
ghost use Rattle.mc_generate.specs.Branches as branches;
ghost use Rattle.mc_generate.specs.Generated as generated;

use crate::names::label_name;
use crate::piece::Piece;
use itoa::Buffer;
use mc_protocol::{Bytes, Class, OutOfMemory, Verb};
use mc_script::{Argument, Jumps, Label, Section, Step, Template};
use std::alloc::Global;

/// Appends the steps of the piece with this index, and its label if it has one.
pub(crate) fn push_piece(
    alloc: Global,
    index: u32,
    piece: Piece,
    branch: &mut Section,
) -> Result<(), OutOfMemory>
    ensures { OnOk result (branch.new ≡ branches.with_piece index piece branch.old) }
{
    match piece {
        Piece::Set { key, body } => push_storing(alloc, Verb::Set, key, body, branch),
        Piece::Add { key, body } => push_storing(alloc, Verb::Add, key, body, branch),
        Piece::Append { key, body } => push_storing(alloc, Verb::Append, key, body, branch),
        Piece::Incr { key, amount } => push(
            alloc,
            counting(alloc, Verb::Incr, key, amount),
            branch,
        ),
        Piece::Decr { key, amount } => push(
            alloc,
            counting(alloc, Verb::Decr, key, amount),
            branch,
        ),
        Piece::Delete { key } => push(alloc, bare(alloc, Verb::Delete, key), branch),
        Piece::Get { key } => push(alloc, needing_flag(bare(alloc, Verb::Get, key)), branch),
        Piece::Swap { key, body } => push_swap(alloc, index, key, body, branch),
    }
}

/// Appends both steps of a swap, and its label.
fn push_swap(
    alloc: Global,
    index: u32,
    key: u8,
    body: u32,
    branch: &mut Section,
) -> Result<(), OutOfMemory>
    ensures { OnOk result (branch.new ≡ branches.with_piece index (piece.Swap key body) branch.old) }
{
    let mut jumps = Vec::with_capacity(alloc, 1)?;
    jumps.push((Class::Miss, branch.labels.len()))?;
    branch.steps.push(Step::Send {
        template: bare(alloc, Verb::Gets, key),
        jumps: Jumps::new(jumps),
        bind: Some(0),
    })?;
    let body = decimal_of(alloc, body)?;
    let swap = request(Verb::Cas, key, Argument::Variable(0), body);
    push(alloc, swap, branch)?;
    let name = label_name(alloc, index)?;
    let place = branch.steps.len();
    branch.labels.push(Label { name, place })?;
    Ok(())
}

/// Appends a step that stores the decimal of a number.
pub(crate) fn push_storing(
    alloc: Global,
    verb: Verb,
    key: u8,
    body: u32,
    section: &mut Section,
) -> Result<(), OutOfMemory>
    ensures { OnOk result (section.new
        ≡ record section.old { steps = section.old.steps ++ generated.send (generated.storing verb key body) ∷ [] }) }
{
    push(alloc, storing(alloc, verb, key, body)?, section)
}

/// Appends a step that sends the request, and goes on to the next step after any reply.
pub(crate) fn push(
    alloc: Global,
    template: Template,
    section: &mut Section,
) -> Result<(), OutOfMemory>
    ensures { OnOk result (section.new ≡ record section.old { steps = section.old.steps ++ generated.send template ∷ [] }) }
{
    section.steps.push(Step::Send {
        template,
        jumps: Jumps::new(Vec::new(alloc)),
        bind: None,
    })?;
    Ok(())
}

/// A request that stores the decimal of a number.
pub(crate) fn storing(
    alloc: Global,
    verb: Verb,
    key: u8,
    body: u32,
) -> Result<Template, OutOfMemory>
    ensures { IfOk result (λ template. template ≡ generated.storing verb key body) }
{
    let body = decimal_of(alloc, body)?;
    Ok(request(verb, key, Argument::Nothing, body))
}

/// A request that counts by a number.
fn counting(alloc: Global, verb: Verb, key: u8, amount: u32) -> Template
    ensures { result ≡ generated.counting verb key amount }
{
    let amount = Argument::Number(amount as u64);
    request(verb, key, amount, Bytes::new(Vec::new(alloc)))
}

/// A request with a key alone.
fn bare(alloc: Global, verb: Verb, key: u8) -> Template
    ensures { result ≡ generated.bare verb key }
{
    request(verb, key, Argument::Nothing, Bytes::new(Vec::new(alloc)))
}

/// A request without marks.
fn request(verb: Verb, key: u8, argument: Argument, body: Bytes) -> Template
    ensures { result ≡ generated.request verb key argument body }
{
    Template {
        verb,
        key,
        flags: 0,
        argument,
        body,
        require_set: 0,
        require_clear: 0,
        sets: 0,
        clears: 0,
    }
}

/// The request with `+f`.
pub(crate) fn setting_flag(template: Template) -> Template
    ensures { result ≡ generated.setting_flag template }
{
    Template {
        sets: 1,
        ..template
    }
}

/// The request with `?f`.
fn needing_flag(template: Template) -> Template
    ensures { result ≡ generated.needing_flag template }
{
    Template {
        require_set: 1,
        ..template
    }
}

/// The digits of a number.
fn decimal_of(alloc: Global, number: u32) -> Result<Bytes, OutOfMemory>
    ensures { IfOk result (λ digits. digits ≡ decimal number) }
{
    let mut text = Buffer::new();
    let digits = text.format(number).as_bytes();
    Ok(Bytes::new(Vec::from_slice(alloc, digits)?))
}
