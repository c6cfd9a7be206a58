//! Reads the text of a script.

ghost use Rattle.std.specs.Prelude.{◌≡◌, ◌≢◌, Some, IfOk, IfErr};
ghost use Rattle.mc_protocol.specs.{declared.lines.Separator.TheVariants.SpaceOrTab, Lines.words_of_text};
ghost use Rattle.mc_script.specs.Script as spec;
ghost use Rattle.mc_script_text.specs.ScriptText.{SpellsScript};
ghost use Rattle.mc_script_text.specs.Reading as reading;
ghost use Rattle.mc_script.specs.WellFormed.{IsScript};

use crate::declarations::{read_budget, read_optional, take_header, take_keys};
use crate::lines::{finish, next_due, unexpected};
use crate::resolve::resolve;
use crate::section_text::{Numbered, read_section};
use crate::step_lines::StepLines;
use crate::word_fault::WordFault;
use crate::{Expected, ScriptFault, ScriptKind, Sort};
use mc_protocol::{Actor, Sections, Separator, WordLine, WordLines};
use mc_script::{Budget, Names, Script, VARIABLES_LIMIT, Version};
use std::alloc::Global;

/// Reads a script of either version. The fault is that of the first faulty line, on it of the leftmost faulty word, and of
/// that the kind that comes first; that a label is unknown or stands before its use is reported only where nothing else is
/// wrong. The fault says which word it is about, and what was expected there. Want of memory is the fault of line 0.
#[tactic(auto, using(crate::proofs::Readings::is_spelled, crate::proofs::Readings::is_formed, crate::proofs::Readings::is_unspelled))]
pub fn parse(alloc: Global, text: &[u8]) -> Result<Script, ScriptFault>
    ensures found { IfOk result (SpellsScript text.now) }
    ensures kept { IfOk result IsScript }
    ensures none { IfErr result (λ fault. fault.kind ≢ ScriptKind.OutOfMemory
        → (script : spec.Script) → SpellsScript text.now script → ⊥) }
    ensures memory { IfErr result (λ fault. fault.kind ≡ ScriptKind.OutOfMemory → fault.line ≡ 0) }
{
    read_script(alloc, text)
}

/// Reads a script as [`parse`] does, and answers it with the lines of its steps.
#[tactic(auto, using(crate::proofs::WholeScript::script_spelled, crate::proofs::Readings::script_formed))]
pub fn parse_lines(alloc: Global, text: &[u8]) -> Result<(Script, StepLines), ScriptFault>
    ensures found { IfOk result (λ r. SpellsScript text.now r.0) }
    ensures kept { IfOk result (λ r. IsScript r.0) }
    ensures lines { IfOk result (λ r. spec.HasLines r.0 r.1) }
    ensures none { IfErr result (λ fault. fault.kind ≢ ScriptKind.OutOfMemory
        → (script : spec.Script) → SpellsScript text.now script → ⊥) }
    ensures memory { IfErr result (λ fault. fault.kind ≡ ScriptKind.OutOfMemory → fault.line ≡ 0) }
{
    let (script, bodies) = read_all(alloc, text)?;
    let lines = StepLines::new(alloc, &bodies)?;
    Ok((script, lines))
}

fn read_script(alloc: Global, text: &[u8]) -> Result<Script, ScriptFault>
    ensures { reading.Says (λ script. script) result (reading.script_in (words_of_text SpaceOrTab text.now)) }
{
    match read_all(alloc, text) {
        Ok((script, _)) => Ok(script),
        Err(fault) => Err(fault),
    }
}

/// Reads a script, and the lines of its sections.
fn read_all(alloc: Global, text: &[u8]) -> Result<(Script, Sections<Vec<Numbered>>), ScriptFault>
    ensures read { reading.Says (λ r. r.0) result (reading.script_in (words_of_text SpaceOrTab text.now)) }
    ensures steps { IfOk result (λ r. reading.HasSteps r.0 r.1.p.items r.1.a.items r.1.b.items) }
{
    let mut lines = WordLines::new(text, Separator::SpaceOrTab);
    let version = take_header(alloc, &mut lines)?;
    let (names, line) = take_names(alloc, version, &mut lines)?;
    let budgets = take_budgets(alloc, &mut lines, &line)?;
    let bodies = take_bodies(alloc, version, &names, &mut lines)?;
    let script = resolve_all(alloc, names, budgets, &bodies)?;
    Ok((script, bodies))
}

/// Takes the names that a text of this version declares, and the line after them.
fn take_names<'a>(
    alloc: Global,
    version: Version,
    lines: &mut WordLines<'a>,
) -> Result<(Names, WordLine<'a>), ScriptFault>
    ensures { reading.Says (λ r. (r.0, r.1.words, lines.new.words)) result (reading.all_names_in version lines.old.words) }
{
    let keys = take_keys(alloc, lines)?;
    let line = next_due(alloc, lines, ScriptKind::Header, Expected::Budget(Actor::P))?;
    let limit = version.flags_limit();
    let (flags, line) = read_optional(alloc, lines, Sort::Flag, b"flags", limit, line)?;
    let (vars, line) = read_optional(alloc, lines, Sort::Variable, b"vars", VARIABLES_LIMIT, line)?;
    let names = Names::new(keys, flags, vars);
    Ok((names, line))
}

/// Takes the three budgets, of which the first line is taken already.
fn take_budgets(
    alloc: Global,
    lines: &mut WordLines,
    first: &WordLine,
) -> Result<Sections<Budget>, ScriptFault>
    ensures { reading.Says (λ budgets. (budgets, lines.new.words)) result (reading.budgets_in first.now.words lines.old.words) }
{
    let p = read_budget(Actor::P, first)?;
    let a = take_budget(alloc, Actor::A, lines)?;
    let b = take_budget(alloc, Actor::B, lines)?;
    Ok(Sections { p, a, b })
}

fn take_budget(alloc: Global, actor: Actor, lines: &mut WordLines) -> Result<Budget, ScriptFault>
    ensures { reading.Says (λ budget. (budget, lines.new.words)) result (reading.next_budget_in actor lines.old.words) }
{
    let line = next_due(alloc, lines, ScriptKind::Header, Expected::Budget(actor))?;
    read_budget(actor, &line)
}

/// Takes the lines of the three sections, and sees that `end` ends the text.
fn take_bodies(
    alloc: Global,
    version: Version,
    names: &Names,
    lines: &mut WordLines,
) -> Result<Sections<Vec<Numbered>>, ScriptFault>
    ensures { reading.Says (λ bodies. (bodies.p.items, bodies.a.items, bodies.b.items)) result
        (reading.bodies_in version names.now lines.old.words) }
{
    take_section_line(alloc, lines)?;
    let p = read_section(alloc, version, names, lines, b"A")?;
    let a = read_section(alloc, version, names, lines, b"B")?;
    let b = read_section(alloc, version, names, lines, b"end")?;
    finish(alloc, lines)?;
    Ok(Sections { p, a, b })
}

/// Takes the line before P's lines.
fn take_section_line(alloc: Global, lines: &mut WordLines) -> Result<(), ScriptFault>
    ensures { reading.Says (λ _. lines.new.words) result (reading.section_line_in lines.old.words) }
{
    let line = next_due(
        alloc,
        lines,
        ScriptKind::Unended,
        Expected::Section(Actor::P),
    )?;
    if line.is_only(b"P") {
        Ok(())
    } else {
        Err(no_section_line(&line))
    }
}

/// The fault of a line that is not the word `P` alone.
fn no_section_line(line: &WordLine) -> ScriptFault
    ensures { result.kind ≡ ScriptKind.Line }
{
    match line.others() {
        [other, ..] if line.begins_with(b"P") => WordFault::too_many(1, other).on(line.number()),
        _ => unexpected(ScriptKind::Line, Expected::Section(Actor::P), line),
    }
}

/// The script of its lines.
fn resolve_all(
    alloc: Global,
    names: Names,
    budgets: Sections<Budget>,
    bodies: &Sections<Vec<Numbered>>,
) -> Result<Script, ScriptFault>
    requires { (script : spec.Script)
        → reading.resolved_in names budgets bodies.now.p.items bodies.now.a.items bodies.now.b.items ≡ Some script
        → IsScript script }
    ensures read { reading.Says (λ script. script) result
        (reading.resolved_in names budgets bodies.now.p.items bodies.now.a.items bodies.now.b.items) }
    ensures steps { IfOk result (λ script. reading.HasSteps script bodies.now.p.items bodies.now.a.items bodies.now.b.items) }
{
    let p = resolve(alloc, budgets.p, &bodies.p)?;
    let a = resolve(alloc, budgets.a, &bodies.a)?;
    let b = resolve(alloc, budgets.b, &bodies.b)?;
    Ok(Script::new(names, Sections { p, a, b }))
}
