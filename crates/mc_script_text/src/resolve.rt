//! Makes a section of the lines that were read: each label gets its place, and each use of a label its index.

ghost use Rattle.std.specs.Prelude.{◌≡◌, ◌<◌, Some, None, length, IfOk, MatchOption};
ghost use Rattle.std.specs.Result.{result_ok};
ghost use Rattle.mc_script.specs.declared.limits.TheConstants.{FLAGS_LIMIT};
ghost use Rattle.mc_protocol.specs.Words.{all_classes};
ghost use Rattle.mc_script_text.specs.declared.entry.Entry.TheVariants as entry;
ghost use Rattle.mc_script_text.specs.Marks as said;
ghost use Rattle.mc_script_text.specs.Steps as spec;
ghost use Rattle.mc_script_text.specs.Reading as reading;

use crate::entry::{Entry, Mark, Marks, Sign, is_label};
use crate::fields::mark_word;
use crate::section_text::Numbered;
use crate::word_fault::WordFault;
use crate::{Expected, ScriptFault, ScriptKind, Sort};
use mc_protocol::{Class, OutOfMemory, Verb};
use mc_script::{Budget, Jumps, Label, Mask, Section, Step, Template};
use std::alloc::Global;

/// Makes a section of its lines.
#[tactic(auto, using(crate::proofs::SectionLines::steps_count))]
pub(crate) fn resolve(
    alloc: Global,
    budget: Budget,
    entries: &[Numbered],
) -> Result<Section, ScriptFault>
    ensures read { reading.Says (λ section. section) result (reading.section_in budget entries.now) }
    ensures steps { IfOk result (λ section. length section.steps ≡ reading.step_total entries.now) }
{
    let labels = labels_of(alloc, entries)?;
    let steps = steps_of(alloc, &labels, entries)?;
    Ok(Section {
        budget,
        steps,
        labels,
    })
}

/// The labels, each with its place.
fn labels_of(alloc: Global, entries: &[Numbered]) -> Result<Vec<Label>, OutOfMemory>
    ensures { IfOk result (λ labels. labels.items ≡ spec.labels_from 0 entries.now) }
{
    let mut labels = Vec::new(alloc);
    let mut place = 0;
    'entries: for numbered in entries {
        match &numbered.entry {
            Entry::Label(name) => {
                let name = name.copy(alloc)?;
                labels.push(Label { name, place })?;
            }
            _ => place += 1,
        }
    }
    Ok(labels)
}

/// The steps. The fault is that of the first use of a label that no later line has.
fn steps_of(alloc: Global, labels: &[Label], entries: &[Numbered]) -> Result<Vec<Step>, ScriptFault>
    ensures { reading.Says (λ steps. steps.items) result (spec.steps_from labels.now 0 entries.now) }
{
    let mut steps = Vec::new(alloc);
    'entries: for numbered in entries {
        if !is_label(&numbered.entry) {
            match step_of(alloc, labels, steps.len(), &numbered.entry) {
                Ok(step) => steps.push(step)?,
                Err(fault) => return Err(fault.on(numbered.line)),
            }
        }
    }
    Ok(steps)
}

/// The step at `place`, of a line that is no label.
fn step_of(alloc: Global, labels: &[Label], place: usize, entry: &Entry) -> Result<Step, WordFault>
    ensures { reading.Gives result (spec.step_in labels.now place entry.now) }
{
    match entry {
        Entry::Label(_) => Err(WordFault::line(0, Expected::Step)),
        Entry::Send(template, marks) => send_of(alloc, labels, place, template, marks),
        Entry::Bind(variable) => Ok(Step::Bind(*variable)),
        Entry::Goto(name) => goto_of(labels, place, name.as_slice()),
        Entry::Halt => Ok(Step::Halt),
    }
}

fn goto_of(labels: &[Label], place: usize, name: &[u8]) -> Result<Step, WordFault>
    ensures { reading.Gives result (spec.step_in labels.now place (entry.Goto name.now)) }
{
    Ok(Step::Goto(find_label(labels, place, 1, name)?))
}

/// The request with its marks.
fn send_of(
    alloc: Global,
    labels: &[Label],
    place: usize,
    template: &Template,
    marks: &Marks,
) -> Result<Step, WordFault>
    ensures { reading.Gives result (spec.step_in labels.now place (entry.Send template.now marks.now)) }
{
    let jumps = jumps_of(alloc, labels, place, template.verb, marks)?;
    let marks = marks.as_slice();
    let template = with_marks(alloc, template, marks)?;
    let bind = bound_by(marks);
    Ok(Step::Send {
        template,
        jumps,
        bind,
    })
}

/// The request with the flags of its marks.
fn with_marks(alloc: Global, template: &Template, marks: &[Mark]) -> Result<Template, OutOfMemory>
    ensures { IfOk result (λ request. request ≡ spec.with_marks template.now marks.now) }
{
    Ok(Template {
        verb: template.verb,
        key: template.key,
        flags: template.flags,
        argument: template.argument,
        body: template.body.copy(alloc)?,
        require_set: mask_of(Sign::RequireSet, marks),
        require_clear: mask_of(Sign::RequireClear, marks),
        sets: mask_of(Sign::Sets, marks),
        clears: mask_of(Sign::Clears, marks),
    })
}

/// The flags that the marks have with this sign.
fn mask_of(sign: Sign, marks: &[Mark]) -> Mask
    ensures { result ≡ said.mask_of sign marks.now }
{
    let mut mask = 0;
    'marks: for mark in marks {
        if let Some(flag) = says(sign, mark) {
            mask |= flag_mask(flag);
        }
    }
    mask
}

fn flag_mask(flag: u8) -> Mask
    requires { flag < FLAGS_LIMIT }
    ensures { result ≡ said.flag_mask flag }
{
    1 << flag
}

/// The flag of the mark, if it has this sign.
fn says(sign: Sign, mark: &Mark) -> Option<u8>
    ensures flag { result ≡ said.says sign mark.now }
    ensures below { MatchOption result (sign ≡ sign) (λ f. f < FLAGS_LIMIT) }
{
    match mark {
        Mark::Flag(other, flag) if *other == sign => Some(flag.index()),
        _ => None,
    }
}

/// The variable that the marks bind.
fn bound_by(marks: &[Mark]) -> Option<u8>
    ensures { result ≡ said.bound_by marks.now }
{
    'marks: for mark in marks {
        if let Mark::Bind(variable) = mark {
            return Some(*variable);
        }
    }
    None
}

/// The jumps of the marks of a request, in the order of their classes. The fault is that of the leftmost faulty one.
fn jumps_of(
    alloc: Global,
    labels: &[Label],
    place: usize,
    verb: Verb,
    marks: &Marks,
) -> Result<Jumps, WordFault>
    ensures { reading.Gives result (spec.jumps_on labels.now place marks.now all_classes) }
{
    let targets = targets_of(alloc, labels, place, verb, marks.as_slice())?;
    let jumps = jumps_to(alloc, &targets, &Class::ALL)?;
    Ok(Jumps::new(jumps))
}

/// The jumps of the marks of a request, in the order of the marks.
fn targets_of(
    alloc: Global,
    labels: &[Label],
    place: usize,
    verb: Verb,
    marks: &[Mark],
) -> Result<Vec<(Class, usize)>, WordFault>
    ensures { reading.Shows (λ targets. targets.items) result (reading.targets_in labels.now place marks.now) }
{
    let mut targets = Vec::new(alloc);
    let mut word = mark_word(verb.fields(), 0);
    'marks: for mark in marks {
        if let Mark::Jump(class, name) = mark {
            let label = find_label(labels, place, word, name.as_slice())?;
            targets.push((*class, label))?;
        }
        word = word.saturating_add(1);
    }
    Ok(targets)
}

/// The targets in the order of these classes.
fn jumps_to(
    alloc: Global,
    targets: &[(Class, usize)],
    classes: &[Class],
) -> Result<Vec<(Class, usize)>, OutOfMemory>
    ensures { IfOk result (λ jumps. jumps.items ≡ reading.jumps_to targets.now classes.now) }
{
    let mut jumps = Vec::new(alloc);
    'classes: for class in classes {
        if let Some(label) = label_for(*class, targets) {
            jumps.push((*class, label))?;
        }
    }
    Ok(jumps)
}

/// The label of the first of these jumps on the class.
fn label_for(class: Class, jumps: &[(Class, usize)]) -> Option<usize>
    ensures { result ≡ reading.label_for class jumps.now }
{
    'jumps: for (other, label) in jumps {
        if *other == class {
            return Some(*label);
        }
    }
    None
}

/// The index of the label with this name, which stands after the step at `place`. `word` is the index of the word that
/// names it.
fn find_label(labels: &[Label], place: usize, word: usize, name: &[u8]) -> Result<usize, WordFault>
    ensures { result_ok result ≡ spec.label_after labels.now place name.now }
{
    match label_after(labels, place, name) {
        Some(label) => Ok(label),
        None if has_label(labels, name) => {
            let expected = Expected::LabelBelow;
            Err(WordFault::new(ScriptKind::BackwardLabel, word, expected))
        }
        None => {
            let expected = Expected::KnownName(Sort::Label);
            Err(WordFault::new(ScriptKind::UnknownLabel, word, expected))
        }
    }
}

fn label_after(labels: &[Label], place: usize, name: &[u8]) -> Option<usize>
    ensures { result ≡ spec.label_after labels.now place name.now }
{
    labels.iter().position(|label| label.name.as_slice() == name && place < label.place)
}

fn has_label(labels: &[Label], name: &[u8]) -> bool {
    labels.iter().any(|label| label.name.as_slice() == name)
}
