//! A script less one of its steps.

ghost use Rattle.std.specs.Prelude.{◌≡◌, ◌<◌, length, map, IfOk};
ghost use Rattle.mc_protocol.specs.Sections as of;
ghost use Rattle.mc_script.specs.Script as spec;
ghost use Rattle.mc_script.specs.WithoutStep as less;

use crate::copies::copy_steps;
use crate::section::Section;
use crate::{Label, Script};
use mc_protocol::{Actor, OutOfMemory, Sections};
use std::alloc::Global;

/// The script less one step of a section, which must exist. A label after the step stands one place earlier; one at the
/// step is then a label of the next step, or of the section's end.
pub fn without(
    alloc: Global,
    script: &Script,
    actor: Actor,
    step: usize,
) -> Result<Script, OutOfMemory>
    requires { step < length (spec.section_of script.now actor).steps }
    ensures { IfOk result (λ others. others ≡ less.without_step script.now actor step) }
{
    let names = script.names.copy(alloc)?;
    let sections = sections_without(alloc, &script.sections, actor, step)?;
    Ok(Script { names, sections })
}

/// The sections less this step of one of them.
fn sections_without(
    alloc: Global,
    sections: &Sections<Section>,
    actor: Actor,
    step: usize,
) -> Result<Sections<Section>, OutOfMemory>
    requires { step < length (of.section_of sections.now actor).steps }
    ensures { IfOk result (λ others. others ≡ less.sections_without actor step sections.now) }
{
    let Sections { p, a, b } = sections;
    match actor {
        Actor::P => Ok(Sections {
            p: section_without(alloc, p, step)?,
            a: a.copy(alloc)?,
            b: b.copy(alloc)?,
        }),
        Actor::A => Ok(Sections {
            p: p.copy(alloc)?,
            a: section_without(alloc, a, step)?,
            b: b.copy(alloc)?,
        }),
        Actor::B => Ok(Sections {
            p: p.copy(alloc)?,
            a: a.copy(alloc)?,
            b: section_without(alloc, b, step)?,
        }),
    }
}

/// The section less this step.
fn section_without(alloc: Global, section: &Section, step: usize) -> Result<Section, OutOfMemory>
    requires { step < length section.now.steps }
    ensures { IfOk result (λ others. others ≡ less.section_without step section.now) }
{
    let mut steps = copy_steps(alloc, &section.steps)?;
    steps.remove(step);
    Ok(Section {
        budget: section.budget,
        steps,
        labels: labels_without(alloc, &section.labels, step)?,
    })
}

/// The labels as they stand without this step.
fn labels_without(alloc: Global, labels: &[Label], step: usize) -> Result<Vec<Label>, OutOfMemory>
    ensures { IfOk result (λ moved. moved.items ≡ map (less.label_without step) labels.now) }
{
    let mut moved = Vec::new(alloc);
    'labels: for label in labels {
        let name = label.name.copy(alloc)?;
        let place = if step < label.place {
            label.place - 1
        } else {
            label.place
        };
        moved.push(Label { name, place })?;
    }
    Ok(moved)
}
