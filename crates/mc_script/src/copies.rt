//! Copies of what a script has, in memory of their own.

ghost use Rattle.std.specs.Prelude.{◌≡◌, IfOk};

use crate::names::Names;
use crate::section::Section;
use crate::{Jumps, Label, Step, Template};
use mc_protocol::{Bytes, OutOfMemory};
use std::alloc::Global;

impl Template {
    /// A copy, in memory of its own.
    pub fn copy(&self, alloc: Global) -> Result<Self, OutOfMemory>
        ensures { IfOk result (λ copy. copy ≡ self.now) }
    {
        Ok(Template {
            verb: self.verb,
            key: self.key,
            flags: self.flags,
            argument: self.argument,
            body: self.body.copy(alloc)?,
            require_set: self.require_set,
            require_clear: self.require_clear,
            sets: self.sets,
            clears: self.clears,
        })
    }
}

impl Jumps {
    fn copy(&self, alloc: Global) -> Result<Self, OutOfMemory>
        ensures { IfOk result (λ copy. copy ≡ self.now) }
    {
        Ok(Jumps::new(Vec::from_slice(alloc, self.as_slice())?))
    }
}

impl Step {
    fn copy(&self, alloc: Global) -> Result<Self, OutOfMemory>
        ensures { IfOk result (λ copy. copy ≡ self.now) }
    {
        match self {
            Step::Send {
                template,
                jumps,
                bind,
            } => Ok(Step::Send {
                template: template.copy(alloc)?,
                jumps: jumps.copy(alloc)?,
                bind: *bind,
            }),
            Step::Bind(variable) => Ok(Step::Bind(*variable)),
            Step::Goto(label) => Ok(Step::Goto(*label)),
            Step::Halt => Ok(Step::Halt),
        }
    }
}

impl Names {
    pub(crate) fn copy(&self, alloc: Global) -> Result<Self, OutOfMemory>
        ensures { IfOk result (λ copy. copy ≡ self.now) }
    {
        let keys = copy_all(alloc, self.keys())?;
        let flags = copy_all(alloc, self.flags())?;
        let vars = copy_all(alloc, self.vars())?;
        Ok(Names::new(keys, flags, vars))
    }
}

impl Section {
    pub(crate) fn copy(&self, alloc: Global) -> Result<Self, OutOfMemory>
        ensures { IfOk result (λ copy. copy ≡ self.now) }
    {
        Ok(Section {
            budget: self.budget,
            steps: copy_steps(alloc, &self.steps)?,
            labels: copy_labels(alloc, &self.labels)?,
        })
    }
}

/// A copy of each of these, in memory of its own.
pub fn copy_all(alloc: Global, words: &[Bytes]) -> Result<Vec<Bytes>, OutOfMemory>
    ensures { IfOk result (λ copies. copies.items ≡ words.now) }
{
    let mut copies = Vec::new(alloc);
    'words: for word in words {
        copies.push(word.copy(alloc)?)?;
    }
    Ok(copies)
}

pub(crate) fn copy_steps(alloc: Global, steps: &[Step]) -> Result<Vec<Step>, OutOfMemory>
    ensures { IfOk result (λ copies. copies.items ≡ steps.now) }
{
    let mut copies = Vec::new(alloc);
    'steps: for step in steps {
        copies.push(step.copy(alloc)?)?;
    }
    Ok(copies)
}

fn copy_labels(alloc: Global, labels: &[Label]) -> Result<Vec<Label>, OutOfMemory>
    ensures { IfOk result (λ copies. copies.items ≡ labels.now) }
{
    let mut copies = Vec::new(alloc);
    'labels: for label in labels {
        let name = label.name.copy(alloc)?;
        copies.push(Label {
            name,
            place: label.place,
        })?;
    }
    Ok(copies)
}
