//! Scripts, and their parts.

ghost use Rattle.std.specs.Prelude.{◌≡◌};
ghost use Rattle.mc_script.specs.Script as spec;
ghost use Rattle.mc_script.specs.WellFormed.{IsScript};

use crate::names::Names;
use crate::section::Section;
use crate::{Budget, Label, Step};
use mc_protocol::{Actor, Bytes, Sections};
use std::marker::Model;

/// A script: the names that it declares, and its three sections. Each value is one that a text can spell. Contracts see
/// its parts as lists.
#[derive(Debug)]
pub struct Script {
    pub(crate) names: Names,
    pub(crate) sections: Sections<Section>,
}

// One call drops its parts. A derived `Drop` would write them out at each end of each function that holds one.
impl Drop for Script {
    fn drop(self) {
        let Script {
            names: _,
            sections: _,
        } = self;
    }
}

impl Model for Script {
    ghost use Rattle.mc_script.specs.Script as spec;
    ghost use Rattle.mc_script.specs.WellFormed.{IsScript};

    ghost Value = { spec.Script };

    ghost view = { λ s. record { names = s.names; sections = s.sections } };

    ghost invariant = { λ s. IsScript (record { names = s.names; sections = s.sections }) };
}

impl Script {
    /// The script of these names and sections, which must be one.
    pub fn new(names: Names, sections: Sections<Section>) -> Self
        requires { IsScript (record { names = names; sections = sections }) }
        ensures { result ≡ record { names = names; sections = sections } }
    {
        Script { names, sections }
    }

    /// The keys, in the order of their declaration.
    pub fn keys(&self) -> &[Bytes]
        ensures keys { result.now ≡ self.now.names.keys }
        ensures kept { IsScript self.now }
    {
        self.names.keys()
    }

    /// The names of the flags, in the order of their declaration.
    pub fn flags(&self) -> &[Bytes]
        ensures { result.now ≡ self.now.names.flags }
    {
        self.names.flags()
    }

    /// The names of the variables, in the order of their declaration.
    pub fn vars(&self) -> &[Bytes]
        ensures { result.now ≡ self.now.names.vars }
    {
        self.names.vars()
    }

    /// What a section may send at most.
    pub fn budget(&self, actor: Actor) -> Budget
        ensures { result ≡ (spec.section_of self.now actor).budget }
    {
        self.section(actor).budget
    }

    /// A section's steps, in order.
    pub fn steps(&self, actor: Actor) -> &[Step]
        ensures steps { result.now ≡ (spec.section_of self.now actor).steps }
        ensures kept { IsScript self.now }
    {
        self.section(actor).steps.as_slice()
    }

    /// A section's labels, in the order of the text.
    pub fn labels(&self, actor: Actor) -> &[Label]
        ensures { result.now ≡ (spec.section_of self.now actor).labels }
    {
        self.section(actor).labels.as_slice()
    }

    /// All the names that it declares.
    pub fn names(&self) -> &Names
        ensures names { result.now ≡ self.now.names }
        ensures kept { IsScript self.now }
    {
        &self.names
    }

    /// The section of a client, or of the prefix.
    pub fn section(&self, actor: Actor) -> &Section
        ensures section { result.now ≡ spec.section_of self.now actor }
        ensures kept { IsScript self.now }
    {
        self.sections.get(actor)
    }
}
