//! Code, and the requests that it makes.
ghost use Rattle.std.specs.Prelude.{◌≡◌, ◌<◌, Some, length, slice_get, IfOk};
ghost use Rattle.mc_code.specs.Code as spec;
ghost use Rattle.mc_code.specs.Requests as requests;

use crate::{Call, Instr};
use mc_protocol::{Actor, Bytes, OutOfMemory, Request, Sections};
use mc_script::{Budget, Template};
use std::alloc::Global;
use std::marker::Model;

/// A section of code. Contracts see the vector as a list.
#[derive(Debug, Drop)]
pub struct Section {
    /// The most that it may send.
    pub budget: Budget,
    /// It begins with the first.
    pub instructions: Vec<Instr>,
}

impl Model for Section {
    ghost use Rattle.mc_code.specs.Code as spec;

    ghost Value = { spec.Section };

    ghost view = { λ s. record { budget = s.budget; instructions = s.instructions.items } };
}

/// Code: 1 to 8 keys, at most 64 flags and 16 variables, at most 64 templates, and three sections of at most 128
/// instructions each. A template's key, flags and variable are declared. An instruction may name a template, a variable or
/// a place that isn't there. Contracts see the vectors as lists.
#[derive(Debug)]
pub struct Code {
    pub(crate) keys: Vec<Bytes>,
    pub(crate) flags: u8,
    pub(crate) vars: u8,
    pub(crate) templates: Vec<Template>,
    pub(crate) sections: Sections<Section>,
}

// One call drops its parts. A derived `Drop` would write them out at each end of each function that holds one.
impl Drop for Code {
    fn drop(self) {
        let Code {
            keys: _,
            flags: _,
            vars: _,
            templates: _,
            sections: _,
        } = self;
    }
}

impl Model for Code {
    ghost use Rattle.mc_code.specs.Code as spec;

    ghost Value = { spec.Code };

    ghost view = { λ c. record {
      keys = c.keys.items;
      flags = c.flags;
      vars = c.vars;
      templates = c.templates.items;
      sections = c.sections;
    } };

    ghost invariant = { λ c. spec.IsCode (record {
      keys = c.keys.items;
      flags = c.flags;
      vars = c.vars;
      templates = c.templates.items;
      sections = c.sections;
    }) };
}

impl Code {
    /// The code of these parts, which must be within the limits of code.
    pub fn new(
        keys: Vec<Bytes>,
        flags: u8,
        vars: u8,
        templates: Vec<Template>,
        sections: Sections<Section>,
    ) -> Self
        requires { spec.IsCode (spec.code_of keys.items flags vars templates.items sections) }
        ensures { result ≡ spec.code_of keys.items flags vars templates.items sections }
    {
        Code {
            keys,
            flags,
            vars,
            templates,
            sections,
        }
    }

    /// The keys, in the order in which they were declared.
    pub fn keys(&self) -> &[Bytes]
        ensures keys { result.now ≡ self.now.keys }
        ensures kept { spec.IsCode self.now }
    {
        self.keys.as_slice()
    }

    /// How many flags there are.
    pub fn flags(&self) -> usize
        ensures { result ≡ self.now.flags }
    {
        self.flags as usize
    }

    /// How many variables there are.
    pub fn vars(&self) -> usize
        ensures { result ≡ self.now.vars }
    {
        self.vars as usize
    }

    /// The most that a section may send.
    pub fn budget(&self, actor: Actor) -> Budget
        ensures budget { result ≡ (spec.section_of self.now actor).budget }
        ensures kept { spec.IsCode self.now }
    {
        self.sections.get(actor).budget
    }

    /// The templates of the requests. An instruction or a call names one by its index.
    pub fn templates(&self) -> &[Template]
        ensures templates { result.now ≡ self.now.templates }
        ensures kept { spec.IsCode self.now }
    {
        self.templates.as_slice()
    }

    /// The template with this index.
    pub fn template(&self, index: u8) -> &Template
        requires { index < length self.now.templates }
        ensures template { slice_get self.now.templates index ≡ Some result.now }
        ensures kept { spec.IsCode self.now }
    {
        &self.templates[usize::from(index)]
    }

    /// The instructions of a section, which begins with the first.
    pub fn section(&self, actor: Actor) -> &[Instr]
        ensures { result.now ≡ (spec.section_of self.now actor).instructions }
    {
        self.sections.get(actor).instructions.as_slice()
    }

    /// The instruction of a section at this place.
    pub fn instruction(&self, actor: Actor, place: usize) -> Instr
        requires { place < length (spec.instructions_in self.now actor) }
        ensures instruction { slice_get (spec.instructions_in self.now actor) place ≡ Some result }
        ensures kept { spec.IsCode self.now }
    {
        self.sections.get(actor).instructions[place]
    }

    /// The request of a call: that of its template, with the call's number. Its key and its body are copies, for which
    /// memory may run out.
    pub fn request(&self, alloc: Global, call: Call) -> Result<Request, OutOfMemory>
        requires { call.template < length self.now.templates }
        ensures { IfOk result (requests.IsRequest self.now call) }
    {
        let template = self.template(call.template);
        Ok(Request {
            verb: template.verb,
            key: self.keys[usize::from(template.key)].copy(alloc)?,
            flags: template.flags,
            body: template.body.copy(alloc)?,
            number: call.number,
        })
    }
}
