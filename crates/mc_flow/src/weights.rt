//! What a call of each template costs.
ghost use Rattle.std.specs.Prelude.{◌≡◌, ◌<◌, ◌≤◌, Some, IfOk, length, slice_get};
ghost use Rattle.mc_code.specs.Code as codes;
ghost use Rattle.mc_flow.specs.CostTables as tables;

use crate::text_len::text_len;
use mc_code::Code;
use mc_protocol::OutOfMemory;
use mc_sound::{Cost, Measure};
use std::alloc::Global;

/// What a call of each template of a code costs.
#[derive(Debug, Drop)]
pub struct Weights {
    /// How many bytes it has, in the order of the templates.
    bytes: Vec<u32>,
}

impl Weights {
    /// The weights of the code's templates.
    pub(crate) fn new(alloc: Global, code: &Code) -> Result<Self, OutOfMemory>
        ensures exact { IfOk result (tables.AreWeights code.now) }
        ensures kept { codes.IsCode code.now }
    {
        let bytes = template_bytes(alloc, code)?;
        Ok(Weights { bytes })
    }

    /// What a call of the template with this index costs.
    pub fn of(&self, template: u8) -> Cost
        requires { template < length self.now.bytes.items }
        ensures requests { result.requests ≡ 1 }
        ensures bytes { slice_get self.now.bytes.items template ≡ Some result.bytes }
    {
        Cost {
            requests: 1,
            bytes: self.bytes[usize::from(template)],
        }
    }
}

/// How many bytes a call of each template has, in the order of the templates.
fn template_bytes(alloc: Global, code: &Code) -> Result<Vec<u32>, OutOfMemory>
    ensures bytes { IfOk result (λ bytes. bytes.items ≡ tables.weights_of code.now Measure.Bytes) }
    ensures kept { codes.IsCode code.now }
{
    let mut bytes = Vec::new(alloc);
    'templates: for template in 0..code.templates().len() as u8 {
        bytes.push(call_bytes(code, template))?;
    }
    Ok(bytes)
}

/// What a call of the template with this index costs by the measure.
pub fn call_cost(code: &Code, measure: Measure, template: u8) -> u32
    requires { template < length code.now.templates }
    ensures weight { slice_get (tables.weights_of code.now measure) template ≡ Some result }
    ensures small { result ≤ 1000 }
{
    match measure {
        Measure::Requests => 1,
        Measure::Bytes => call_bytes(code, template),
    }
}

/// How many bytes the text of a call's request has, with the longest number that the call may have.
fn call_bytes(code: &Code, template: u8) -> u32
    requires { template < length code.now.templates }
    ensures weight { slice_get (tables.weights_of code.now Measure.Bytes) template ≡ Some result }
    ensures small { result ≤ 1000 }
{
    let template = code.template(template);
    let key = &code.keys()[usize::from(template.key)];
    text_len(key.as_slice(), template) as u32
}
