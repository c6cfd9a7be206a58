//! Reads the budgets and the instructions of an image.
ghost use Rattle.std.specs.Prelude.{◌≡◌};
ghost use Rattle.mc_image.specs.ImageReading as reading;

use crate::fields::Fields;
use crate::{ImageFault, ImageKind};
use mc_code::{CLASS_COUNT, Instr};
use mc_protocol::{REQUEST_BYTES_LIMIT, REQUESTS_LIMIT};
use mc_script::{Budget, Version};
use std::alloc::Global;

/// Takes the budget of a section.
#[tactic(auto, unfolding(crate::specs::ImageReading::budget_in))]
pub(crate) fn read_budget(fields: &mut Fields) -> Result<Budget, ImageFault>
    ensures { reading.Reads (λ budget. (budget, fields.new)) result (reading.budget_in fields.old) }
{
    let requests = fields.byte_within(0, REQUESTS_LIMIT)?;
    let offset = fields.offset();
    let bytes = fields.number_16()?;
    if usize::from(bytes) > REQUEST_BYTES_LIMIT {
        return Err(ImageFault::at(ImageKind::Range, offset));
    }
    Ok(Budget {
        requests: u32::from(requests),
        bytes: u32::from(bytes),
    })
}

/// Takes the number of a section's instructions, and each instruction.
#[tactic(auto, unfolding(crate::specs::ImageReading::instructions_in))]
pub(crate) fn read_instructions(
    alloc: Global,
    fields: &mut Fields,
    version: Version,
) -> Result<Vec<Instr>, ImageFault>
    ensures { reading.Says (λ instructions. (instructions.items, fields.new)) result
        (reading.instructions_in version fields.old) }
{
    let count = fields.byte_within(0, version.steps_limit())?;
    let mut instructions = Vec::new(alloc);
    for _ in 0..count {
        let instr = read_instr(fields)?;
        instructions.push(instr)?;
    }
    Ok(instructions)
}

/// Takes an instruction.
#[tactic(auto, unfolding(crate::specs::ImageReading::instr_in, crate::specs::ImageReading::after_sort))]
fn read_instr(fields: &mut Fields) -> Result<Instr, ImageFault>
    ensures { reading.Reads (λ instr. (instr, fields.new)) result (reading.instr_in fields.old) }
{
    match fields.byte_within(0, 3)? {
        0 => read_send(fields),
        1 => read_bind(fields),
        2 => read_goto(fields),
        _ => Ok(Instr::Halt),
    }
}

/// Takes the fields of a send after its sort.
#[tactic(auto, unfolding(crate::specs::ImageReading::send_in))]
fn read_send(fields: &mut Fields) -> Result<Instr, ImageFault>
    ensures { reading.Reads (λ instr. (instr, fields.new)) result (reading.send_in fields.old) }
{
    let template = fields.byte()?;
    let entries = fields.bytes(CLASS_COUNT)?;
    let mut next = [0; CLASS_COUNT];
    next.copy_from_slice(entries);
    Ok(Instr::Send { template, next })
}

/// Takes the variable of a bind.
#[tactic(auto, unfolding(crate::specs::ImageReading::bind_in))]
fn read_bind(fields: &mut Fields) -> Result<Instr, ImageFault>
    ensures { reading.Reads (λ instr. (instr, fields.new)) result (reading.bind_in fields.old) }
{
    let variable = fields.byte()?;
    Ok(Instr::Bind(variable))
}

/// Takes the place of a goto.
#[tactic(auto, unfolding(crate::specs::ImageReading::goto_in))]
fn read_goto(fields: &mut Fields) -> Result<Instr, ImageFault>
    ensures { reading.Reads (λ instr. (instr, fields.new)) result (reading.goto_in fields.old) }
{
    let place = fields.byte()?;
    Ok(Instr::Goto(place))
}
