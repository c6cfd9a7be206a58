//! Reads the code that an image has.
ghost use Rattle.std.specs.Prelude.{◌≡◌, ◌≢◌, IfOk, IfErr};
ghost use Rattle.mc_code.specs.Code as spec;
ghost use Rattle.mc_image.specs.Image.{IsImageOf};
ghost use Rattle.mc_image.specs.ImageReading as reading;

use crate::fields::Fields;
use crate::image_version::version_at;
use crate::read_declared::read_declared;
use crate::read_section::{read_budget, read_instructions};
use crate::read_template::read_templates;
use crate::well_formed::Counts;
use crate::{ImageFault, ImageKind};
use mc_code::{Code, Instr, Section};
use mc_protocol::Sections;
use mc_script::{Budget, Version};
use std::alloc::Global;

/// Reads an image of either version. The fault is that of the first field that is wrong. Whether the fields of a template
/// suit each other is decided once all of them are read; if they don't, the fault has the offset of the template.
pub fn decode(alloc: Global, bytes: &[u8]) -> Result<Code, ImageFault>
    ensures found { IfOk result (λ code. IsImageOf bytes.now code) }
    ensures kept { IfOk result spec.IsCode }
    ensures read { (code : spec.Code) → spec.IsCode code → IsImageOf bytes.now code
        → IfOk result (λ read. read ≡ code) }
    ensures none { IfErr result (λ fault. fault.kind ≢ ImageKind.OutOfMemory
        → (code : spec.Code) → spec.IsCode code → IsImageOf bytes.now code → ⊥) }
    ensures memory { IfErr result (λ fault. fault.kind ≡ ImageKind.OutOfMemory → fault.offset ≡ 0) }
{
    let mut fields = Fields::new(bytes);
    let version = read_version(&mut fields)?;
    let declared = read_declared(alloc, &mut fields, version)?;
    let budgets = read_budgets(&mut fields)?;
    let counts = Counts {
        keys: declared.keys.len(),
        flags: declared.flags,
        vars: declared.vars,
    };
    let templates = read_templates(alloc, &mut fields, version, counts)?;
    let instructions = read_all_instructions(alloc, &mut fields, version)?;
    fields.finish()?;
    let sections = Sections {
        p: section_of(budgets.p, instructions.p),
        a: section_of(budgets.a, instructions.a),
        b: section_of(budgets.b, instructions.b),
    };
    Ok(Code::new(
        declared.keys,
        declared.flags,
        declared.vars,
        templates,
        sections,
    ))
}

/// A section with this budget and these instructions.
fn section_of(budget: Budget, instructions: Vec<Instr>) -> Section
    ensures { result ≡ reading.section_of budget instructions.items }
{
    Section {
        budget,
        instructions,
    }
}

/// Takes the bytes with which an image begins, which say its version.
#[tactic(auto, unfolding(crate::specs::ImageReading::version_in))]
fn read_version(fields: &mut Fields) -> Result<Version, ImageFault>
    ensures { reading.Reads (λ version. (version, fields.new)) result (reading.version_in fields.old) }
{
    let offset = fields.offset();
    let magic = fields.bytes(4)?;
    match version_at(magic) {
        Some(version) => Ok(version),
        None => Err(ImageFault::at(ImageKind::Magic, offset)),
    }
}

/// Takes the budget of each section.
#[tactic(auto, unfolding(crate::specs::ImageReading::each_in))]
fn read_budgets(fields: &mut Fields) -> Result<Sections<Budget>, ImageFault>
    ensures { reading.Reads (λ budgets. (budgets, fields.new)) result
        (reading.each_in reading.budget_in fields.old) }
{
    let p = read_budget(fields)?;
    let a = read_budget(fields)?;
    let b = read_budget(fields)?;
    Ok(Sections { p, a, b })
}

/// Takes the instructions of each section.
#[tactic(auto, unfolding(crate::specs::ImageReading::each_in))]
fn read_all_instructions(
    alloc: Global,
    fields: &mut Fields,
    version: Version,
) -> Result<Sections<Vec<Instr>>, ImageFault>
    ensures { reading.Says (λ all. (record { p = all.p.items; a = all.a.items; b = all.b.items }, fields.new)) result
        (reading.each_in (reading.instructions_in version) fields.old) }
{
    let p = read_instructions(alloc, fields, version)?;
    let a = read_instructions(alloc, fields, version)?;
    let b = read_instructions(alloc, fields, version)?;
    Ok(Sections { p, a, b })
}
