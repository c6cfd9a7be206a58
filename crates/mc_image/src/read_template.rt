//! Reads the templates of an image.
ghost use Rattle.std.specs.Prelude.{◌≡◌, ◌≤◌};
ghost use Rattle.mc_script.specs.declared.limits.TheConstants.{FLAGS_LIMIT};
ghost use Rattle.mc_image.specs.ImageReading as reading;

use crate::fields::Fields;
use crate::well_formed::{Counts, is_template};
use crate::{ImageFault, ImageKind};
use mc_code::TEMPLATES_LIMIT;
use mc_protocol::{Bytes, SCRIPT_BODY_LIMIT, Verb};
use mc_script::{Argument, Mask, Template, Version};
use std::alloc::Global;

/// Takes the number of the templates, and each template. `counts` says what is declared.
#[tactic(auto, unfolding(crate::specs::ImageReading::templates_in))]
pub(crate) fn read_templates(
    alloc: Global,
    fields: &mut Fields,
    version: Version,
    counts: Counts,
) -> Result<Vec<Template>, ImageFault>
    requires { counts.flags ≤ FLAGS_LIMIT }
    ensures { reading.Says (λ templates. (templates.items, fields.new)) result
        (reading.templates_in version counts.keys counts.flags counts.vars fields.old) }
{
    let count = fields.byte_within(0, TEMPLATES_LIMIT)?;
    let mut templates = Vec::new(alloc);
    for _ in 0..count {
        let template = read_template(alloc, fields, version, counts)?;
        templates.push(template)?;
    }
    Ok(templates)
}

/// Takes a template. Whether its fields suit each other is decided once all of them are read.
#[tactic(auto, unfolding(crate::specs::ImageReading::template_in, crate::specs::ImageReading::template_if_valid))]
fn read_template(
    alloc: Global,
    fields: &mut Fields,
    version: Version,
    counts: Counts,
) -> Result<Template, ImageFault>
    requires { counts.flags ≤ FLAGS_LIMIT }
    ensures { reading.Says (λ template. (template, fields.new)) result
        (reading.template_in version counts.keys counts.flags counts.vars fields.old) }
{
    let offset = fields.offset();
    let verb = read_verb(fields)?;
    let key = fields.byte()?;
    let flags = fields.number_32()?;
    let argument = read_argument(fields, counts.vars)?;
    let body = fields.counted_bytes(0, SCRIPT_BODY_LIMIT)?;
    let masks = read_masks(fields, version)?;
    let Some(argument) = argument else {
        return Err(ImageFault::at(ImageKind::Template, offset));
    };
    let template = Template {
        verb,
        key,
        flags,
        argument,
        body: Bytes::new(Vec::from_slice(alloc, body)?),
        require_set: masks.require_set,
        require_clear: masks.require_clear,
        sets: masks.sets,
        clears: masks.clears,
    };
    if !is_template(counts, &template) {
        return Err(ImageFault::at(ImageKind::Template, offset));
    }
    Ok(template)
}

/// Takes a verb.
#[tactic(auto, unfolding(crate::specs::ImageReading::verb_in))]
fn read_verb(fields: &mut Fields) -> Result<Verb, ImageFault>
    ensures { reading.Reads (λ verb. (verb, fields.new)) result (reading.verb_in fields.old) }
{
    let offset = fields.offset();
    let index = fields.byte()?;
    match verb_at(index) {
        Some(verb) => Ok(verb),
        None => Err(ImageFault::at(ImageKind::Range, offset)),
    }
}

/// The verb with this index, in the order of the verbs.
#[tactic(auto, unfolding(crate::specs::ImageReading::verb_at))]
fn verb_at(index: u8) -> Option<Verb>
    ensures { result ≡ reading.verb_at index }
{
    Verb::ALL.get(usize::from(index)).copied()
}

/// Takes the sort of an argument, and its number. `None` says that the number doesn't suit the sort.
#[tactic(auto, unfolding(crate::specs::ImageReading::argument_in))]
fn read_argument(fields: &mut Fields, vars: u8) -> Result<Option<Argument>, ImageFault>
    ensures { reading.Reads (λ argument. (argument, fields.new)) result (reading.argument_in vars fields.old) }
{
    let sort = fields.byte_within(0, 2)?;
    let number = fields.number_64()?;
    Ok(argument_of(vars, sort, number))
}

/// The argument of this sort with this number, if there is one. `vars` is how many variables there are.
#[tactic(auto, unfolding(crate::specs::ImageReading::argument_of))]
fn argument_of(vars: u8, sort: u8, number: u64) -> Option<Argument>
    ensures { result ≡ reading.argument_of vars sort number }
{
    match sort {
        0 if number == 0 => Some(Argument::Nothing),
        0 => None,
        1 => Some(Argument::Number(number)),
        _ if number < u64::from(vars) => Some(Argument::Variable(number as u8)),
        _ => None,
    }
}

/// Which flags a request needs, and which it changes.
#[derive(Clone, Copy)]
struct Masks {
    require_set: Mask,
    require_clear: Mask,
    sets: Mask,
    clears: Mask,
}

/// Takes the masks of a template.
#[tactic(auto, unfolding(crate::specs::ImageReading::masks_in))]
fn read_masks(fields: &mut Fields, version: Version) -> Result<Masks, ImageFault>
    ensures { reading.Reads (λ masks. (masks, fields.new)) result (reading.masks_in version fields.old) }
{
    let require_set = fields.mask(version)?;
    let require_clear = fields.mask(version)?;
    let sets = fields.mask(version)?;
    let clears = fields.mask(version)?;
    Ok(Masks {
        require_set,
        require_clear,
        sets,
        clears,
    })
}
