//! Writes the image of code.
ghost use Rattle.std.specs.Prelude.{◌≡◌, ◌≤◌, ◌∷◌, ◌++◌, length, OnOk, OnErr};
ghost use Rattle.std.specs.{List.All, Int.w64, Int.to_be_bytes};
ghost use Rattle.mc_protocol.specs.declared.limits.TheConstants.{REQUESTS_LIMIT, REQUEST_BYTES_LIMIT};
ghost use Rattle.mc_code.specs.declared.limits.TheConstants.{INSTRUCTIONS_LIMIT, TEMPLATES_LIMIT};
ghost use Rattle.mc_image.specs.Image as image;
ghost use Rattle.mc_image.specs.{Image.image_of, ImageWriting.FitsImage, ImageWriting.FitsMask};

use crate::image_version::magic;
use mc_code::{Code, Instr};
use mc_protocol::{Actor, Bytes, OutOfMemory, Verb, append_all};
use mc_script::{Argument, Budget, Mask, Template, Version};

/// Appends the image of code: one of version 1 where the code has at most 32 flags and each of its sections at most 64
/// instructions, and otherwise one of version 2. Where memory runs out, `out` stays as it was.
pub fn encode(code: &Code, out: &mut Vec<u8>) -> Result<(), OutOfMemory>
    ensures ok { OnOk result (out.new.items ≡ out.old.items ++ image_of code.now) }
    ensures err { OnErr result (out.new.items ≡ out.old.items) }
{
    let version = version_of(code);
    let mut image = Vec::new(*out.allocator());
    image.extend_from_slice(magic(version))?;
    push_keys(code.keys(), &mut image)?;
    image.extend_from_slice(&[code.flags() as u8, code.vars() as u8])?;
    push_budgets(code, &mut image)?;
    push_templates(version, code.templates(), &mut image)?;
    push_instructions(code.section(Actor::P), &mut image)?;
    push_instructions(code.section(Actor::A), &mut image)?;
    push_instructions(code.section(Actor::B), &mut image)?;
    out.extend_from_slice(image.as_slice())?;
    Ok(())
}

/// The version of the image of code: the first one whose limits it keeps.
fn version_of(code: &Code) -> Version
    ensures { result ≡ image.version_of code.now }
{
    let p = code.section(Actor::P).len();
    let a = code.section(Actor::A).len();
    let b = code.section(Actor::B).len();
    Version::least(code.flags(), p.max(a.max(b)))
}

/// Appends the number of the keys, and each key with its length before it.
fn push_keys(keys: &[Bytes], out: &mut Vec<u8>) -> Result<(), OutOfMemory>
    requires few { length keys.now ≤ 255 }
    requires short { All (λ key. length key ≤ 255) keys.now }
    ensures { OnOk result (out.new.items ≡ out.old.items ++ image.with_count image.with_length keys.now) }
{
    out.push(keys.len() as u8)?;
    'keys: for key in keys {
        push_sized(key.as_slice(), out)?;
    }
    Ok(())
}

/// Appends the number of the bytes, and the bytes.
fn push_sized(bytes: &[u8], out: &mut Vec<u8>) -> Result<(), OutOfMemory>
    requires { length bytes.now ≤ 255 }
    ensures { OnOk result (out.new.items ≡ out.old.items ++ image.with_length bytes.now) }
{
    append_all(out, &[&[bytes.len() as u8], bytes])
}

/// Appends the budget of each section.
fn push_budgets(code: &Code, out: &mut Vec<u8>) -> Result<(), OutOfMemory>
    ensures { OnOk result (out.new.items ≡ out.old.items ++ image.budget_bytes code.now.sections.p.budget
        ++ image.budget_bytes code.now.sections.a.budget ++ image.budget_bytes code.now.sections.b.budget) }
{
    append_all(
        out,
        &[
            &budget_bytes(code.budget(Actor::P)),
            &budget_bytes(code.budget(Actor::A)),
            &budget_bytes(code.budget(Actor::B)),
        ],
    )
}

/// The bytes of a budget.
fn budget_bytes(budget: Budget) -> [u8; 3]
    requires requests { budget.requests ≤ REQUESTS_LIMIT }
    requires bytes { budget.bytes ≤ REQUEST_BYTES_LIMIT }
    ensures { result ≡ image.budget_bytes budget }
{
    let [high, low] = (budget.bytes as u16).to_be_bytes();
    [budget.requests as u8, high, low]
}

/// Appends the number of the templates, and each template.
fn push_templates(
    version: Version,
    templates: &[Template],
    out: &mut Vec<u8>,
) -> Result<(), OutOfMemory>
    requires few { length templates.now ≤ TEMPLATES_LIMIT }
    requires fit { All (FitsImage version) templates.now }
    ensures { OnOk result (out.new.items ≡ out.old.items ++ image.with_count (image.template_bytes version) templates.now) }
{
    out.push(templates.len() as u8)?;
    'templates: for template in templates {
        push_template(version, template, out)?;
    }
    Ok(())
}

/// Appends the fields of a template.
fn push_template(
    version: Version,
    template: &Template,
    out: &mut Vec<u8>,
) -> Result<(), OutOfMemory>
    requires { FitsImage version template.now }
    ensures { OnOk result (out.new.items ≡ out.old.items ++ image.template_bytes version template.now) }
{
    let body = template.body.as_slice();
    let (sort, argument) = argument_fields(template.argument);
    append_all(
        out,
        &[
            &[verb_index(template.verb), template.key],
            &template.flags.to_be_bytes(),
            &[sort],
            &argument.to_be_bytes(),
            &[body.len() as u8],
            body,
        ],
    )?;
    push_mask(version, template.require_set, out)?;
    push_mask(version, template.require_clear, out)?;
    push_mask(version, template.sets, out)?;
    push_mask(version, template.clears, out)
}

/// Appends a mask of flags, as wide as an image of the version has it.
fn push_mask(version: Version, mask: Mask, out: &mut Vec<u8>) -> Result<(), OutOfMemory>
    requires { FitsMask version mask }
    ensures { OnOk result (out.new.items ≡ out.old.items ++ image.mask_bytes version mask) }
{
    match version {
        Version::One => out.extend_from_slice(&(mask as u32).to_be_bytes()),
        Version::Two => out.extend_from_slice(&mask.to_be_bytes()),
    }
}

/// The position of a verb in the order of the verbs.
fn verb_index(verb: Verb) -> u8
    ensures { result ≡ image.verb_index verb }
{
    verb as u8
}

/// What sort an argument is of, and its number: the number that it gives, the index of its variable, or 0.
fn argument_fields(argument: Argument) -> (u8, u64)
    ensures { result.0 ∷ to_be_bytes w64 result.1 ≡ image.argument_bytes argument }
{
    match argument {
        Argument::Nothing => (0, 0),
        Argument::Number(number) => (1, number),
        Argument::Variable(variable) => (2, u64::from(variable)),
    }
}

/// Appends the number of a section's instructions, and each instruction.
fn push_instructions(instructions: &[Instr], out: &mut Vec<u8>) -> Result<(), OutOfMemory>
    requires { length instructions.now ≤ INSTRUCTIONS_LIMIT }
    ensures { OnOk result (out.new.items ≡ out.old.items ++ image.with_count image.instr_bytes instructions.now) }
{
    out.push(instructions.len() as u8)?;
    'instructions: for instr in instructions {
        push_instr(*instr, out)?;
    }
    Ok(())
}

/// Appends an instruction.
fn push_instr(instr: Instr, out: &mut Vec<u8>) -> Result<(), OutOfMemory>
    ensures { OnOk result (out.new.items ≡ out.old.items ++ image.instr_bytes instr) }
{
    match instr {
        Instr::Send { template, next } => append_all(out, &[&[0, template], &next]),
        Instr::Bind(variable) => out.extend_from_slice(&[1, variable]),
        Instr::Goto(place) => out.extend_from_slice(&[2, place]),
        Instr::Halt => out.extend_from_slice(&[3]),
    }
}
