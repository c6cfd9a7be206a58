//! Whether a template may stand in code.
ghost use Rattle.std.specs.Prelude.{◌≡◌, ◌≤◌, ◌^◌, nat_lt};
ghost use Rattle.mc_script.specs.declared.limits.TheConstants.{FLAGS_LIMIT};
ghost use Rattle.mc_script.specs.Templates as spec;
ghost use Rattle.mc_image.specs.ImageReading as reading;

use mc_protocol::Fields;
use mc_script::{Argument, Mask, Template, is_body};

/// How many keys, flags and variables an image declares.
#[derive(Clone, Copy)]
pub(crate) struct Counts {
    pub(crate) keys: usize,
    pub(crate) flags: u8,
    pub(crate) vars: u8,
}

/// Whether the template's fields suit its verb, and its key, flags and variable are declared.
#[tactic(auto, unfolding(crate::specs::ImageReading::is_template))]
pub(crate) fn is_template(counts: Counts, template: &Template) -> bool
    requires { counts.flags ≤ FLAGS_LIMIT }
    ensures { result ≡ reading.is_template counts.keys counts.flags counts.vars template.now }
{
    usize::from(template.key) < counts.keys
        && has_fields(
            counts.vars,
            template.verb.fields(),
            template.flags,
            template.argument,
            template.body.as_slice(),
        )
        && are_masks(counts.flags, template)
}

/// Whether the flags, the argument and the body suit a verb with these fields. `vars` is how many variables there are.
fn has_fields(vars: u8, fields: Fields, flags: u32, argument: Argument, body: &[u8]) -> bool
    ensures { result ≡ spec.has_fields vars fields flags argument body.now }
{
    match fields {
        Fields::KeyAlone | Fields::Expiry => {
            flags == 0 && argument == Argument::Nothing && body.is_empty()
        }
        Fields::Item => argument == Argument::Nothing && is_body(body),
        Fields::Swap => is_variable(vars, argument) && is_body(body),
        Fields::Amount => flags == 0 && is_amount(vars, argument) && body.is_empty(),
    }
}

/// Whether the argument is a variable that is declared.
fn is_variable(vars: u8, argument: Argument) -> bool
    ensures { result ≡ spec.is_variable vars argument }
{
    match argument {
        Argument::Nothing | Argument::Number(_) => false,
        Argument::Variable(variable) => variable < vars,
    }
}

/// Whether the argument is a number, or a variable that is declared.
fn is_amount(vars: u8, argument: Argument) -> bool
    ensures { result ≡ spec.is_amount vars argument }
{
    match argument {
        Argument::Nothing => false,
        Argument::Number(_) => true,
        Argument::Variable(variable) => variable < vars,
    }
}

/// Whether the template's masks name declared flags alone, and it neither needs a flag both set and clear, nor sets and
/// clears one.
fn are_masks(flags: u8, template: &Template) -> bool
    requires { flags ≤ FLAGS_LIMIT }
    ensures { result ≡ reading.are_masks flags template.now }
{
    is_mask(flags, template.require_set)
        && is_mask(flags, template.require_clear)
        && is_mask(flags, template.sets)
        && is_mask(flags, template.clears)
        && template.require_set & template.require_clear == 0
        && template.sets & template.clears == 0
}

/// Whether each bit of the mask is that of a declared flag. `flags` is how many there are.
fn is_mask(flags: u8, mask: Mask) -> bool
    requires { flags ≤ FLAGS_LIMIT }
    ensures { result ≡ nat_lt mask (2 ^ flags) }
{
    u128::from(mask) < 1 << flags
}
