//! Where instructions lead: to later places of their section alone.
ghost use Rattle.std.specs.Prelude.{◌≡◌, IfNone, IfSome, length, slice_get};
ghost use Rattle.std.specs.List.{list_all};
ghost use Rattle.mc_protocol.specs.Words.{all_classes};
ghost use Rattle.mc_sound.specs.Faults as faults;
ghost use Rattle.mc_verify.specs.Lowest as lowest_faults;
ghost use Rattle.mc_sound.specs.Structure as structure;

use crate::section::instructions;
use mc_code::{CLASS_COUNT, Code, Instr, NO_ENTRY, entry};
use mc_protocol::{Actor, Class, legal};
use mc_script::Template;
use mc_sound::RefusalKind;

/// The lowest place of the section whose instruction has a bad target.
pub(crate) fn lowest_bad_target(code: &Code, actor: Actor) -> Option<u8>
    ensures some { IfSome result (lowest_faults.IsLowest code.now RefusalKind.BadTarget actor) }
    ensures none { IfNone result (faults.HasNone code.now RefusalKind.BadTarget actor) }
{
    let templates = code.templates();
    let section = instructions(code, actor);
    'places: for place in 0..section.len() as u8 {
        if has_bad_target(templates, section, place) {
            return Some(place);
        }
    }
    None
}

/// Whether the instruction at the place leads elsewhere than to later places of the section, or has an entry for a class of
/// which its verb has no reply. A send without a template has no bad target.
fn has_bad_target(templates: &[Template], section: &[Instr], place: u8) -> bool
    ensures { result ≡ structure.has_bad_target templates.now (length section.now) place (slice_get section.now place) }
{
    match section.get(usize::from(place)) {
        Some(Instr::Send { template, next }) => match templates.get(usize::from(*template)) {
            Some(template) => !are_entries(section.len(), place, template, next),
            None => false,
        },
        Some(Instr::Goto(target)) => !is_ahead(section.len(), place, *target),
        _ => false,
    }
}

/// Whether each class has the entry that it should have.
fn are_entries(size: usize, place: u8, template: &Template, next: &[u8; CLASS_COUNT]) -> bool
    ensures { result ≡ list_all (structure.is_entry size place template.now next.now) all_classes }
{
    Class::ALL
        .iter()
        .all(|class| is_entry(size, place, template, next, *class))
}

/// Whether a class that the verb may be answered with leads ahead, and any other class has no entry.
fn is_entry(
    size: usize,
    place: u8,
    template: &Template,
    next: &[u8; CLASS_COUNT],
    class: Class,
) -> bool
    ensures { result ≡ structure.is_entry size place template.now next.now class }
{
    let target = entry(next, class);
    if legal(template.verb, class) {
        is_ahead(size, place, target)
    } else {
        target == NO_ENTRY
    }
}

/// Whether the target is a later place of a section of `size` instructions.
fn is_ahead(size: usize, place: u8, target: u8) -> bool
    ensures { result ≡ structure.is_ahead size place target }
{
    place < target && usize::from(target) < size
}
