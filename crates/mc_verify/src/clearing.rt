//! Whether P begins with a delete of each key.
ghost use Rattle.std.specs.Prelude.{◌≡◌, ◌<◌, IfNone, IfSome, slice_get};
ghost use Rattle.mc_sound.specs.Faults as faults;
ghost use Rattle.mc_verify.specs.Lowest as lowest_faults;
ghost use Rattle.mc_sound.specs.Structure as structure;
ghost use Rattle.mc_sound.specs.Clearing.{clears_at, is_delete, is_delete_of};

use crate::section::key_count;
use mc_code::{Code, Instr, entry};
use mc_protocol::{Actor, Class, KEYS_LIMIT, Verb};
use mc_script::Template;
use mc_sound::RefusalKind;

/// The lowest place of P whose instruction doesn't clear the key with the place's number. The branches clear no keys.
pub(crate) fn lowest_not_cleared(code: &Code, actor: Actor) -> Option<u8>
    ensures some { IfSome result (lowest_faults.IsLowest code.now RefusalKind.NotCleared actor) }
    ensures none { IfNone result (faults.HasNone code.now RefusalKind.NotCleared actor) }
{
    match actor {
        Actor::P => lowest_key_not_cleared(code),
        Actor::A | Actor::B => None,
    }
}

/// The lowest place of P whose instruction doesn't clear the key with the place's number.
fn lowest_key_not_cleared(code: &Code) -> Option<u8>
    ensures some { IfSome result (lowest_faults.IsLowest code.now RefusalKind.NotCleared Actor.P) }
    ensures none { IfNone result (faults.HasNone code.now RefusalKind.NotCleared Actor.P) }
{
    let templates = code.templates();
    let section = code.section(Actor::P);
    'keys: for key in 0..key_count(code) {
        if !clears_at(templates, section, key) {
            return Some(key);
        }
    }
    None
}

/// Whether the instruction at the place deletes the key with the place's number, and goes on to the next place.
fn clears_at(templates: &[Template], section: &[Instr], place: u8) -> bool
    requires { place < KEYS_LIMIT }
    ensures { result ≡ clears_at templates.now place (slice_get section.now place) }
{
    match section.get(usize::from(place)) {
        Some(Instr::Send { template, next }) => {
            is_delete_of(templates, *template, place)
                && entry(next, Class::Deleted) == place + 1
                && entry(next, Class::NotFound) == place + 1
        }
        _ => false,
    }
}

/// Whether the template with this index is there, and deletes the key.
fn is_delete_of(templates: &[Template], index: u8, key: u8) -> bool
    ensures { result ≡ is_delete_of key (slice_get templates.now index) }
{
    match templates.get(usize::from(index)) {
        Some(template) => is_delete(template.verb) && template.key == key,
        None => false,
    }
}

fn is_delete(verb: Verb) -> bool
    ensures { result ≡ is_delete verb }
{
    matches!(verb, Verb::Delete)
}
