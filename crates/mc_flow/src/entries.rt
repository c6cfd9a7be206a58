//! Where a send leads.
ghost use Rattle.std.specs.Prelude.{◌≡◌, ◌↔◌, true};
ghost use Rattle.mc_flow.specs.Entries.{IsEntry};

use mc_code::{CLASS_COUNT, entry};
use mc_protocol::{Class, Verb, legal};

/// Whether a reply that a request of this verb may have leads to the place.
pub(crate) fn leads_to(verb: Verb, next: &[u8; CLASS_COUNT], place: usize) -> bool
    ensures { result ≡ true ↔ IsEntry verb next.now place }
{
    'classes: for class in Class::ALL {
        if legal(verb, class) && usize::from(entry(next, class)) == place {
            return true;
        }
    }
    false
}
