//! The verbs of the mixes.
ghost use Rattle.std.specs.Prelude.{◌≡◌, ◌≤◌, ◌<◌, length};
ghost use Rattle.mc_rounds.specs.Wishes as spec;

use mc_protocol::Verb;
use mc_settings::Mix;

const COUNTERS: [Verb; 5] = [Verb::Set, Verb::Incr, Verb::Decr, Verb::Gets, Verb::Cas];

const CAS: [Verb; 3] = [Verb::Gets, Verb::Cas, Verb::Set];

const BODIES: [Verb; 4] = [Verb::Append, Verb::Prepend, Verb::Set, Verb::Get];

const PRESENCE: [Verb; 5] = [
    Verb::Add,
    Verb::Delete,
    Verb::Replace,
    Verb::Get,
    Verb::Touch,
];

/// The verbs of a mix, in their order.
pub(crate) fn verbs_of(mix: Mix) -> &'static [Verb]
    ensures verbs { result.now ≡ spec.verbs_of mix }
    ensures some { 0 < length result.now }
{
    match mix {
        Mix::All => &Verb::ALL,
        Mix::Counters => &COUNTERS,
        Mix::Cas => &CAS,
        Mix::Bodies => &BODIES,
        Mix::Presence => &PRESENCE,
    }
}
