//! A run's way to a call that lacks a flag.
ghost use Rattle.std.specs.Prelude.{◌≡◌, ◌↔◌, [], ◌∷◌, ℕ, ◌<◌, Bool, true, false, IfNone, IfSome, List};
ghost use Rattle.mc_protocol.specs.{declared.actor.Actor.Actor as Section, declared.reply.Class.Class as Reply};
ghost use Rattle.mc_sound.specs.Faults as faults;
ghost use Rattle.mc_counterexample.specs.FlagReplays as replays;
ghost use Rattle.mc_script.specs.declared.limits.TheConstants.{FLAGS_LIMIT};
ghost use Rattle.mc_flow.specs.FlagTables.{may_be};
ghost use Rattle.mc_counterexample.specs.Replays.{AreInside, first_places};

use crate::places::{go_on, rests_at};
use mc_code::{Code, Instr, TEMPLATES_LIMIT};
use mc_flow::FlagSets;
use mc_protocol::{Actor, Class, Sections};

/// How far some replies of a run lead.
#[derive(Clone, Copy, Debug)]
struct FlagReplay {
    /// Where the sections stand.
    places: Sections<u8>,
    /// The values of the flags: one of each.
    flags: FlagSets,
}

/// Whether the replies are those of a run along which a send at the place needs a flag at this value, true for set, and
/// finds it at the other one.
pub(crate) fn shows_lack(
    code: &Code,
    value: bool,
    actor: Actor,
    place: u8,
    shown: &[(Actor, Class)],
) -> bool
    requires { (actor : Section) → faults.IsStructured code.now actor }
    ensures { (result ≡ true) ↔ replays.ShowsLack code.now value actor place shown.now }
{
    // A flag that the code needs is one of as many as a mask has bits, as `templates` says.
    prove!(code.templates().len() <= TEMPLATES_LIMIT);
    let mut replay = FlagReplay::first();
    'replies: for reply in shown {
        match replay.after(code, actor, *reply) {
            Some(next) => replay = next,
            None => return false,
        }
    }
    replay.lacks(code, value, actor, place)
}

impl FlagReplay {
    /// Before any reply: each section stands at its first place, and each flag is clear.
    fn first() -> Self
        ensures places { result.places ≡ first_places }
        ensures flags { (flag : ℕ) (value : Bool) → (may_be flag value result.flags ≡ true)
            ↔ ((value ≡ false) × (flag < FLAGS_LIMIT)) }
    {
        FlagReplay {
            places: Sections { p: 0, a: 0, b: 0 },
            flags: FlagSets::all_clear(),
        }
    }

    /// The replay after one more reply, on the way to a place of the named section: nothing if no run goes on with it.
    fn after(&self, code: &Code, named: Actor, reply: (Actor, Class)) -> Option<Self>
        requires structured { (actor : Section) → faults.IsStructured code.now actor }
        requires inside { AreInside code.now self.now.places }
        ensures inside { IfSome result (λ next. AreInside code.now next.places) }
        ensures some { IfSome result (λ next. (value : Bool) (place : ℕ) (rest : List (Section × Reply))
            → replays.LacksFrom code.now value named place self.now (reply ∷ rest)
            ↔ replays.LacksFrom code.now value named place next rest) }
        ensures none { IfNone result ((value : Bool) (place : ℕ) (rest : List (Section × Reply))
            → replays.LacksFrom code.now value named place self.now (reply ∷ rest) → ⊥) }
    {
        let (section, class) = reply;
        match go_on(code, named, &self.places, section, class) {
            Some(step) => Some(FlagReplay {
                places: step.places,
                flags: self.flags.after(code.template(step.template)),
            }),
            None => None,
        }
    }

    /// Whether the section comes to the place without a further reply, and a send there needs a flag at this value that now
    /// has the other one.
    fn lacks(&self, code: &Code, value: bool, actor: Actor, place: u8) -> bool
        requires structured { (actor : Section) → faults.IsStructured code.now actor }
        requires inside { AreInside code.now self.now.places }
        ensures { (result ≡ true) ↔ replays.LacksFrom code.now value actor place self.now [] }
    {
        if !rests_at(code, actor, &self.places, place) {
            return false;
        }
        match code.instruction(actor, usize::from(place)) {
            Instr::Send { template, .. } => self.flags.may_lack(code.template(template), value),
            _ => false,
        }
    }
}
