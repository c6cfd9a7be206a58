//! A run's way to a call that exceeds the budget of its section.
ghost use Rattle.std.specs.Prelude.{◌≡◌, ◌↔◌, [], ◌∷◌, ℕ, ◌*◌, ◌<◌, ◌≤◌, true, Some, IfNone, IfSome, List, length, slice_get};
ghost use Rattle.mc_protocol.specs.{Sections.section_of, declared.actor.Actor.Actor as Section, declared.reply.Class.Class as Reply};
ghost use Rattle.mc_script.specs.declared.step.Template.{Template as Sent};
ghost use Rattle.mc_counterexample.specs.CostReplays as replays;
ghost use Rattle.mc_sound.specs.Faults as faults;
ghost use Rattle.mc_counterexample.specs.Replays.{AreInside, first_places};

use crate::places::{are_heard, go_on, is_of, rests_at};
use mc_code::{Code, Instr, TEMPLATES_LIMIT};
use mc_flow::call_cost;
use mc_protocol::{Actor, Class, Sections};
use mc_sound::Measure;
use mc_verify::bound;

/// How far some replies of a run lead.
#[derive(Clone, Copy, Debug)]
struct CostReplay {
    /// Where the sections stand.
    places: Sections<u8>,
    /// What the requests of one section cost so far, by one measure.
    cost: u32,
}

/// Whether the replies are those of a run of the section along which its requests, with that of a send at the place, cost
/// more than its budget.
pub(crate) fn shows_excess(
    code: &Code,
    measure: Measure,
    actor: Actor,
    place: u8,
    shown: &[(Actor, Class)],
) -> bool
    requires { (actor : Section) → faults.IsStructured code.now actor }
    ensures { (result ≡ true) ↔ replays.ShowsExcess code.now measure actor place shown.now }
{
    if !are_heard(actor, shown) {
        return false;
    }
    let mut replay = CostReplay::first();
    'replies: for reply in shown {
        match replay.after(code, measure, actor, *reply) {
            Some(next) => replay = next,
            None => return false,
        }
    }
    replay.exceeds(code, measure, actor, place)
}

impl CostReplay {
    /// Before any reply: each section stands at its first place, and nothing was sent.
    fn first() -> Self
        ensures places { result.places ≡ first_places }
        ensures cost { result.cost ≡ 0 }
    {
        CostReplay {
            places: Sections { p: 0, a: 0, b: 0 },
            cost: 0,
        }
    }

    /// The replay after one more reply, on the way to a place of the named section: nothing if no run goes on with it. Each
    /// request leads to a later place, so their cost is small.
    fn after(
        &self,
        code: &Code,
        measure: Measure,
        named: Actor,
        reply: (Actor, Class),
    ) -> Option<Self>
        requires structured { (actor : Section) → faults.IsStructured code.now actor }
        requires inside { AreInside code.now self.now.places }
        requires small { self.now.cost ≤ 1000 * section_of self.now.places named }
        ensures inside { IfSome result (λ next. AreInside code.now next.places) }
        ensures small { IfSome result (λ next. next.cost ≤ 1000 * section_of next.places named) }
        ensures some { IfSome result (λ next. (place : ℕ) (rest : List (Section × Reply))
            → replays.ExceedsFrom code.now measure named place self.now (reply ∷ rest)
            ↔ replays.ExceedsFrom code.now measure named place next rest) }
        ensures none { IfNone result ((place : ℕ) (rest : List (Section × Reply))
            → replays.ExceedsFrom code.now measure named place self.now (reply ∷ rest) → ⊥) }
    {
        // A section has few places, as `templates` says of the limits of code.
        prove!(code.templates().len() <= TEMPLATES_LIMIT);
        let (section, class) = reply;
        match go_on(code, named, &self.places, section, class) {
            Some(step) => Some(CostReplay {
                places: step.places,
                cost: self.cost + own_cost(code, measure, named, section, step.template),
            }),
            None => None,
        }
    }

    /// Whether the section comes to the place without a further reply, and a send there costs, with what was sent, more than
    /// the section's budget.
    fn exceeds(&self, code: &Code, measure: Measure, actor: Actor, place: u8) -> bool
        requires structured { (actor : Section) → faults.IsStructured code.now actor }
        requires inside { AreInside code.now self.now.places }
        requires small { self.now.cost ≤ 1000 * section_of self.now.places actor }
        ensures { (result ≡ true) ↔ replays.ExceedsFrom code.now measure actor place self.now [] }
    {
        if !rests_at(code, actor, &self.places, place) {
            return false;
        }
        match code.instruction(actor, usize::from(place)) {
            Instr::Send { template, .. } => {
                let cost = self.cost + call_cost(code, measure, template);
                cost > bound(measure, code.budget(actor))
            }
            _ => false,
        }
    }
}

/// What a call of this section costs the named one.
fn own_cost(code: &Code, measure: Measure, named: Actor, section: Actor, template: u8) -> u32
    requires { template < length code.now.templates }
    ensures cost { (t : Sent) → slice_get code.now.templates template ≡ Some t
        → result ≡ replays.own_cost code.now measure named section t }
    ensures small { result ≤ 1000 }
{
    if is_of(named, section) {
        call_cost(code, measure, template)
    } else {
        0
    }
}
