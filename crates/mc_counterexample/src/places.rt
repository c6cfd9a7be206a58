//! Where the sections stand along the replies of a run.
//!
//! A section stands where its last reply led, or at its first place: what it does up to its next send comes with its next
//! reply. So a place in the middle of what it does is found too.
ghost use Rattle.std.specs.Prelude.{◌≡◌, ◌↔◌, [], ℕ, ◌<◌, true, Some, IfNone, IfSome, length, slice_get};
ghost use Rattle.mc_protocol.specs.declared.actor.Actor.{Actor as Section};
ghost use Rattle.mc_protocol.specs.declared.actor.Actor.TheVariants as actor;
ghost use Rattle.mc_protocol.specs.declared.sections.Sections as sections;
ghost use Rattle.mc_script.specs.declared.step.Template.{Template as Sent};
ghost use Rattle.mc_code.specs.Code as codes;
ghost use Rattle.mc_sound.specs.Faults as faults;
ghost use Rattle.mc_counterexample.specs.Replays as replays;

use mc_code::{Code, Instr, entry};
use mc_protocol::{Actor, Class, Sections, legal};

/// A reply to what a section sends next.
#[derive(Clone, Copy, Debug)]
struct Answered {
    /// The index of the template that is sent.
    template: u8,
    /// The place to which the reply leads.
    place: u8,
}

/// A reply that a run goes on with.
#[derive(Clone, Copy, Debug)]
pub(crate) struct Step {
    /// The index of the template that is sent.
    pub template: u8,
    /// Where the sections stand after the reply.
    pub places: Sections<u8>,
}

/// What a reply of the class, to what this section sends next, leads to, on the way to a place of the named section: nothing
/// if the section can't have that reply now.
pub(crate) fn go_on(
    code: &Code,
    named: Actor,
    places: &Sections<u8>,
    section: Actor,
    class: Class,
) -> Option<Step>
    requires structured { (actor : Section) → faults.IsStructured code.now actor }
    requires inside { replays.AreInside code.now places.now }
    ensures some { IfSome result (λ step. (t : Sent) × (slice_get code.now.templates step.template ≡ Some t)
        × replays.GoesOn code.now named places.now section t class step.places) }
    ensures inside { IfSome result (λ step. replays.AreInside code.now step.places) }
    ensures none { IfNone result ((t : Sent) (others : sections.Sections ℕ)
        → replays.GoesOn code.now named places.now section t class others → ⊥) }
{
    if !may_follow(code, named, places.p, section) {
        return None;
    }
    match answer(code, section, *places.get(section), class) {
        Some(answered) => Some(Step {
            template: answered.template,
            places: moved(places, section, answered.place),
        }),
        None => None,
    }
}

/// The places after the section came to this one.
fn moved(places: &Sections<u8>, section: Actor, place: u8) -> Sections<u8>
    ensures { result ≡ replays.moved places.now section place }
{
    let mut moved = *places;
    match section {
        Actor::P => moved.p = place,
        Actor::A => moved.a = place,
        Actor::B => moved.b = place,
    }
    moved
}

/// Whether a reply of this section may come next on the way to a place of the named section, where P stands at this place:
/// one of P; or one of either branch where P is done and the named section is a branch.
fn may_follow(code: &Code, named: Actor, place_p: u8, section: Actor) -> bool
    requires structured { faults.IsStructured code.now Actor.P }
    requires inside { place_p < length (codes.instructions_in code.now Actor.P) }
    ensures { (result ≡ true) ↔ replays.MayFollow code.now named place_p section }
{
    match section {
        Actor::P => true,
        Actor::A | Actor::B => is_branch(named) && ends(code, place_p),
    }
}

/// Whether the section is a branch.
pub(crate) fn is_branch(section: Actor) -> bool
    ensures { result ≡ replays.is_branch section }
{
    !matches!(section, Actor::P)
}

/// Whether the section is this one.
pub(crate) fn is_of(named: Actor, section: Actor) -> bool
    ensures { result ≡ replays.is_of named section }
{
    match named {
        Actor::P => matches!(section, Actor::P),
        Actor::A => matches!(section, Actor::A),
        Actor::B => matches!(section, Actor::B),
    }
}

/// Whether each of the replies is one of P or of the named section.
pub(crate) fn are_heard(named: Actor, shown: &[(Actor, Class)]) -> bool
    ensures { result ≡ replays.are_heard named shown.now }
{
    shown.iter().all(|reply| is_heard(named, *reply))
}

/// Whether the reply is one of P or of the named section.
fn is_heard(named: Actor, reply: (Actor, Class)) -> bool
    ensures { result ≡ replays.is_heard named reply }
{
    is_of(Actor::P, reply.0) || is_of(named, reply.0)
}

/// Whether P comes from the place to its end without a reply.
pub(crate) fn ends(code: &Code, place: u8) -> bool
    requires structured { faults.IsStructured code.now Actor.P }
    requires inside { place < length (codes.instructions_in code.now Actor.P) }
    ensures { (result ≡ true) ↔ replays.Ends code.now place }
{
    let rest = settle(code, Actor::P, place);
    matches!(code.instruction(Actor::P, usize::from(rest)), Instr::Halt)
}

/// Whether the section comes to the place from where it stands without a reply, and no further; where it is a branch, P must
/// be done.
pub(crate) fn rests_at(code: &Code, named: Actor, places: &Sections<u8>, place: u8) -> bool
    requires structured { (actor : Section) → faults.IsStructured code.now actor }
    requires inside { replays.AreInside code.now places.now }
    ensures rests { (result ≡ true) ↔ (replays.RestsAt code.now named place × replays.LeadsFrom code.now places.now named place []) }
    ensures inside { result ≡ true → place < length (codes.instructions_in code.now named) }
{
    settle(code, named, *places.get(named)) == place && (!is_branch(named) || ends(code, places.p))
}

/// What a reply of the class leads to, where the section stands at the place: nothing if the section can't have it.
fn answer(code: &Code, section: Actor, place: u8, class: Class) -> Option<Answered>
    requires structured { faults.IsStructured code.now section }
    requires inside { place < length (codes.instructions_in code.now section) }
    ensures some { IfSome result (λ answered. (t : Sent) × (slice_get code.now.templates answered.template ≡ Some t)
        × replays.IsAnswered code.now section place t class answered.place) }
    ensures inside { IfSome result (λ answered. answered.place < length (codes.instructions_in code.now section)) }
    ensures none { IfNone result ((t : Sent) (other : ℕ) → replays.IsAnswered code.now section place t class other → ⊥) }
{
    let rest = settle(code, section, place);
    match code.instruction(section, usize::from(rest)) {
        Instr::Send { template, next } => {
            if legal(code.template(template).verb, class) {
                Some(Answered {
                    template,
                    place: entry(&next, class),
                })
            } else {
                None
            }
        }
        _ => None,
    }
}

/// The place to which the section comes from this one without a reply, and where it goes no further without one.
pub(crate) fn settle(code: &Code, section: Actor, place: u8) -> u8
    requires structured { faults.IsStructured code.now section }
    requires inside { place < length (codes.instructions_in code.now section) }
    ensures slides { replays.LeadsBetween code.now section place [] result }
    ensures rests { replays.RestsAt code.now section result }
    ensures inside { result < length (codes.instructions_in code.now section) }
{
    let mut rest = place;
    'slides: while let Some(next) = slide(code, section, rest) {
        rest = next;
    }
    rest
}

/// The place to which the instruction leads without a reply, if it does.
pub(crate) fn slide(code: &Code, section: Actor, place: u8) -> Option<u8>
    requires structured { faults.IsStructured code.now section }
    requires inside { place < length (codes.instructions_in code.now section) }
    ensures some { IfSome result (replays.SlidesAt code.now section place) }
    ensures later { IfSome result (λ next. place < next) }
    ensures inside { IfSome result (λ next. next < length (codes.instructions_in code.now section)) }
    ensures none { IfNone result (replays.RestsAt code.now section place) }
{
    match code.instruction(section, usize::from(place)) {
        Instr::Bind(_) => Some(place + 1),
        Instr::Goto(target) => Some(target),
        Instr::Send { .. } | Instr::Halt => None,
    }
}
