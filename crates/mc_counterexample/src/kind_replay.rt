//! A run's way to a fault of variables: a request whose number is missing or of another kind, or a bind of nothing.
ghost use Rattle.std.specs.Prelude.{◌≡◌, ◌↔◌, [], ◌∷◌, ℕ, ◌<◌, ◌≤◌, true, false, not, IfNone, IfSome, List, Some, length, slice_get};
ghost use Rattle.mc_protocol.specs.{declared.actor.Actor.Actor as Section, declared.reply.Class.Class as Reply};
ghost use Rattle.mc_protocol.specs.declared.actor.Actor.TheVariants as actor;
ghost use Rattle.mc_script.specs.{declared.limits.TheConstants.VARIABLES_LIMIT, declared.step.Template.Template as Sent};
ghost use Rattle.mc_code.specs.Code.{Code as Codes, instructions_in};
ghost use Rattle.mc_code.specs.{Runs.IsRun, Standing.no_variables, Standing.met_in, States.State, States.initial_state};
ghost use Rattle.mc_code.specs.declared.instr.Instr.TheVariants as instr;
ghost use Rattle.mc_sound.specs.Faults as faults;
ghost use Rattle.mc_counterexample.specs.KindReplays as replays;
ghost use Rattle.mc_counterexample.specs.Replays.{RestsAt, is_branch};
ghost use Rattle.mc_verify.specs.VariableFaults as variables;

use crate::knowledge::Knowledge;
use crate::places::{is_branch, is_of, slide};
use mc_code::{Code, Instr, TEMPLATES_LIMIT, entry};
use mc_flow::declared_template;
use mc_protocol::{Actor, Class, legal};
use mc_sound::RefusalKind;

/// How far some replies of a run lead: of P, and then of the section in which the fault is.
#[derive(Clone, Copy, Debug)]
struct KindReplay {
    /// Whether the section in which the fault is has begun; else P is on its way.
    begun: bool,
    /// Where the section that is on its way stands.
    place: u8,
    /// What it knows.
    known: Knowledge,
}

/// Whether the replies are those of a run that comes to a fault of this kind at the place.
pub(crate) fn shows_fail(
    code: &Code,
    kind: RefusalKind,
    actor: Actor,
    place: u8,
    shown: &[(Actor, Class)],
) -> bool
    requires { (actor : Section) → faults.IsStructured code.now actor }
    ensures { (result ≡ true) ↔ replays.ShowsFail code.now kind actor place shown.now }
{
    // A code has few variables, as `templates` says of its limits.
    prove!(code.templates().len() <= TEMPLATES_LIMIT);
    let mut replay = KindReplay::first(actor);
    'replies: for reply in shown {
        match replay.after(code, actor, *reply) {
            Some(next) => replay = next,
            None => return false,
        }
    }
    replay.fails(code, kind, actor, place)
}

impl KindReplay {
    /// Before any reply.
    fn first(named: Actor) -> Self
        ensures begun { result.begun ≡ not (is_branch named) }
        ensures place { result.place ≡ 0 }
        ensures known { (c : Codes) → c.vars ≤ VARIABLES_LIMIT → replays.state_of c result.known ≡ initial_state (no_variables c) }
    {
        KindReplay {
            begun: !is_branch(named),
            place: 0,
            known: Knowledge::none(),
        }
    }

    /// The replay after one more reply: nothing if no run goes on with it. A reply of a branch comes after P's end.
    fn after(&self, code: &Code, named: Actor, reply: (Actor, Class)) -> Option<Self>
        requires structured { (actor : Section) → faults.IsStructured code.now actor }
        requires inside { self.now.place < length (instructions_in code.now (replays.section_in self.now.begun named)) }
        requires branch { self.now.begun ≡ false → is_branch named ≡ true }
        ensures inside { IfSome result (λ next. next.place < length (instructions_in code.now (replays.section_in next.begun named))) }
        ensures branch { IfSome result (λ next. next.begun ≡ false → is_branch named ≡ true) }
        ensures some { IfSome result (λ next. (kind : RefusalKind) (place : ℕ) (rest : List (Section × Reply))
            → replays.FailsFrom code.now kind named place self.now (reply ∷ rest)
            ↔ replays.FailsFrom code.now kind named place next rest) }
        ensures none { IfNone result ((kind : RefusalKind) (place : ℕ) (rest : List (Section × Reply))
            → replays.FailsFrom code.now kind named place self.now (reply ∷ rest) → ⊥) }
    {
        let (section, class) = reply;
        if !self.begun && is_branch(section) {
            match self.begin(code) {
                Some(replay) => replay.reply(code, named, section, class),
                None => None,
            }
        } else {
            self.reply(code, named, section, class)
        }
    }

    /// The replay after a reply of the section that is on its way: nothing if it can't have it, or if this is another section.
    fn reply(&self, code: &Code, named: Actor, section: Actor, class: Class) -> Option<Self>
        requires structured { (actor : Section) → faults.IsStructured code.now actor }
        requires inside { self.now.place < length (instructions_in code.now (replays.section_in self.now.begun named)) }
        requires branch { self.now.begun ≡ false → is_branch named ≡ true }
        requires of_p { self.now.begun ≡ false → is_branch section ≡ false }
        ensures inside { IfSome result (λ next. next.place < length (instructions_in code.now (replays.section_in next.begun named))) }
        ensures begun { IfSome result (λ next. next.begun ≡ self.now.begun) }
        ensures some { IfSome result (λ next. (kind : RefusalKind) (place : ℕ) (rest : List (Section × Reply))
            → replays.FailsFrom code.now kind named place self.now ((section, class) ∷ rest)
            ↔ replays.FailsFrom code.now kind named place next rest) }
        ensures none { IfNone result ((kind : RefusalKind) (place : ℕ) (rest : List (Section × Reply))
            → replays.FailsFrom code.now kind named place self.now ((section, class) ∷ rest) → ⊥) }
    {
        let own = self.section(named);
        if is_of(own, section) {
            self.answer(code, own, class)
        } else {
            None
        }
    }

    /// The section that is on its way.
    fn section(&self, named: Actor) -> Actor
        ensures { result ≡ replays.section_in self.now.begun named }
    {
        if self.begun { named } else { Actor::P }
    }

    /// The replay after a reply of the class to what this section sends next: nothing if it can't have that.
    fn answer(&self, code: &Code, section: Actor, class: Class) -> Option<Self>
        requires structured { faults.IsStructured code.now section }
        requires inside { self.now.place < length (instructions_in code.now section) }
        ensures inside { IfSome result (λ next. next.place < length (instructions_in code.now section)) }
        ensures begun { IfSome result (λ next. next.begun ≡ self.now.begun) }
        ensures some { IfSome result (λ next. (t : Sent) × replays.IsReplied code.now section self.now.place
            (replays.state_of code.now self.now.known) t class next.place (replays.state_of code.now next.known)) }
        ensures none { IfNone result ((t : Sent) (other : ℕ) (after : State)
            → replays.IsReplied code.now section self.now.place (replays.state_of code.now self.now.known) t class other after → ⊥) }
    {
        let rest = self.settle(code, section);
        match code.instruction(section, usize::from(rest.place)) {
            Instr::Send { template, next } => {
                let template = code.template(template);
                if legal(template.verb, class) {
                    Some(KindReplay {
                        begun: self.begun,
                        place: entry(&next, class),
                        known: rest.known.after_reply(template, class),
                    })
                } else {
                    None
                }
            }
            _ => None,
        }
    }

    /// The replay where the branch begins, P having come to its end without a further reply: nothing if it doesn't.
    fn begin(&self, code: &Code) -> Option<Self>
        requires structured { faults.IsStructured code.now Actor.P }
        requires inside { self.now.place < length (instructions_in code.now Actor.P) }
        ensures begun { IfSome result (λ next. next.begun ≡ true) }
        ensures place { IfSome result (λ next. next.place ≡ 0) }
        ensures some { IfSome result (λ next. replays.IsEnded code.now self.now.place (replays.state_of code.now self.now.known)
            (replays.state_of code.now next.known)) }
        ensures none { IfNone result ((after : State)
            → replays.IsEnded code.now self.now.place (replays.state_of code.now self.now.known) after → ⊥) }
    {
        let rest = self.settle(code, Actor::P);
        match code.instruction(Actor::P, usize::from(rest.place)) {
            Instr::Halt => Some(KindReplay {
                begun: true,
                place: 0,
                known: rest.known.before_replies(),
            }),
            _ => None,
        }
    }

    /// Whether the section in which the fault is comes to it at the place without a further reply.
    fn fails(&self, code: &Code, kind: RefusalKind, named: Actor, place: u8) -> bool
        requires structured { (actor : Section) → faults.IsStructured code.now actor }
        requires inside { self.now.place < length (instructions_in code.now (replays.section_in self.now.begun named)) }
        ensures { (result ≡ true) ↔ replays.FailsFrom code.now kind named place self.now [] }
    {
        if self.begun {
            self.fails_on(code, kind, named, place)
        } else {
            match self.begin(code) {
                Some(replay) => replay.fails_on(code, kind, named, place),
                None => false,
            }
        }
    }

    /// The same of a section that has begun.
    fn fails_on(&self, code: &Code, kind: RefusalKind, section: Actor, place: u8) -> bool
        requires structured { faults.IsStructured code.now section }
        requires inside { self.now.place < length (instructions_in code.now section) }
        ensures { (result ≡ true)
            ↔ replays.FailsOn code.now kind section place self.now.place (replays.state_of code.now self.now.known) [] }
    {
        match self.come_to(code, section, place) {
            Some(there) => there.fails_here(code, kind, section),
            None => false,
        }
    }

    /// The replay at the place, if the section comes to it without a reply: that may be before it rests.
    fn come_to(&self, code: &Code, section: Actor, place: u8) -> Option<Self>
        requires structured { faults.IsStructured code.now section }
        requires inside { self.now.place < length (instructions_in code.now section) }
        ensures place { IfSome result (λ there. there.place ≡ place) }
        ensures inside { IfSome result (λ there. there.place < length (instructions_in code.now section)) }
        ensures some { IfSome result (λ there. IsRun code.now.templates (instructions_in code.now section) self.now.place
            (replays.state_of code.now self.now.known) [] place (replays.state_of code.now there.known)) }
        ensures none { IfNone result ((end : State) → IsRun code.now.templates (instructions_in code.now section) self.now.place
            (replays.state_of code.now self.now.known) [] place end → ⊥) }
    {
        let mut replay = *self;
        'slides: while replay.place != place {
            match replay.slide(code, section) {
                Some(next) => replay = next,
                None => return None,
            }
        }
        Some(replay)
    }

    /// The replay where the section goes no further without a reply.
    fn settle(&self, code: &Code, section: Actor) -> Self
        requires structured { faults.IsStructured code.now section }
        requires inside { self.now.place < length (instructions_in code.now section) }
        ensures inside { result.place < length (instructions_in code.now section) }
        ensures slides { IsRun code.now.templates (instructions_in code.now section) self.now.place
            (replays.state_of code.now self.now.known) [] result.place (replays.state_of code.now result.known) }
        ensures rests { RestsAt code.now section result.place }
    {
        let mut replay = *self;
        'slides: while let Some(next) = replay.slide(code, section) {
            replay = next;
        }
        replay
    }

    /// The replay after the instruction, if that leads on without a reply.
    fn slide(&self, code: &Code, section: Actor) -> Option<Self>
        requires structured { faults.IsStructured code.now section }
        requires inside { self.now.place < length (instructions_in code.now section) }
        ensures inside { IfSome result (λ next. next.place < length (instructions_in code.now section)) }
        ensures later { IfSome result (λ next. self.now.place < next.place) }
        ensures some { IfSome result (λ next. replays.IsSlid code.now section self.now.place (replays.state_of code.now self.now.known)
            next.place (replays.state_of code.now next.known)) }
        ensures none { IfNone result (RestsAt code.now section self.now.place) }
    {
        match slide(code, section, self.place) {
            Some(place) => Some(KindReplay {
                begun: self.begun,
                place,
                known: self
                    .known
                    .after_slide(code.instruction(section, usize::from(self.place))),
            }),
            None => None,
        }
    }

    /// Whether the instruction where the section stands is a fault of the kind.
    fn fails_here(&self, code: &Code, kind: RefusalKind, section: Actor) -> bool
        requires structured { faults.IsStructured code.now section }
        requires inside { self.now.place < length (instructions_in code.now section) }
        ensures { (result ≡ true)
            ↔ (variables.is_outcome kind (met_in code.now section self.now.place (replays.state_of code.now self.now.known)) ≡ true) }
    {
        match code.instruction(section, usize::from(self.place)) {
            Instr::Send { template, .. } => {
                let template = declared_template(code, template);
                self.known.sends_wrong(kind, template)
            }
            Instr::Bind(_) => self.known.binds_nothing(kind),
            Instr::Goto(_) => false,
            Instr::Halt => false,
        }
    }
}
