//! What happens in three sections of sound code, event by event.
ghost use Rattle.std.specs.Prelude.{
  ◌≡◌,
  ◌↔◌,
  ◌<◌,
  ◌≤◌,
  Some,
  None,
  ◌∷◌,
  [],
  ◌++◌,
  length,
  OnOk,
  OnErr,
  IfOk,
  IfErr,
  IfSome,
  vec_len,
  vec_capacity,
};
ghost use Rattle.mc_code.specs.Code.{Code, IsCode};
ghost use Rattle.mc_core.specs.Fields as fields;
ghost use Rattle.mc_core.specs.{Held.IsHeldBy, Safety.AreSmall, Safety.IsSmallEvent, Steps.IsStep, Steps.IsRefused, Steps.MayBegin};
ghost use Rattle.mc_core.specs.Worlds as worlds;
ghost use Rattle.mc_protocol.specs.Sections as sections;
ghost use Rattle.mc_sound.specs.Faults.{IsSound};

use crate::section::{Section, begin_branches, take_event};
use crate::{Ending, StepRefusal};
use mc_code::Call;
use mc_protocol::{Actor, Event, Fault, OutOfMemory, REQUESTS_LIMIT, Reply, Sections};
use mc_script::VARIABLES_LIMIT;
use mc_sound::Checked;
use std::alloc::Global;
use std::marker::Model;

/// The most notes that a world takes: a section begins each of its calls and gets each reply, and may fail.
const NOTES_LIMIT: usize = 3 * (2 * REQUESTS_LIMIT + 1);

/// What happened in three sections of sound code: their calls with their replies, how they stand, and the notes of all events,
/// in order. Contracts see each section's log, the notes, how the sections stand, and their machines.
///
/// Each call that takes a [`Checked`] asks for the one with which the world was started.
#[derive(Debug)]
pub struct World {
    pub(crate) sections: Sections<Section>,
    pub(crate) notes: Vec<(Actor, Event)>,
}

// One call drops its parts. A derived `Drop` would write them out at each end of each function that holds one.
impl Drop for World {
    fn drop(self) {
        let World {
            sections: _,
            notes: _,
        } = self;
    }
}

impl Model for World {
    ghost use Rattle.mc_core.specs.Held.{Held};

    ghost Value = { Held };

    ghost use Rattle.std.specs.Vec.{vec_capacity};
    ghost use Rattle.mc_core.specs.Fields as fields;

    ghost view = { λ w. fields.held_in w.sections w.notes.items };

    ghost invariant = { λ w. fields.AreKept w.sections w.notes.items (vec_capacity w.notes) };
}

impl World {
    /// The world in which nothing happened. It has room for all calls and notes that it may come to.
    pub fn start(alloc: Global, checked: &Checked) -> Result<World, OutOfMemory>
        ensures new { IfOk result (λ w. w.world ≡ worlds.new_world) }
        ensures held { IfOk result (IsHeldBy checked.now.code) }
        ensures small { IfOk result (λ w. AreSmall w.world.notes) }
    {
        let notes = Vec::with_capacity(alloc, NOTES_LIMIT)?;
        let mut sections = Sections {
            p: Section::new(alloc)?,
            a: Section::new(alloc)?,
            b: Section::new(alloc)?,
        };
        sections.p.begin(checked, Actor::P, [0; VARIABLES_LIMIT]);
        begin_branches(&mut sections, checked);
        Ok(World { sections, notes })
    }

    /// Takes an event of a section, or hands it back with the first of all that is against it. An `Err` changes nothing. No
    /// memory is taken.
    pub fn step(
        &mut self,
        checked: &Checked,
        actor: Actor,
        event: Event,
    ) -> Result<(), (StepRefusal, Event)>
        requires held { IsHeldBy checked.now.code self.old }
        ensures taken { OnOk result (IsStep checked.now.code self.old.world actor event self.new.world) }
        ensures refused { IfErr result (λ refused. IsRefused checked.now.code self.old.world actor event refused.0) }
        ensures event { IfErr result (λ refused. refused.1 ≡ event) }
        ensures err { OnErr result (self.new ≡ self.old) }
        ensures held { IsHeldBy checked.now.code self.new }
        ensures small { AreSmall self.new.world.notes }
    {
        know_code(checked);
        match self.refusal(checked, actor, &event) {
            Some(refusal) => return Err((refusal, event)),
            None => {}
        }
        know_event(&event);
        take_event(&mut self.sections, checked, actor, &event);
        add_note(&mut self.notes, actor, event);
        Ok(())
    }

    /// How a section stands.
    pub fn ending(&self, actor: Actor) -> Ending
        ensures { result ≡ sections.section_of self.now.endings actor }
    {
        self.sections.get(actor).ending
    }

    /// The section's call that waits for its reply. A call that waited when the section failed waits for ever. It names a
    /// template of the code.
    pub fn waiting(&self, actor: Actor) -> Option<Call>
        ensures call { result ≡ (worlds.log_of self.now.world actor).waiting }
        ensures template { (c : Code) → IsHeldBy c self.now → IfSome result (λ call. call.template < length c.templates) }
    {
        self.sections.get(actor).waiting()
    }

    /// The call that the section may begin: the one that waits after [`Event::Begin`]. `None` where that event is refused. It names
    /// a template of the code.
    pub fn upcoming(&self, checked: &Checked, actor: Actor) -> Option<Call>
        requires held { IsHeldBy checked.now.code self.now }
        ensures call { (made : Call) → (result ≡ Some made) ↔ MayBegin checked.now.code self.now.world actor made }
        ensures none { result ≡ None → (r : StepRefusal) × IsRefused checked.now.code self.now.world actor Event.Begin r }
        ensures template { IfSome result (λ call. call.template < length checked.now.code.templates) }
    {
        know_code(checked);
        let section = self.sections.get(actor);
        match self.refusal(checked, actor, &Event::Begin) {
            Some(_) => None,
            None => section.upcoming(checked),
        }
    }

    /// The first of all that is against an event of the section.
    fn refusal(&self, checked: &Checked, actor: Actor, event: &Event) -> Option<StepRefusal>
        requires held { IsHeldBy checked.now.code self.now }
        ensures refused { IfSome result (IsRefused checked.now.code self.now.world actor event.now) }
        ensures taken { result ≡ None → fields.MayStep checked.now.code self.now actor event.now }
    {
        self.sections.get(actor).refusal(checked.code(), event)
    }

    /// What ended the section before its code did.
    pub fn fault(&self, actor: Actor) -> Option<Fault>
        ensures { result ≡ (worlds.log_of self.now.world actor).fault }
    {
        self.sections.get(actor).fault()
    }

    /// The events that were taken, in order.
    pub fn notes(&self) -> &[(Actor, Event)]
        ensures notes { result.now ≡ self.now.world.notes }
        ensures small { AreSmall self.now.world.notes }
    {
        self.notes.as_slice()
    }
}

/// What is known of code that is checked.
pub(crate) fn know_code(checked: &Checked)
    ensures sound { IsSound checked.now.code }
    ensures kept { IsCode checked.now.code }
{
    let _templates = checked.code().templates();
}

/// What is known of the number that an event shows.
fn know_event(event: &Event)
    ensures { IsSmallEvent event.now }
{
    match event {
        Event::Reply(Reply::Number(number)) => {
            let _number = *number;
        }
        Event::Reply(
            Reply::Hit {
                cas: Some(number),
                ..
            },
        ) => {
            let _number = *number;
        }
        _ => {}
    }
}

/// Adds a note where there is room.
fn add_note(notes: &mut Vec<(Actor, Event)>, actor: Actor, event: Event)
    requires { vec_len notes.old < vec_capacity notes.old }
    ensures items { notes.new.items ≡ notes.old.items ++ (actor, event) ∷ [] }
    ensures room { vec_capacity notes.old ≤ vec_capacity notes.new }
{
    let _ = notes.push((actor, event));
}
