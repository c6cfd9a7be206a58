//! The book of a run: what its threads note, one event after the other.
ghost use Rattle.std.specs.Arc.{arc_value};
ghost use Rattle.std.specs.Prelude.{◌≡◌, ◌↔◌, ◌<◌, true, false, Some, None, length, OnOk, OnErr, IfOk, IfErr, IfSome};
ghost use Rattle.mc_core.specs.{Held.IsHeldBy, Steps.IsStep, Steps.IsRefused, Steps.MayBegin, Worlds.new_world};
ghost use Rattle.mc_run.specs.Holders.{held_by};

use crate::holder::Holder;
use mc_code::Call;
use mc_core::{StepRefusal, World};
use mc_protocol::{Actor, Event, OutOfMemory};
use mc_sound::Checked;
use std::alloc::Global;
use std::marker::Model;
use std::sync::Arc;

/// The world of a run, and the sound code that it is a world of, which the book borrows or shares. Threads share the book under a lock,
/// which then keeps that the world is the fold of its notes. Contracts see the code and the world.
#[derive(Debug, Drop)]
pub struct Book<'c> {
    checked: Holder<'c>,
    world: World,
}

impl<'c> Model for Book<'c> {
    ghost use Rattle.mc_run.specs.Books.{BookRecord};

    ghost Value = { BookRecord };

    ghost use Rattle.mc_core.specs.Held.{IsHeldBy};
    ghost use Rattle.mc_run.specs.Holders.{held_by};

    ghost view = { λ b. record { checked = held_by b.checked; world = b.world } };

    ghost invariant = { λ b. IsHeldBy (held_by b.checked).code b.world };
}

impl<'c> Book<'c> {
    /// The book in which nothing is noted. It has room for all notes that it may come to.
    ///
    /// # Errors
    ///
    /// That memory ran out.
    pub fn new(alloc: Global, checked: &'c Checked) -> Result<Self, OutOfMemory>
        ensures checked { IfOk result (λ book. book.checked ≡ checked.now) }
        ensures new { IfOk result (λ book. book.world.world ≡ new_world) }
    {
        let world = World::start(alloc, checked)?;
        Ok(Book {
            checked: Holder::Lent(checked),
            world,
        })
    }

    /// The same of code that the book shares.
    pub(crate) fn sharing(alloc: Global, checked: Arc<Checked, Global>) -> Result<Self, OutOfMemory>
        ensures checked { IfOk result (λ book. book.checked ≡ arc_value checked) }
        ensures new { IfOk result (λ book. book.world.world ≡ new_world) }
    {
        let world = World::start(alloc, &checked)?;
        Ok(Book {
            checked: Holder::Shared(checked),
            world,
        })
    }

    /// Notes an event of a section, or hands it back with the first of all that is against it. An `Err` changes nothing. No
    /// memory is taken.
    ///
    /// # Errors
    ///
    /// What is against the event: see [`StepRefusal`].
    pub fn note(&mut self, actor: Actor, event: Event) -> Result<(), (StepRefusal, Event)>
        ensures taken { OnOk result (IsStep self.old.checked.code self.old.world.world actor event self.new.world.world) }
        ensures refused { IfErr result (λ refused. IsRefused self.old.checked.code self.old.world.world actor event refused.0) }
        ensures event { IfErr result (λ refused. refused.1 ≡ event) }
        ensures err { OnErr result (self.new ≡ self.old) }
        ensures checked { self.new.checked ≡ self.old.checked }
    {
        self.world.step(self.checked.checked(), actor, event)
    }

    /// The call that the section may begin, or nothing where it may begin none: it is over, it waits for a reply, or it is a branch
    /// that doesn't begin yet.
    pub(crate) fn upcoming(&self, actor: Actor) -> Option<Call>
        ensures call { IfSome result (λ call. MayBegin self.now.checked.code self.now.world.world actor call) }
        ensures none { result ≡ None
            → (r : StepRefusal) × IsRefused self.now.checked.code self.now.world.world actor Event.Begin r }
        ensures template { IfSome result (λ call. call.template < length self.now.checked.code.templates) }
    {
        let call = self.world.upcoming(self.checked.checked(), actor)?;
        Some(call)
    }

    /// The code, borrowed or shared once more, unless all that could be counted share it.
    pub(crate) fn held(&self) -> Option<Holder<'c>>
        ensures { IfSome result (λ held. held_by held ≡ self.now.checked) }
    {
        self.checked.again()
    }

    /// Notes that this call begins, where the section may begin it, and answers whether it may. Otherwise nothing changes.
    pub(crate) fn begin(&mut self, actor: Actor, call: Call) -> bool
        ensures may { (result ≡ true) ↔ MayBegin self.old.checked.code self.old.world.world actor call }
        ensures noted { result ≡ true
            → IsStep self.old.checked.code self.old.world.world actor Event.Begin self.new.world.world }
        ensures same { result ≡ false → self.new ≡ self.old }
        ensures checked { self.new.checked ≡ self.old.checked }
    {
        self.may_begin(actor, call) && self.note(actor, Event::Begin).is_ok()
    }

    /// Whether the section may begin this call.
    fn may_begin(&self, actor: Actor, call: Call) -> bool
        ensures { (result ≡ true) ↔ MayBegin self.now.checked.code self.now.world.world actor call }
    {
        is_that_call(self.world.upcoming(self.checked.checked(), actor), call)
    }

    /// The code that it borrows or shares.
    pub fn checked(&self) -> &Checked
        ensures { result.now ≡ self.now.checked }
    {
        self.checked.checked()
    }

    /// The world of what was noted.
    pub fn world(&self) -> &World
        ensures world { result.now ≡ self.now.world }
        ensures held { IsHeldBy self.now.checked.code result.now }
    {
        &self.world
    }

    /// The world, without the book.
    pub fn into_world(self) -> World
        ensures world { result ≡ self.entry.world }
        ensures held { IsHeldBy self.entry.checked.code result }
    {
        let Book { world, .. } = self;
        world
    }
}

/// Whether there is a call, and it is that one.
fn is_that_call(call: Option<Call>, other: Call) -> bool
    ensures { (result ≡ true) ↔ (call ≡ Some other) }
{
    call == Some(other)
}
