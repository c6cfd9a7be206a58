//! What the sections of a run may note in its book: that a call begins which was made ready, and what came of it.
ghost use Rattle.std.specs.Prelude.{◌≡◌, ◌≢◌, ◌<◌, true, false, length, IfSome};
ghost use Rattle.mc_core.specs.Steps.{IsStep, MayBegin};
ghost use Rattle.mc_run.specs.Holders.{held_by};

use crate::Book;
use crate::carrying::Prepared;
use crate::holder::Holder;
use mc_code::Call;
use mc_core::World;
use mc_protocol::{Actor, Event};

/// The book of a run, as its sections have it. No other note can be made in it than these two, so no call is noted to begin that wasn't
/// made ready.
#[derive(Debug, Drop)]
pub(crate) struct Notebook<'c> {
    book: Book<'c>,
}

impl<'c> Notebook<'c> {
    pub(crate) fn new(book: Book<'c>) -> Self
        ensures { result.book ≡ book.entry }
    {
        Notebook { book }
    }

    /// The code with the call that the section may begin, or nothing where it may begin none, or the code can't be held once more.
    pub(crate) fn upcoming(&self, actor: Actor) -> Option<(Holder<'c>, Call)>
        ensures template { IfSome result (λ upcoming. upcoming.1.template < length (held_by upcoming.0).code.templates) }
    {
        let call = self.book.upcoming(actor)?;
        let held = self.book.held()?;
        Some((held, call))
    }

    /// Notes that this call begins, where the section may begin it, and answers whether it may. Otherwise nothing changes.
    pub(crate) fn note_begin(&mut self, actor: Actor, prepared: &Prepared) -> bool
        ensures may { result ≡ true → MayBegin self.old.book.checked.code self.old.book.world.world actor prepared.now.call }
        ensures noted { result ≡ true
            → IsStep self.old.book.checked.code self.old.book.world.world actor Event.Begin self.new.book.world.world }
        ensures same { result ≡ false → self.new ≡ self.old }
    {
        self.book.begin(actor, prepared.call)
    }

    /// Notes what came of a call, or why none can be made ready, and answers whether that may be noted. It isn't that a call begins.
    pub(crate) fn note_result(&mut self, actor: Actor, event: Event) -> bool
        requires { event ≢ Event.Begin }
    {
        self.book.note(actor, event).is_ok()
    }

    /// The world of what was noted so far.
    pub(crate) fn world(&self) -> &World {
        self.book.world()
    }

    /// The world of what was noted.
    pub(crate) fn into_world(self) -> World {
        let Notebook { book } = self;
        book.into_world()
    }
}
