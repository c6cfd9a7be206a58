//! What many clients sent and received, in the order in which it happened.
ghost use Rattle.std.specs.Prelude.{◌≡◌};
ghost use Rattle.mc_timeline.specs.Rules.{IsTimeline};

use mc_model::Note;
use std::marker::Model;

/// A timeline: the notes of any number of clients, in the order in which it happened. Each note has the number of its client.
/// Contracts see the list, which keeps the rules of `specs/Rules.antt`.
#[derive(Debug)]
pub struct Timeline {
    notes: Vec<(u8, Note)>,
}

// One call drops its parts. A derived `Drop` would write them out at each end of each function that holds one.
impl Drop for Timeline {
    fn drop(self) {
        let Timeline { notes: _ } = self;
    }
}

impl Model for Timeline {
    ghost use Rattle.std.specs.Prelude.{List};
    ghost use Rattle.mc_timeline.specs.Timelines.{ClientNote};
    ghost use Rattle.mc_timeline.specs.Rules.{IsTimeline};

    ghost Value = { List ClientNote };

    ghost view = { λ t. t.notes.items };

    ghost invariant = { λ t. IsTimeline t.notes.items };
}

impl Timeline {
    /// The timeline of notes that are known to keep the rules.
    pub(crate) fn from_notes(notes: Vec<(u8, Note)>) -> Timeline
        requires { IsTimeline notes.items }
        ensures { result ≡ notes.items }
    {
        Timeline { notes }
    }

    /// The notes in their order.
    pub fn notes(&self) -> &[(u8, Note)]
        ensures notes { result.now ≡ self.now }
        ensures timeline { IsTimeline self.now }
    {
        self.notes.as_slice()
    }
}
