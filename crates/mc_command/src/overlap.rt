//! Whether a request of A and one of B were outstanding at once.
ghost use Rattle.std.specs.Prelude.{◌≡◌, ◌||◌, ◌&&◌, List, ◌∷◌, [], ◌++◌};
ghost use Rattle.mc_core.specs.Worlds.{Noted};
ghost use Rattle.mc_command.specs.Overlaps as spec;
ghost use Rattle.mc_model.specs.Notes.{is_same_section};

use mc_protocol::{Actor, Event};

/// Whether a request of A and one of B were outstanding at once, by the notes of a run: both had begun, and neither was answered or had
/// failed.
pub fn overlaps(notes: &[(Actor, Event)]) -> bool
    ensures { result ≡ spec.overlaps notes.now }
{
    let mut a = false;
    let mut b = false;
    let mut found = false;
    'notes: for noted in notes {
        a = is_outstanding_after(a, Actor::A, noted);
        b = is_outstanding_after(b, Actor::B, noted);
        found = is_found_or_both(found, a, b);
    }
    found
}

fn is_found_or_both(found: bool, a: bool, b: bool) -> bool
    ensures { result ≡ (found || (a && b)) }
{
    found || (a && b)
}

// Whether a request of the branch is outstanding after one note more.
fn is_outstanding_after(before: bool, branch: Actor, noted: &(Actor, Event)) -> bool
    ensures { (earlier : List Noted) → before ≡ spec.is_outstanding branch earlier
        → result ≡ spec.is_outstanding branch (earlier ++ noted.now ∷ []) }
{
    let (section, event) = noted;
    if is_same(branch, *section) {
        is_begin(event)
    } else {
        before
    }
}

/// Whether they are one section.
pub fn is_same(one: Actor, other: Actor) -> bool
    ensures { result ≡ is_same_section one other }
{
    match one {
        Actor::P => matches!(other, Actor::P),
        Actor::A => matches!(other, Actor::A),
        Actor::B => matches!(other, Actor::B),
    }
}

// Whether it is the begin of a request.
fn is_begin(event: &Event) -> bool
    ensures { result ≡ spec.is_begin event.now }
{
    match event {
        Event::Begin => true,
        Event::Reply(_) | Event::Fail(_) => false,
    }
}
