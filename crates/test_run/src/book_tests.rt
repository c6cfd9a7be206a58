//! A book by itself: what it notes, and what it hands back.

use crate::counter::Given::{Begin, NotFound, Stored};
use crate::counter::{Given, counter};
use crate::memory::again;
use mc_core::{Ending, Event, StepRefusal, World};
use mc_protocol::{Actor, Reply};
use mc_run::Book;
use std::alloc::Global;
use std::test::Fail;

#[test]
fn notes_events_in_order(rt: HostRuntime) -> Result<(), Fail> {
    assert_eq!(rt; note_in_order(rt.alloc())?, ([true; 6], [true; 2]));
    Ok(())
}

/// What holds of a book of the counter while it is led, and of its world at the end.
fn note_in_order(alloc: Global) -> Result<([bool; 6], [bool; 2]), Fail> {
    let counter = counter(alloc)?;
    let book = again(|| Book::new(alloc, &counter))?;
    Ok(note_and_close(book))
}

fn note_and_close(mut book: Book<'_>) -> ([bool; 6], [bool; 2]) {
    let are_noted = note_some(&mut book);
    (are_noted, noted_only_p(&book.into_world()))
}

/// Whether the book takes or hands back each of these events as it should, P's first call waits then, and the code has one key.
fn note_some(book: &mut Book<'_>) -> [bool; 6] {
    [
        hands_back(book, Actor::A, Begin, StepRefusal::NotYet),
        takes(book, Actor::P, Begin),
        book.world().waiting(Actor::P).is_some(),
        hands_back(book, Actor::P, Stored, StepRefusal::WrongReply),
        takes(book, Actor::P, NotFound),
        book.checked().code().keys().len() == 1,
    ]
}

/// Whether P's first call and its reply were noted, and nothing else, and P goes on.
fn noted_only_p(world: &World) -> [bool; 2] {
    let noted = [
        (Actor::P, Event::Begin),
        (Actor::P, Event::Reply(Reply::NotFound)),
    ];
    [
        world.notes() == noted.as_slice(),
        world.ending(Actor::P) == Ending::Running,
    ]
}

fn takes(book: &mut Book<'_>, actor: Actor, given: Given) -> bool {
    book.note(actor, given.event()) == Ok(())
}

fn hands_back(book: &mut Book<'_>, actor: Actor, given: Given, refusal: StepRefusal) -> bool {
    book.note(actor, given.event()) == Err((refusal, given.event()))
}
