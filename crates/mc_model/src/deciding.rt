//! What a request does, by what is known of the item that is there: what is answered, and what becomes of the item.
ghost use Rattle.std.specs.Prelude.{◌≡◌, ℕ};
ghost use Rattle.std.specs.Option.{option_copied};
ghost use Rattle.mc_model.specs.{Act.effect_by, Decide.Decides, Decide.effect_at, Decide.found_of};

use crate::{Choice, Item, Numeral, numeral_of};
use mc_protocol::{Reply, Request, Verb};

/// What must be known of the item at a request's key.
#[derive(Clone, Copy, Debug, PartialEq, Eq)]
pub struct Found {
    /// Whether its number is the one that a `cas` has.
    pub has_number: bool,
    /// What its body says as a number.
    pub says: Numeral,
}

/// What becomes of the item at a request's key.
#[derive(Clone, Copy, Debug, PartialEq, Eq)]
pub enum Change {
    /// It stays as it is.
    Keeps,
    /// The request's flags and body are stored in its place.
    Stores,
    /// The request's body is put after its own.
    Appends,
    /// The request's body is put before its own.
    Prepends,
    /// Its body becomes this number.
    Counts(u64),
    /// It is gone.
    Removes,
}

/// What is answered.
#[derive(Debug, Drop, PartialEq)]
pub enum Answer {
    /// This reply, which shows no item.
    Reply(Reply),
    /// The item that is there, or that there is none.
    Shows,
    /// The same, and the item's number.
    ShowsNumber,
}

/// What a request does.
#[derive(Debug, Drop, PartialEq)]
pub struct Decision {
    pub change: Change,
    pub answer: Answer,
}

impl Found {
    /// What is known of the item where a `cas` has this number.
    pub fn of(item: &Item, number: u64) -> Self
        ensures { result ≡ found_of number item.now }
    {
        Found {
            has_number: item.number == number,
            says: numeral_of(item.body.as_slice()),
        }
    }
}

impl Decision {
    /// What a request does where this item is there, or nothing is.
    pub fn of(request: &Request, choice: Choice, found: Option<&Item>) -> Self
        ensures { (number : ℕ) → effect_at request.now choice.pad number (option_copied found.entry) result
            ≡ effect_by request.now.verb request.now choice number (option_copied found.entry) }
    {
        let known = match found {
            Some(item) => Some(Found::of(item, request.number)),
            None => None,
        };
        decide(request.verb, request.number, choice, known)
    }
}

/// What a request with this verb does where this is known of the item that is there, or where nothing is. A verb that counts has
/// this amount. Nothing is allocated.
pub fn decide(verb: Verb, amount: u64, choice: Choice, found: Option<Found>) -> Decision
    ensures { Decides verb amount choice found result }
{
    match (verb, found) {
        (Verb::Set, _) | (Verb::Add, None) | (Verb::Replace, Some(_)) => {
            with_reply(Change::Stores, Reply::Stored)
        }
        (Verb::Append, Some(_)) => with_reply(Change::Appends, Reply::Stored),
        (Verb::Prepend, Some(_)) => with_reply(Change::Prepends, Reply::Stored),
        (Verb::Cas, Some(item)) => if item.has_number {
            with_reply(Change::Stores, Reply::Stored)
        } else {
            with_reply(Change::Keeps, Reply::Exists)
        },
        (Verb::Get, _) => Decision {
            change: Change::Keeps,
            answer: Answer::Shows,
        },
        (Verb::Gets, _) => Decision {
            change: Change::Keeps,
            answer: Answer::ShowsNumber,
        },
        (Verb::Incr, Some(item)) => match item.says.read_as(choice.read) {
            Some(old) => count(old.wrapping_add(amount)),
            None => with_reply(Change::Keeps, Reply::NotNumber),
        },
        (Verb::Decr, Some(item)) => match item.says.read_as(choice.read) {
            Some(old) => count(old.saturating_sub(amount)),
            None => with_reply(Change::Keeps, Reply::NotNumber),
        },
        (Verb::Delete, Some(_)) => with_reply(Change::Removes, Reply::Deleted),
        (Verb::Touch, Some(_)) => with_reply(Change::Keeps, Reply::Touched),
        (Verb::Add, Some(_)) | (Verb::Replace | Verb::Append | Verb::Prepend, None) => {
            with_reply(Change::Keeps, Reply::NotStored)
        }
        (_, None) => with_reply(Change::Keeps, Reply::NotFound),
    }
}

/// The decision for this change and this reply.
fn with_reply(change: Change, reply: Reply) -> Decision
    ensures { result ≡ record { change = change; answer = Answer.Reply reply } }
{
    Decision {
        change,
        answer: Answer::Reply(reply),
    }
}

/// The decision to count to this number.
fn count(new: u64) -> Decision
    ensures { result ≡ record { change = Change.Counts new; answer = Answer.Reply (Reply.Number new) } }
{
    with_reply(Change::Counts(new), Reply::Number(new))
}
