//! The flag `--stats`, and what it tells of runs: how they overlapped, and how their requests were answered.
ghost use Rattle.std.specs.Prelude.{◌≡◌, ◌+◌, List, ◌∷◌, [], ◌++◌, ◌&&◌, false, is_some, if◌then◌else◌};
ghost use Rattle.mc_command.specs.{Replies.capped, Statistics.AreStatistics, Statistics.Recorded};
ghost use Rattle.mc_command.specs.Statistics as spec;

use crate::overlap::{is_same, overlaps};
use crate::replies::Replies;
use crate::run::Played;
use mc_model::History;
use mc_protocol::{Actor, Class, Event, Verb};
use std::fmt::{Display, Error, Formatter, Write};

/// What runs that came to a history sent and received, counted. No count is greater than 2^64 - 1.
#[derive(Clone, Copy, Drop, PartialEq, Eq)]
pub struct Statistics {
    /// How many runs there were.
    pub runs: u64,
    /// Those in which a request of A and one of B were outstanding at once.
    pub overlapped: u64,
    /// Those in which A and B each have a reply.
    pub answered: u64,
    /// Those of them in which A's first reply was noted before B's.
    pub a_first: u64,
    /// How the requests of all of them were answered.
    replies: Replies,
}

impl Statistics {
    /// Of no runs.
    pub fn new() -> Statistics
        ensures { AreStatistics [] result }
    {
        Statistics {
            runs: 0,
            overlapped: 0,
            answered: 0,
            a_first: 0,
            replies: Replies::new(),
        }
    }

    /// Of one run more, with its notes and its history.
    pub fn add(&mut self, notes: &[(Actor, Event)], history: &History)
        ensures { (runs : List Recorded) → AreStatistics runs self.old
            → AreStatistics (runs ++ record { notes = notes.now; history = history.now } ∷ []) self.new }
    {
        let a = first_reply(Actor::A, notes);
        let b = first_reply(Actor::B, notes);
        self.runs = more(self.runs, true);
        self.overlapped = more(self.overlapped, overlaps(notes));
        self.answered = more(self.answered, are_both(a, b));
        self.a_first = more(self.a_first, is_before(a, b));
        self.replies.add_all(history.sent(Actor::P));
        self.replies.add_all(history.sent(Actor::A));
        self.replies.add_all(history.sent(Actor::B));
    }

    /// The same, where the run came to a history.
    pub fn add_played(&mut self, played: &Played)
        ensures { (runs : List Recorded) → AreStatistics runs self.old → AreStatistics (runs ++ spec.recorded_of played.now) self.new }
    {
        if let Played::Ended(world, history, ..) = played {
            self.add(world.notes(), history);
        }
    }

    /// How many requests with this verb had a reply of this class, or had none.
    pub fn count(&self, verb: Verb, class: Option<Class>) -> u64
        ensures { result ≡ spec.count_of self.now verb class }
    {
        self.replies.of(verb).count(class)
    }
}

/// The lines that say them: one of the runs, and one of each verb that was asked; or none where there was no run.
impl Display for Statistics {
    fn fmt<W: Write>(&self, f: &mut Formatter<W>) -> Result<(), Error> {
        let Statistics {
            runs,
            overlapped,
            answered,
            a_first,
            replies,
        } = self;
        if *runs == 0 {
            return Ok(());
        }
        let noun = if *runs == 1 { "run" } else { "runs" };
        write!(
            f,
            "mcrace: {runs} {noun}, {overlapped} overlapped, A's first reply first in {a_first} of {answered}\n{replies}"
        )
    }
}

// A count of runs, and one more where the run is so.
fn more(count: u64, is_so: bool) -> u64
    ensures { result ≡ capped (count + (if is_so then 1 else 0)) }
{
    count.saturating_add(u64::from(is_so))
}

// Where the first reply to the section stands among the notes, if there is one.
fn first_reply(section: Actor, notes: &[(Actor, Event)]) -> Option<usize>
    ensures { result ≡ spec.first_reply section notes.now }
{
    notes.iter().position(|noted| is_reply_to(section, noted))
}

fn are_both(one: Option<usize>, other: Option<usize>) -> bool
    ensures { result ≡ (is_some one && is_some other) }
{
    one.is_some() && other.is_some()
}

// Whether both places are there, and the one is before the other.
fn is_before(one: Option<usize>, other: Option<usize>) -> bool
    ensures { result ≡ spec.is_before one other }
{
    match (one, other) {
        (Some(one), Some(other)) => one < other,
        _ => false,
    }
}

fn is_reply_to(section: Actor, noted: &(Actor, Event)) -> bool
    ensures { result ≡ spec.is_reply_to section noted.now }
{
    let (who, event) = noted;
    is_same(section, *who) && is_reply(event)
}

fn is_reply(event: &Event) -> bool
    ensures { result ≡ spec.is_reply event.now }
{
    match event {
        Event::Reply(_) => true,
        Event::Begin | Event::Fail(_) => false,
    }
}
