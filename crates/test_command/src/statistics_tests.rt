//! The statistics of runs whose histories are known. The numbers were counted by hand.

use mc_command::Statistics;
use mc_history::parse_history;
use mc_model::{Note, copy_reply};
use mc_protocol::{Actor, Event, Fault, OutOfMemory, Reply};
use std::alloc::Global;
use std::test::Fail;

// Both branches wait at once, and A has its reply first.
const TOGETHER: &str = "history 2
P begin delete a
P reply NOT_FOUND
P begin set a 0 =5
P reply STORED
A begin incr a 1
B begin incr a 1
A reply NUMBER 6
B reply NUMBER 7
end
";

// One after the other, and B's first. Its second cas comes too late, and A's last request has no reply.
const APART: &str = "history 2
P begin delete a
P reply DELETED
P begin set a 0 =5
P reply STORED
B begin gets a
B reply HIT 0 =5 9
B begin cas a 0 =6 9
B reply STORED
B begin cas a 0 =7 9
B reply EXISTS
A begin gets a
A reply MISS
A begin get a
end
";

// Misses alone, of A alone.
const MISSES: &str = "history 2
P begin delete a
P reply NOT_FOUND
A begin get a
A reply MISS
A begin get a
A reply MISS
end
";

// Histories, and what is said of their statistics.
static ROWS: [(&[&str], &str); 2] = [
    (
        &[APART],
        "mcrace: 1 run, 0 overlapped, A's first reply first in 0 of 1\n\
         mcrace: set: 1 stored\n\
         mcrace: cas: 1 stored, 1 exists\n\
         mcrace: get: 1 without a reply\n\
         mcrace: gets: 1 hit, 1 miss\n\
         mcrace: delete: 1 deleted\n",
    ),
    (
        &[TOGETHER, APART, MISSES, TOGETHER],
        "mcrace: 4 runs, 2 overlapped, A's first reply first in 2 of 3\n\
         mcrace: set: 3 stored\n\
         mcrace: cas: 1 stored, 1 exists\n\
         mcrace: get: 2 miss, 1 without a reply\n\
         mcrace: gets: 1 hit, 1 miss\n\
         mcrace: incr: 4 number\n\
         mcrace: delete: 3 notfound, 1 deleted\n",
    ),
];

#[test]
fn statistics_are_those_of_the_histories(rt: HostRuntime) -> Result<(), Fail> {
    for (texts, told) in ROWS {
        let statistics = counted(rt.alloc(), texts)?;
        assert_eq!(rt; statistics.to_string(rt.alloc())?.as_str(), told);
    }
    Ok(())
}

// A request that failed isn't outstanding any more, and has no reply.
#[test]
fn a_failed_request_is_not_answered(rt: HostRuntime) -> Result<(), Fail> {
    let alloc = rt.alloc();
    let text =
        b"history 2\nP begin delete a\nP reply NOT_FOUND\nA begin get a\nB begin get a\nB reply MISS\nend\n";
    let (history, _) = parse_history(alloc, text)?;
    let notes = vec![in alloc;
        (Actor::P, Event::Begin),
        (Actor::P, Event::Reply(Reply::NotFound)),
        (Actor::A, Event::Begin),
        (Actor::A, Event::Fail(Fault::Ended)),
        (Actor::B, Event::Begin),
        (Actor::B, Event::Reply(Reply::Miss)),
    ]?;
    let mut statistics = Statistics::new();
    statistics.add(notes.as_slice(), &history);
    assert_eq!(rt;
        statistics.to_string(alloc)?.as_str(),
        "mcrace: 1 run, 0 overlapped, A's first reply first in 0 of 0\n\
         mcrace: get: 1 miss, 1 without a reply\n\
         mcrace: delete: 1 notfound\n"
    );
    Ok(())
}

// The statistics of the histories of these texts.
fn counted(alloc: Global, texts: &[&str]) -> Result<Statistics, Fail> {
    let mut statistics = Statistics::new();
    for text in texts {
        let (history, _) = parse_history(alloc, text.as_bytes())?;
        let notes = events_of(alloc, history.notes().unwrap_or(&[]))?;
        statistics.add(notes.as_slice(), &history);
    }
    Ok(statistics)
}

// What was noted in a run with the notes of this history.
fn events_of(alloc: Global, notes: &[(Actor, Note)]) -> Result<Vec<(Actor, Event)>, OutOfMemory> {
    let mut events = Vec::new(alloc);
    for (section, note) in notes {
        let event = match note {
            Note::Begin(_) => Event::Begin,
            Note::Reply(reply) => Event::Reply(copy_reply(reply, alloc)?),
        };
        events.push((*section, event))?;
    }
    Ok(events)
}
