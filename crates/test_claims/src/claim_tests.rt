//! Claims that are made by hand, among them one that no text states.

use crate::memory::again;
use mc_claims::confirms;
use mc_history::{Explanation, Move, parse_history};
use mc_model::{Choice, History};
use mc_protocol::{Actor, Bytes, OutOfMemory};
use std::alloc::Global;
use std::test::Fail;

const DELETED: &[u8] = b"history 1\nP delete a -> DELETED\nend\n";

// The keys that held something, each with its number.
type Held = &'static [(&'static [u8], u64)];

// Whether this explains the reply, where P's delete acts.
static CLAIMS: [(Held, bool); 4] = [
    (&[(b"a", 1)], true),
    (&[(b"b", 1), (b"a", 1)], true),
    (&[], false),
    // A key that stands twice.
    (&[(b"a", 1), (b"a", 2)], false),
];

// The claim that P's delete acts, and that these keys held something, each with its number.
fn claim(alloc: Global, held: Held) -> Result<Explanation, OutOfMemory> {
    let choice = Choice {
        pad: false,
        read: true,
    };
    let delete = Move {
        actor: Actor::P,
        choice,
        number: 0,
    };
    let order = vec![in alloc; delete]?;
    Ok(Explanation {
        start: start(alloc, held)?,
        order,
    })
}

fn start(alloc: Global, held: Held) -> Result<Vec<(Bytes, u64)>, OutOfMemory> {
    let mut start = Vec::new(alloc);
    for (key, number) in held {
        push_copy(alloc, key, *number, &mut start)?;
    }
    Ok(start)
}

fn push_copy(
    alloc: Global,
    key: &[u8],
    number: u64,
    start: &mut Vec<(Bytes, u64)>,
) -> Result<(), OutOfMemory> {
    let key = Bytes::new(Vec::from_slice(alloc, key)?);
    Ok(start.push((key, number))?)
}

#[test]
fn confirms_what_explains(rt: HostRuntime) -> Result<(), Fail> {
    assert_eq!(rt; first_other(rt.alloc())?, None);
    Ok(())
}

// The first of these rows that is answered otherwise.
fn first_other(alloc: Global) -> Result<Option<usize>, Fail> {
    let read = parse_history(alloc, DELETED)?;
    first_other_of(alloc, &read.0)
}

fn first_other_of(alloc: Global, history: &History) -> Result<Option<usize>, Fail> {
    for (row, (held, wanted)) in CLAIMS.iter().enumerate() {
        if is_confirmed(alloc, history, held)? != *wanted {
            return Ok(Some(row));
        }
    }
    Ok(None)
}

fn is_confirmed(alloc: Global, history: &History, held: Held) -> Result<bool, OutOfMemory> {
    let explanation = claim(alloc, held)?;
    again(|| confirms(alloc, history, &explanation))
}
