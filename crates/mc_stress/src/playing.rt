//! The threads of a round.

use crate::Played;
use crate::meeting::Meeting;
use crate::part::{Board, Part};
use mc_lane::{Lane, Stream};
use mc_model::Note;
use mc_protocol::{Bytes, OutOfMemory, Request};
use mc_rounds::{Client, Plan, openings};
use std::alloc::{AllocError, Global};
use std::sync::Wait;
use std::sync::atomic::{AtomicU64, Ordering};
use std::thread::{self, Builder, Scope, Threads};
use thiserror::Error;

/// How many bytes the stack of a client's thread has.
const STACK_BYTES: usize = 262_144;

/// A round: what was noted of its clients in the order of time, and their lanes, as it left them.
#[derive(Debug, Drop)]
pub struct Round<S: Stream> {
    pub notes: Vec<(u8, Note)>,
    pub played: Vec<Played<Lane<S>>>,
}

/// Why there is no round. Its lanes are dropped then.
#[derive(Clone, Copy, Debug, PartialEq, Eq, Error)]
pub enum RoundError {
    /// No thread could be made for a client.
    #[error("no thread could be made")]
    NoThread,
    /// Memory ran out outside the clients.
    #[error("out of memory")]
    OutOfMemory,
}

impl From<AllocError> for RoundError {
    ghost use Rattle.std.specs.Prelude.{◌≡◌};
    ghost use Rattle.mc_stress.specs.declared.playing.RoundError.TheVariants.{OutOfMemory};

    ghost from_gives = { λ _ e. e ≡ OutOfMemory };

    fn from(_e: AllocError) -> RoundError {
        RoundError::OutOfMemory
    }
}

/// Plays the round with this number over a new lane for each client, in the order of their numbers. The first client sends the requests
/// that begin the round alone; then all meet, and each sends its requests one after another, on a thread of its own.
///
/// When a request begins is noted before its first byte is written, and its reply after the last one was read. A client for which memory
/// runs out fails with [`Fault::Memory`](mc_protocol::Fault::Memory). If a request fails that begins the round, no other is sent.
///
/// # Errors
///
/// Why there is no round: see [`RoundError`].
pub fn play_round<S: Stream + Send, R: Threads + Wait + Sync>(
    rt: &R,
    alloc: Global,
    plan: &Plan,
    number: u64,
    keys: &[Bytes],
    lanes: Vec<Lane<S>>,
) -> Result<Round<S>, RoundError> {
    let board = Board {
        keys,
        clock: AtomicU64::new(0),
        meeting: Meeting::new(lanes.len() as u64),
    };
    let mut parts = parts_of(alloc, plan, number, lanes)?;
    let openings = openings(alloc, plan, number, keys)?;
    let is_open = open(alloc, &board, openings, parts.as_mut_slice());
    let parts = if is_open {
        play_all(rt, alloc, &board, parts)?
    } else {
        Some(parts)
    };
    let Some(parts) = parts else {
        return Err(RoundError::NoThread);
    };
    let times = board.clock.load(Ordering::SeqCst);
    Ok(ended(alloc, times, parts)?)
}

// A client over each lane.
fn parts_of<S: Stream>(
    alloc: Global,
    plan: &Plan,
    number: u64,
    lanes: Vec<Lane<S>>,
) -> Result<Vec<Part<S>>, OutOfMemory> {
    let mut parts = Vec::new(alloc);
    let mut client = 0u8;
    'lanes: for lane in lanes {
        let mut notes = Vec::new(alloc);
        notes.reserve(2 * usize::from(plan.requests))?;
        parts.push(Part {
            client,
            lane,
            asking: Client::new(alloc, plan, number, client)?,
            notes,
            ended: None,
        })?;
        client = client.saturating_add(1);
    }
    Ok(parts)
}

// Has the first client send the requests that begin the round, and answers whether it got all replies.
fn open<S: Stream>(
    alloc: Global,
    board: &Board<'_>,
    openings: Vec<Request>,
    parts: &mut [Part<S>],
) -> bool {
    match parts.first_mut() {
        Some(first) => {
            first.open(alloc, board, openings);
            first.ended.is_none()
        }
        None => false,
    }
}

// Plays all clients, the first on this thread and each other one on its own; or answers nothing if no thread can be made.
fn play_all<S: Stream + Send, R: Threads + Wait + Sync>(
    rt: &R,
    alloc: Global,
    board: &Board<'_>,
    parts: Vec<Part<S>>,
) -> Result<Option<Vec<Part<S>>>, OutOfMemory> {
    thread::scope(
        thread::scope_env(),
        rt,
        |scope| -> Result<Option<Vec<Part<S>>>, OutOfMemory> {
            let played = play_in(rt, alloc, board, parts, scope);
            if !matches!(played, Ok(Some(_))) {
                board.meeting.call_off(rt);
            }
            played
        },
    )
}

// The same, in threads of the scope.
fn play_in<'s, E, S: Stream + Send + 's, R: Threads + Wait + Sync>(
    rt: &'s R,
    alloc: Global,
    board: &'s Board<'s>,
    parts: Vec<Part<S>>,
    scope: &Scope<'s, E>,
) -> Result<Option<Vec<Part<S>>>, OutOfMemory> {
    let mut others = Vec::new(alloc);
    let mut first = None;
    'parts: for part in parts {
        if part.client == 0 {
            first = Some(part);
            continue;
        }
        // room for its handle, before its thread is there
        others.reserve(1)?;
        let playing = move || part.play(rt, alloc, board);
        match Builder::new()
            .stack_size(STACK_BYTES)
            .spawn_scoped(scope, playing)
        {
            Ok(handle) => others.push(handle)?,
            Err(_) => return Ok(None),
        }
    }
    let mut played = Vec::new(alloc);
    if let Some(first) = first {
        played.push(first.play(rt, alloc, board))?;
    }
    'others: for handle in others {
        played.push(handle.join(rt))?;
    }
    Ok(Some(played))
}

// The round of these clients, whose notes have times below this one.
fn ended<S: Stream>(
    alloc: Global,
    times: u64,
    parts: Vec<Part<S>>,
) -> Result<Round<S>, OutOfMemory> {
    let mut played = Vec::new(alloc);
    let mut slots = empty_slots(alloc, times)?;
    'parts: for part in parts {
        let Part {
            client,
            lane,
            notes,
            ended,
            ..
        } = part;
        put(client, notes, slots.as_mut_slice());
        played.push(Played {
            client,
            lane,
            ended,
        })?;
    }
    Ok(Round {
        notes: noted(alloc, slots)?,
        played,
    })
}

// A slot for each time.
fn empty_slots(alloc: Global, times: u64) -> Result<Vec<Option<(u8, Note)>>, OutOfMemory> {
    let mut slots = Vec::new(alloc);
    'times: for _ in 0..times {
        slots.push(None)?;
    }
    Ok(slots)
}

// Puts a client's notes into the slots of their times.
fn put(client: u8, notes: Vec<(u64, Note)>, slots: &mut [Option<(u8, Note)>]) {
    'notes: for (time, note) in notes {
        if let Some(slot) = slots.get_mut(time as usize) {
            *slot = Some((client, note));
        }
    }
}

// The notes in the slots.
fn noted(alloc: Global, slots: Vec<Option<(u8, Note)>>) -> Result<Vec<(u8, Note)>, OutOfMemory> {
    let mut notes = Vec::new(alloc);
    'slots: for slot in slots {
        if let Some(noted) = slot {
            notes.push(noted)?;
        }
    }
    Ok(notes)
}
