//! Rounds over lanes in memory.
ghost use Rattle.std.specs.Prelude.{IfOk};
ghost use Rattle.mc_lane.specs.{MemoryStreams.state_of, Streams.CanFail};

use mc_lane::{Lane, MemoryStream};
use mc_model::Note;
use mc_protocol::{Fault, OutOfMemory, Verb};
use mc_rounds::{Plan, keys_of};
use mc_settings::Mix;
use mc_stress::{Judging, Report, Round, RoundClass, Standing, judge_round, play_round};
use std::alloc::{AllocError, Global};
use std::sync::Wait;
use std::test::Fail;
use std::thread::Threads;

const PLAN: Plan = Plan {
    seed: 7,
    clients: 2,
    requests: 3,
    keys: 1,
    mix: Mix::Presence,
};

// What is written of a round of which the first request is all.
const JUDGED: &[u8] = b"client 0 failed 3 Ended\nexplained\nhistory 3\n0 begin delete k1\nend\n";

// A stream that gives these pieces and ends.
fn stream(alloc: Global, pieces: &[&[u8]]) -> Result<MemoryStream, OutOfMemory>
    ensures { IfOk result (λ stream. CanFail (state_of stream)) }
{
    MemoryStream::new(alloc, pieces, 1_000)
}

// A round of two clients, of which the first is answered with these pieces, and the other with nothing. If there is no thread, there is
// no memory for it.
fn played<R: Threads + Wait + Sync>(
    rt: &R,
    alloc: Global,
    pieces: &[&[u8]],
) -> Result<Round<MemoryStream>, AllocError> {
    let keys = keys_of(alloc, 1, None)?;
    let lanes = lanes(alloc, pieces)?;
    let Ok(round) = play_round(rt, alloc, &PLAN, 1, keys.as_slice(), lanes) else {
        return Err(AllocError);
    };
    if round
        .played
        .iter()
        .any(|one| one.ended == Some(Fault::Memory))
    {
        return Err(AllocError);
    }
    Ok(round)
}

fn lanes(alloc: Global, pieces: &[&[u8]]) -> Result<Vec<Lane<MemoryStream>>, OutOfMemory> {
    let mut lanes = Vec::new(alloc);
    lanes.push(Lane::new(alloc, stream(alloc, pieces)?, 1_000))?;
    lanes.push(Lane::new(alloc, stream(alloc, &[])?, 1_000))?;
    Ok(lanes)
}

// Whether the first note is that the first client deletes the key.
fn begins_with_a_delete(notes: &[(u8, Note)]) -> bool {
    match notes.first() {
        Some((0, Note::Begin(request))) => {
            request.verb == Verb::Delete && request.key.as_slice() == b"k1".as_slice()
        }
        _ => false,
    }
}

#[test]
fn a_server_that_ends_leaves_one_request(rt: HostRuntime) -> Result<(), Fail> {
    let round = match played(&rt, rt.alloc(), &[]) {
        Err(AllocError) => played(&rt, rt.alloc(), &[])?,
        Ok(round) => round,
    };
    assert!(rt; leaves_one_request(&round));
    Ok(())
}

// Whether the first client sent a request to which no reply came, and the other one none.
fn leaves_one_request(round: &Round<MemoryStream>) -> bool {
    let notes = round.notes.as_slice();
    match round.played.as_slice() {
        [first, other] => {
            notes.len() == 1
                && begins_with_a_delete(notes)
                && first.ended == Some(Fault::Ended)
                && first.lane.sent() == b"delete k1\r\n".as_slice()
                && other.ended.is_none()
                && other.lane.sent().is_empty()
        }
        _ => false,
    }
}

// What the first client sends of its own follows what begins the round. Both find the end of their streams then. The requests are those
// of `oracle/rounds.py`.
#[test]
fn each_client_plays_until_its_first_fault(rt: HostRuntime) {
    let pieces: &[&[u8]] = &[b"NOT_FOUND\r\n", b"STORED\r\n"];
    let round = played(&rt, rt.alloc(), pieces);
    assert!(rt;
        round.is_ok_and(|round| round.played.len() == 2
            && round.played[0].lane.sent()
                == b"delete k1\r\nset k1 0 0 2\r\n95\r\nget k1\r\n".as_slice()
            && round.played[1].lane.sent() == b"replace k1 1 0 2\r\n67\r\n".as_slice()
            && round
                .played
                .iter()
                .all(|one| one.ended == Some(Fault::Ended)))
    );
}

// A round of which the first request is all.
fn judged<R: Threads + Wait + Sync>(rt: &R, alloc: Global) -> Result<Option<Report>, AllocError> {
    let round = played(rt, alloc, &[])?;
    let judging = Judging {
        limit: None,
        why: true,
        whole: false,
        smallest: false,
    };
    judge_round(alloc, round, judging)
}

#[test]
fn a_round_of_one_request_is_explained(rt: HostRuntime) -> Result<(), Fail> {
    let report = match judged(&rt, rt.alloc()) {
        Err(AllocError) => judged(&rt, rt.alloc())?,
        Ok(report) => report,
    };
    assert!(rt;
        report.is_some_and(|report| report.class == RoundClass::Failed
            && report.standing == Standing::NoAnswer
            && report.text.as_slice() == JUDGED)
    );
    Ok(())
}
