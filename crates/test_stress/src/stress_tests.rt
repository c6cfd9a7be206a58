//! What is written of rounds, and which connections they have.
use crate::fake_server::{Lines, Manner, Server};
use crate::pages::Sheet;
use mc_rounds::Plan;
use mc_settings::{Mix, Namespace};
use mc_stress::{Judging, Standing, Stress, play_rounds};
use std::alloc::{AllocError, Global};
use std::rt::Clock;
use std::sync::Wait;
use std::test::Fail;
use std::thread::Threads;

/// What came of rounds.
#[derive(Drop)]
struct Came {
    standing: Standing,
    sheet: Sheet,
    connected: u64,
}

fn asked<'a>(clients: u8, rounds: u64) -> Stress<'a> {
    Stress {
        plan: Plan {
            seed: 1,
            clients,
            requests: 20,
            keys: 1,
            mix: Mix::Counters,
        },
        name: None,
        rounds: Some(rounds),
        time: None,
        keep_going: false,
        judging: Judging {
            limit: None,
            why: false,
            whole: false,
            smallest: false,
        },
    }
}

// Plays the rounds at a server of this manner. If a client, its thread, the server or the page finds no memory, that is an error.
fn play<R: Threads + Wait + Clock + Sync>(
    rt: &R,
    alloc: Global,
    manner: Manner,
    refused: Option<u8>,
    stress: &Stress<'_>,
) -> Result<Came, AllocError> {
    let server = Server::new(alloc, manner);
    let mut lines = Lines {
        rt,
        server: &server,
        refused,
        connected: 0,
    };
    let mut sheet = Sheet::new(alloc);
    let standing = play_rounds(rt, alloc, stress, &mut lines, &mut sheet)?;
    let words: [&[u8]; 3] = [b"Memory", b"WriteFailed", b"not run"];
    if sheet.text.is_empty() || words.iter().any(|word| has(&sheet, word)) {
        return Err(AllocError);
    }
    let connected = lines.connected;
    Ok(Came {
        standing,
        sheet,
        connected,
    })
}

// Whether the bytes stand in what was written.
fn has(sheet: &Sheet, bytes: &[u8]) -> bool {
    sheet
        .text
        .as_slice()
        .windows(bytes.len().max(1))
        .any(|window| window == bytes)
}

#[test]
fn rounds_of_a_right_server_are_explained(rt: HostRuntime) {
    let came = play(&rt, rt.alloc(), Manner::Right, None, &asked(8, 3));
    assert!(rt;
        came.is_ok_and(|came| came.standing == Standing::Good
            && came.sheet.text.as_slice()
                == b"round 3 of 3\nrounds 3 explained 3 unexplained 0 other 0 failed 0\nexplained\n".as_slice()
            && came.connected == 8
            && came.sheet.counted == (3, 0)
            && came.sheet.played.0 == 3
            && came.sheet.played.1 >= 3 * (8 * 20 + 1)
            && came.sheet.evidence.is_none())
    );
}

#[test]
fn the_first_unexplained_round_ends_them(rt: HostRuntime) {
    let came = play(&rt, rt.alloc(), Manner::Forgetful, None, &asked(4, 5));
    assert!(rt;
        came.is_ok_and(|came| came.standing == Standing::Unexplained
            && came.sheet.text.starts_with(
                b"round 1 of 5\nrounds 1 explained 0 unexplained 1 other 0 failed 0\nunexplained\nkey k1\nhistory 3\n0 begin delete k1\n"
            )
            && came.sheet.text.ends_with(b"\nend\n")
            && came.sheet.evidence.is_some_and(|(round, evidence)| round == 1
                && evidence.key.as_slice() == b"k1".as_slice()
                && evidence.timeline.notes().len() > 2))
    );
}

#[test]
fn others_follow_it_if_that_is_asked_for(rt: HostRuntime) {
    let mut stress = asked(4, 3);
    stress.keep_going = true;
    let came = play(&rt, rt.alloc(), Manner::Forgetful, None, &stress);
    assert!(rt;
        came.is_ok_and(|came| came.standing == Standing::Unexplained
            && came
                .sheet
                .text
                .starts_with(b"round 1 of 3\nunexplained\nkey k1\nhistory 3\n")
            && came.sheet.text.ends_with(
                b"\nend\nrounds 3 explained 0 unexplained 3 other 0 failed 0\n"
            )
            && came.connected == 4)
    );
}

#[test]
fn an_undecided_round_does_not_end_them(rt: HostRuntime) {
    let mut stress = asked(4, 3);
    stress.judging = Judging {
        limit: Some(0),
        why: false,
        whole: false,
        smallest: false,
    };
    let came = play(&rt, rt.alloc(), Manner::Right, None, &stress);
    assert!(rt;
        came.is_ok_and(|came| came.standing == Standing::Undecided
            && came.sheet.text.starts_with(
                b"round 1 of 3\nrounds 3 explained 0 unexplained 0 other 3 failed 0\nundecided\nkey k1\nhistory 3\n"
            )
            && came.sheet.played.0 == 3)
    );
}

#[test]
fn an_unexplained_round_is_shown_before_one_that_failed(rt: HostRuntime) {
    let mut stress = asked(3, 3);
    stress.keep_going = true;
    let came = play(
        &rt,
        rt.alloc(),
        Manner::EndingThenForgetful(2),
        None,
        &stress,
    );
    assert!(rt;
        came.is_ok_and(|came| came.standing == Standing::Unexplained
            && came
                .sheet
                .text
                .starts_with(b"round 2 of 3\nunexplained\nkey 2-k1\nhistory 3\n")
            && came.sheet.text.ends_with(
                b"\nend\nrounds 3 explained 0 unexplained 2 other 0 failed 1\n"
            )
            && came.sheet.evidence.is_some_and(|(round, _)| round == 2))
    );
}

#[test]
fn it_is_said_why(rt: HostRuntime) {
    let mut stress = asked(4, 1);
    stress.judging.why = true;
    let came = play(&rt, rt.alloc(), Manner::Forgetful, None, &stress);
    assert!(rt;
        came.is_ok_and(|came| has(&came.sheet, b"unexplained\nkey k1\nwhy\nline ")
            && has(&came.sheet, b"\nend\nhistory 3\n"))
    );
}

#[test]
fn one_key_is_shown_or_all(rt: HostRuntime) {
    let mut stress = asked(4, 1);
    stress.plan.keys = 2;
    let one = play(&rt, rt.alloc(), Manner::Forgetful, None, &stress);
    assert!(rt;
        one.is_ok_and(|came| has(&came.sheet, b" k1") != has(&came.sheet, b" begin delete k2"))
    );
    stress.judging.whole = true;
    let all = play(&rt, rt.alloc(), Manner::Forgetful, None, &stress);
    assert!(rt;
        all.is_ok_and(|came| has(&came.sheet, b"begin delete k1")
            && has(&came.sheet, b"begin delete k2"))
    );
}

// How often the bytes stand in what was written.
fn count_of(sheet: &Sheet, bytes: &[u8]) -> usize {
    sheet
        .text
        .as_slice()
        .windows(bytes.len().max(1))
        .filter(|window| *window == bytes)
        .count()
}

// How many replies say that nothing is there.
fn nothing_found(sheet: &Sheet) -> usize {
    count_of(sheet, b" reply NOT_FOUND\n").saturating_add(count_of(sheet, b" reply MISS\n"))
}

// No request deletes anything, so each reply that says that nothing is there is wrong by itself behind a set.
#[test]
fn the_smallest_evidence_has_one_wrong_reply(rt: HostRuntime) {
    let mut stress = asked(2, 1);
    stress.judging.smallest = true;
    let came = play(&rt, rt.alloc(), Manner::Forgetful, None, &stress);
    assert!(rt;
        came.is_ok_and(|came| came.standing == Standing::Unexplained
            && has(
                &came.sheet,
                b"history 3\n0 begin delete k1\n0 reply NOT_FOUND\n"
            )
            && nothing_found(&came.sheet) == 2)
    );
}

#[test]
fn what_is_no_reply_ends_a_client(rt: HostRuntime) {
    let came = play(&rt, rt.alloc(), Manner::Garbling(1), None, &asked(3, 2));
    assert!(rt;
        came.is_ok_and(|came| came.standing == Standing::BadReply
            && came.sheet.text.starts_with(
                b"round 1 of 2\nrounds 1 explained 0 unexplained 0 other 0 failed 1\nclient 1 failed 4 BadReply\nexplained\nhistory 3\n"
            )
            && came.sheet.told.as_slice() == [(1, 1, 1)].as_slice())
    );
}

#[test]
fn a_client_whose_connection_ends_is_told(rt: HostRuntime) {
    let mut stress = asked(3, 2);
    stress.keep_going = true;
    let came = play(&rt, rt.alloc(), Manner::Ending(2), None, &stress);
    assert!(rt;
        came.is_ok_and(|came| came.standing == Standing::NoAnswer
            && came.sheet.text.starts_with(
                b"round 1 of 2\nclient 2 failed 3 Ended\nexplained\nhistory 3\n0 begin delete k1\n"
            )
            && came.sheet.text.ends_with(
                b"\nend\nrounds 2 explained 0 unexplained 0 other 0 failed 2\n"
            )
            && came.sheet.told.as_slice() == [(1, 2, 1), (2, 2, 1)].as_slice()
            && came.connected == 6)
    );
}

#[test]
fn no_other_client_sends_if_the_first_fails_before(rt: HostRuntime) {
    let came = play(&rt, rt.alloc(), Manner::Ending(0), None, &asked(3, 2));
    assert!(rt;
        came.is_ok_and(|came| came.sheet.text.as_slice()
            == b"round 1 of 2\nrounds 1 explained 0 unexplained 0 other 0 failed 1\nclient 0 failed 3 Ended\n\
               explained\nhistory 3\n0 begin delete k1\nend\n"
                .as_slice())
    );
}

#[test]
fn no_round_follows_if_no_name_fits(rt: HostRuntime) {
    let mut stress = asked(3, 2);
    stress.keep_going = true;
    stress.name = Namespace::new(b"aaaaaaaaaaaaaaaaaaaaaaaaaaaaaaaaaaaaa");
    let came = play(&rt, rt.alloc(), Manner::Ending(2), None, &stress);
    assert!(rt;
        came.is_ok_and(|came| came.sheet.stopped == 1
            && came.sheet.text.ends_with(
                b"\nend\nrounds 1 explained 0 unexplained 0 other 0 failed 1\n"
            ))
    );
}

#[test]
fn a_client_without_a_connection_ends_them(rt: HostRuntime) {
    let came = play(&rt, rt.alloc(), Manner::Right, Some(1), &asked(3, 2));
    assert!(rt;
        came.is_ok_and(|came| came.standing == Standing::NoAnswer
            && came.sheet.text.as_slice()
                == b"round 1 of 2\nrounds 1 explained 0 unexplained 0 other 1 failed 0\nno connection 1\n".as_slice()
            && came.sheet.unreached == 1)
    );
}

#[test]
fn an_output_that_fails_is_no_answer(rt: HostRuntime) {
    let server = Server::new(rt.alloc(), Manner::Right);
    let mut lines = Lines {
        rt: &rt,
        server: &server,
        refused: None,
        connected: 0,
    };
    let mut sheet = Sheet::new(rt.alloc());
    sheet.is_broken = true;
    let standing = play_rounds(&rt, rt.alloc(), &asked(2, 1), &mut lines, &mut sheet);
    assert!(rt; standing == Ok(Standing::NoAnswer));
}

#[test]
fn a_short_round_is_explained_again(rt: HostRuntime) -> Result<(), Fail> {
    let mut stress = asked(2, 1);
    stress.plan.requests = 1;
    let came = match play(&rt, rt.alloc(), Manner::Right, None, &stress) {
        Err(AllocError) => play(&rt, rt.alloc(), Manner::Right, None, &stress)?,
        Ok(came) => came,
    };
    assert!(rt; came.standing == Standing::Good);
    Ok(())
}
