//! Runs over a desk, as those of several are: they come out as a run alone, which makes a thread of its own.

use crate::canned::{Answers, CannedNetwork};
use crate::script::{SCRIPT, is_of_both};
use mc_answers::{Reader, Writer};
use mc_cli::{Repeat, RunArgs, Search};
use mc_command::{Unobserved, run_target};
use mc_settings::Meeting;
use std::alloc::Global;
use std::rt::Clock;
use std::sync::Wait;
use std::thread::Threads;

// What is answered on each connection to P, and to A and B by a server that counts and by one that loses an increment.
const TO_P: Answers = &[b"NOT_FOUND\r\n", b"STORED\r\n"];

static COUNTED: [Answers; 3] = [TO_P, &[b"6\r\n"], &[b"7\r\n"]];

static LOST: [Answers; 3] = [TO_P, &[b"6\r\n"], &[b"6\r\n"]];

// What is written before the last of three runs, if all are explained.
const EXPLAINED: &[u8] =
    b"run 3 of 3\nruns 3 explained 3 unexplained 0 other 0 overlapped 3 failed 0\n";

#[test]
fn runs_over_a_desk_are_those_of_a_run_alone(rt: HostRuntime) {
    let alone = written(&rt, rt.alloc(), &COUNTED, None);
    assert!(rt; is_of_both(alone.as_slice()));
    let three = written(&rt, rt.alloc(), &COUNTED, Some(three_runs(false)));
    let last = three.as_slice().strip_prefix(EXPLAINED);
    assert!(rt; last.is_some_and(is_of_both));
}

#[test]
fn runs_go_on_over_a_desk(rt: HostRuntime) {
    let three = written(&rt, rt.alloc(), &LOST, Some(three_runs(true)));
    let begin = b"run 1 of 3\nP done\nA done\nB done\nunexplained\nhistory 2\n";
    let end = b"end\nruns 3 explained 0 unexplained 3 other 0 overlapped 3 failed 0\n";
    assert!(rt; three.as_slice().starts_with(begin));
    assert!(rt; three.as_slice().ends_with(end));
}

fn three_runs(keep_going: bool) -> Repeat {
    Repeat {
        times: Some(3),
        time: None,
        keep_going,
    }
}

// What is written of runs in which the branches meet, each over new connections on which this is answered.
fn written<R>(rt: &R, alloc: Global, answers: &[Answers; 3], repeat: Option<Repeat>) -> Vec<u8>
where
    R: Threads + Wait + Clock + Sync,
{
    let how = Search {
        limit: 1_000,
        why: false,
    };
    let target = RunArgs {
        repeat,
        reconnect: true,
        meeting: Meeting::Each,
        ..RunArgs::at("127.0.0.1:0", how)
    };
    let mut output = Vec::new(alloc);
    run_target(
        rt,
        alloc,
        &target,
        &mut CannedNetwork::new(*answers),
        &mut Unobserved,
        &mut Reader::new(SCRIPT.as_bytes()),
        &mut Writer::new(&mut output),
    );
    output
}
