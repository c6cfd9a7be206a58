//! `run` over a network in memory: what is written of a run, its status, and which connections are kept.

use crate::canned::{Answers, CannedNetwork};
use mc_answers::{Reader, Status, Writer};
use mc_cli::{Repeat, RunArgs, Search};
use mc_command::{Remarks, RunTeller, run_target};
use std::alloc::Global;
use std::io::Eprint;
use std::rt::Clock;
use std::sync::Wait;
use std::thread::Threads;

// P stores 5 and A adds 1. B does nothing, so the history is the same whichever branch goes first.
const SCRIPT: &str = "script 1
keys a
budget P 2 26
budget A 1 10
budget B 0 0
P
set a 0 =5
A
incr a 1
B
end
";

// What P is answered.
const TO_P: Answers = &[b"NOT_FOUND\r\n", b"STORED\r\n"];

// What is answered to A, what is written of the run, its status, and what is remarked on A.
static ROWS: [(Answers, &str, Status, &str); 5] = [
    (
        &[b"6\r\n"],
        "P done\nA done\nB done\nexplained\nP 0\nP 1\nA 2\nend\nhistory 2\n\
         P begin delete a\nP reply NOT_FOUND\nP begin set a 0 =5\nP reply STORED\n\
         A begin incr a 1\nA reply NUMBER 6\nend\n",
        Status::Success,
        "",
    ),
    (
        &[b"6\r\nmore"],
        "P done\nA done\nB done\nexplained\nP 0\nP 1\nA 2\nend\nhistory 2\n\
         P begin delete a\nP reply NOT_FOUND\nP begin set a 0 =5\nP reply STORED\n\
         A begin incr a 1\nA reply NUMBER 6\nend\n",
        Status::Success,
        "A: after its last reply came 4 bytes more: \"more\"",
    ),
    (
        &[b"7\r\n"],
        "P done\nA done\nB done\nunexplained\nhistory 2\n\
         P begin delete a\nP reply NOT_FOUND\nP begin set a 0 =5\nP reply STORED\n\
         A begin incr a 1\nA reply NUMBER 7\nend\n",
        Status::Unexplained,
        "",
    ),
    (
        &[b"6\n"],
        "P done\nA failed 4 BadReply\nB done\nexplained\nP 0\nP 1\nend\nhistory 2\n\
         P begin delete a\nP reply NOT_FOUND\nP begin set a 0 =5\nP reply STORED\n\
         A begin incr a 1\nend\n",
        Status::Unexplained,
        "A: to \"incr a 1\" came \"6\\n\": the line ends without CR",
    ),
    (
        &[],
        "P done\nA failed 3 Ended\nB done\nexplained\nP 0\nP 1\nend\nhistory 2\n\
         P begin delete a\nP reply NOT_FOUND\nP begin set a 0 =5\nP reply STORED\n\
         A begin incr a 1\nend\n",
        Status::NoAnswer,
        "A: no reply to \"incr a 1\": the server closed the connection",
    ),
];

#[test]
fn a_run_is_written_as_it_came_out(rt: HostRuntime) {
    for (to_a, text, status, remark) in ROWS {
        let mut network = CannedNetwork::new([TO_P, to_a, &[]]);
        let ran = run(&rt, rt.alloc(), &mut network, None, false);
        assert_eq!(rt; ran.output.as_slice(), text.as_bytes());
        assert_eq!(rt; ran.status, status);
        assert_eq!(rt; remark_of(&ran.remarks), remark);
        // The connections of a single run are closed and not given back.
        assert_eq!(rt; (network.connected, network.released), ([1, 1, 1], 0));
    }
}

// More comes on A's connection once the only run of several was looked at.
#[test]
fn what_comes_after_the_last_run_is_remarked(rt: HostRuntime) {
    let repeat = Repeat {
        times: Some(1),
        time: None,
        keep_going: false,
    };
    let mut network = CannedNetwork::new([TO_P, &[b"6\r\n", b"6\r\n"], &[]]);
    network.later = b"more";
    let ran = run(&rt, rt.alloc(), &mut network, Some(repeat), false);
    assert_eq!(rt; ran.status, Status::Success);
    assert_eq!(rt;
        remark_of(&ran.remarks),
        "A: after its last reply came 4 bytes more: \"more\""
    );
}

// What P is answered in three runs on one connection.
const TO_P_IN_THREE: Answers = &[
    b"NOT_FOUND\r\n",
    b"STORED\r\n",
    b"DELETED\r\n",
    b"STORED\r\n",
    b"DELETED\r\n",
    b"STORED\r\n",
];

// What is answered to A on each connection, whether the target says that each run is to have new ones, how what is written of three runs
// begins and ends, and how often each section was connected, and how many connections were given back. B's connection is always ended
// before the next run.
static REPEATS: [(Answers, bool, &str, &str, ([u32; 3], usize)); 5] = [
    (
        &[b"6\r\n", b"6\r\n", b"6\r\n"],
        false,
        "run 3 of 3\nP done\n",
        "end\nruns 3 explained 3 unexplained 0 other 0 overlapped 0 failed 0\n",
        ([1, 1, 3], 3),
    ),
    // A's is ended too.
    (
        &[b"6\r\n"],
        false,
        "run 3 of 3\nP done\n",
        "end\nruns 3 explained 3 unexplained 0 other 0 overlapped 0 failed 0\n",
        ([1, 3, 3], 3),
    ),
    (
        &[b"6\r\n", b"6\r\n", b"6\r\n"],
        true,
        "run 3 of 3\nP done\n",
        "end\nruns 3 explained 3 unexplained 0 other 0 overlapped 0 failed 0\n",
        ([3, 3, 3], 9),
    ),
    // More came than was asked for, so no connection is kept.
    (
        &[b"6\r\n!"],
        false,
        "run 3 of 3\nP done\n",
        "end\nruns 3 explained 3 unexplained 0 other 0 overlapped 0 failed 0\n",
        ([3, 3, 3], 9),
    ),
    // The second run is unexplained, and its connections serve the third one, but for those that were ended.
    (
        &[b"6\r\n", b"7\r\n"],
        false,
        "run 2 of 3\nP done\n",
        "end\nruns 3 explained 2 unexplained 1 other 0 overlapped 0 failed 0\n",
        ([1, 2, 3], 3),
    ),
];

#[test]
fn connections_serve_the_next_run(rt: HostRuntime) {
    let repeat = Repeat {
        times: Some(3),
        time: None,
        keep_going: true,
    };
    for (to_a, reconnect, begin, end, counts) in REPEATS {
        let mut network = CannedNetwork::new([TO_P_IN_THREE, to_a, &[]]);
        let ran = run(&rt, rt.alloc(), &mut network, Some(repeat), reconnect);
        assert!(rt; ran.output.as_slice().starts_with(begin.as_bytes()));
        assert!(rt; ran.output.as_slice().ends_with(end.as_bytes()));
        let counted = (network.connected, network.released);
        assert_eq!(rt; counted, counts);
    }
}

// What came of a line of `run`.
#[derive(Drop)]
struct Ran {
    status: Status,
    remarks: Remarks,
    output: Vec<u8>,
}

// Runs the script over the network.
fn run<R>(
    rt: &R,
    alloc: Global,
    network: &mut CannedNetwork,
    repeat: Option<Repeat>,
    reconnect: bool,
) -> Ran
where
    R: Threads + Wait + Clock + Sync + Eprint,
{
    let how = Search {
        limit: 1_000,
        why: false,
    };
    let target = RunArgs {
        repeat,
        reconnect,
        ..RunArgs::at("127.0.0.1:0", how)
    };
    let mut output = Vec::new(alloc);
    let mut teller = RunTeller::new(rt, alloc, &target, None);
    let (status, remarks) = run_target(
        rt,
        alloc,
        &target,
        network,
        &mut teller,
        &mut Reader::new(SCRIPT.as_bytes()),
        &mut Writer::new(&mut output),
    );
    Ran {
        status,
        remarks,
        output,
    }
}

// The remark, if there is one alone; or nothing.
fn remark_of(remarks: &Remarks) -> &str {
    match remarks {
        Remarks::Evidence(all) => match all.as_slice() {
            [] => "",
            [remark] => remark.as_str(),
            _ => "several remarks",
        },
        _ => "other remarks",
    }
}
