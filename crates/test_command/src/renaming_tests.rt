//! `run` repeatedly, where a run leaves a request without a reply: the keys of the runs after it. `cases/run/runs.cases` has runs
//! that keep their keys, and those that no name fits.

use crate::canned::{Answers, CannedNetwork};
use mc_answers::{Reader, Status, Writer};
use mc_cli::{Repeat, RunArgs, Search};
use mc_command::{Played, Remarks, RunObserver, run_target};
use mc_protocol::Actor;
use std::alloc::{AllocError, Global};
use std::rt::Clock;
use std::sync::Wait;
use std::thread::Threads;

// P stores 5 and A adds 1.
const SCRIPT: &str = "script 1
keys a
budget P 2 26
budget A 1 10
budget B 0 0
P
set a 0 =5
A
incr a 1
B
end
";

// What P is answered.
const TO_P: Answers = &[
    b"NOT_FOUND\r\n",
    b"STORED\r\n",
    b"DELETED\r\n",
    b"STORED\r\n",
];

// Notes the keys of runs, and after which run none follows.
#[derive(Drop)]
struct Keys {
    alloc: Global,
    keys: Vec<Vec<u8>>,
    stopped: Option<u64>,
}

impl Keys {
    fn new(alloc: Global) -> Self {
        Keys {
            alloc,
            keys: Vec::new(alloc),
            stopped: None,
        }
    }

    fn note(&mut self, key: &[u8]) -> Result<(), AllocError> {
        let key = Vec::from_slice(self.alloc, key)?;
        self.keys.push(key)?;
        Ok(())
    }
}

impl RunObserver for Keys {
    fn begin(&mut self, _times: Option<u64>) {}

    fn add(&mut self, played: &Played) {
        if let Played::Ended(_, history, _, _) = played
            && let Some(sent) = history.sent(Actor::P).first()
        {
            // A key that isn't noted is missed by the test.
            let _ = self.note(sent.request.key.as_slice());
        }
    }

    fn pass_over(&mut self, _number: u64, _remarks: &Remarks) {}

    fn find(&mut self, _remarks: &Remarks) {}

    fn stop(&mut self, number: u64) {
        self.stopped = Some(number);
    }

    fn give_way(&mut self) {}
}

#[test]
fn runs_after_an_unanswered_request_have_new_keys(rt: HostRuntime) {
    let mut observer = Keys::new(rt.alloc());
    let mut network = CannedNetwork::new([TO_P, &[], &[]]);
    let output = run_three(&rt, rt.alloc(), &mut network, &mut observer);
    assert!(rt; output.starts_with(b"run 1 of 3\nP done\nA failed 3 Ended\n"));
    assert!(rt;
        output.ends_with(b"runs 3 explained 0 unexplained 0 other 0 overlapped 0 failed 3\n")
    );
    let [first, second, third] = observer.keys.as_slice() else {
        return assert!(rt; false);
    };
    assert_eq!(rt; first.as_slice(), b"a".as_slice());
    for later in [second, third] {
        assert_eq!(rt; later.len(), 10);
        assert!(rt; later.ends_with(b"-a"));
    }
    assert!(rt; second.as_slice() != third.as_slice());
    assert_eq!(rt; observer.stopped, None);
}

// What is written of three runs of the script over this network; or nothing where all their statuses are 0.
fn run_three<R>(rt: &R, alloc: Global, network: &mut CannedNetwork, observer: &mut Keys) -> Vec<u8>
where
    R: Threads + Wait + Clock + Sync,
{
    let how = Search {
        limit: 1_000,
        why: false,
    };
    let target = RunArgs {
        repeat: Some(Repeat {
            times: Some(3),
            time: None,
            keep_going: true,
        }),
        ..RunArgs::at("127.0.0.1:0", how)
    };
    let mut output = Vec::new(alloc);
    let (status, _) = run_target(
        rt,
        alloc,
        &target,
        network,
        observer,
        &mut Reader::new(SCRIPT.as_bytes()),
        &mut Writer::new(&mut output),
    );
    match status {
        Status::Success => Vec::new(alloc),
        _ => output,
    }
}
