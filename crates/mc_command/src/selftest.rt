//! The command `selftest`: a campaign against a server that is right, and a run against one with a race, both in this process.
ghost use Rattle.std.specs.Prelude.{◌≡◌, true, IfOk};
ghost use Rattle.mc_campaign.specs.ReportStatus.{status_of};
ghost use Rattle.mc_answers.specs.{Statuses.status_number, Writing.WritesRightly};
ghost use Rattle.mc_command.specs.SelftestAnswers as answers;

use crate::both_read::BothRead;
use crate::job_connector::JobConnector;
use crate::run::{Played, play_code};
use crate::servers::servers_of;
use crate::target_code::read_target_code;
use mc_answers::{Sink, Status, write_text};
use mc_campaign::{
    Bounds, Campaign, JobResult, Report, Results, Unwatched, report_status, run_jobs,
};
use mc_cli::{RunArgs, Search, Seconds};
use mc_connect::{Dialer, Servers, TcpNetwork};
use mc_explain::Verdict;
use mc_lane::Stream;
use mc_run::FreeGate;
use mc_server::{Caller, Racy, Shared, listen};
use mc_settings::Meeting;
use std::alloc::Global;
use std::io::Eprint;
use std::net::{Ipv4Addr, Net, SocketAddr, TcpListener, TcpStream};
use std::rt::Clock;
use std::sync::{Arc, Wait};
use std::thread::Threads;
use std::time::Duration;
use std::{io, thread};

// What is written where both parts came out as they must.
const PASSED: &[u8] = b"honest jobs 20 explained 20 unexplained 0 other 0\nracy unexplained\nok\n";

// What is written where one didn't.
const FAILED: &[u8] = b"failed\n";

// The campaign against the server that is right, and its workers.
const CAMPAIGN: Campaign<'static> = Campaign {
    seed: 1,
    first: 0,
    jobs: 20,
    limit: 1_000_000,
    meeting: Meeting::Drawn,
    spread: 0,
    name: None,
};

const WORKERS: u32 = 4;

// The script that runs against the server with a race: each branch adds 1 to the number 5.
const TWO_INCREMENTS: &[u8] = b"script 1
keys a
budget P 2 26
budget A 1 10
budget B 1 10
P
set a 0 =5
A
incr a 1
B
incr a 1
end
";

// The longest that a connect, a read or a write may take.
const TIMEOUT: Seconds<'static> = Seconds {
    word: "10",
    milliseconds: 10_000,
};

// The two parts of the selftest.
#[derive(Clone, Copy)]
enum Part {
    Honest,
    Racy,
}

impl Part {
    // How many connections it makes: three for each job, and for the run.
    fn connections(self) -> u64 {
        match self {
            Part::Honest => 60,
            Part::Racy => 3,
        }
    }
}

/// Runs both parts, and answers the exit status.
pub fn run_selftest<R, O: Sink>(rt: &R, alloc: Global, output: &mut O) -> u8
where
    R: Net<Listener = TcpListener, Stream = TcpStream> + Threads + Wait + Clock + Sync + Eprint,
    ensures { (ended : Status) × (result ≡ status_number ended)
        × WritesRightly O.written O.has_failed answers.Selftests output.old output.new ended }
{
    write_outcome(rt, alloc, output).number()
}

fn write_outcome<R, O: Sink>(rt: &R, alloc: Global, output: &mut O) -> Status
where
    R: Net<Listener = TcpListener, Stream = TcpStream> + Threads + Wait + Clock + Sync + Eprint,
    ensures { WritesRightly O.written O.has_failed answers.Selftests output.old output.new result }
{
    match both_pass(rt, alloc) {
        Ok(true) => {
            // There is nowhere else to say that this could not be said.
            let _ = eprintln!(rt; "mcrace: racy server: race found, as it should be");
            write_text(PASSED, Status::Success, output)
        }
        Ok(false) | Err(_) => write_text(FAILED, Status::Unexplained, output),
    }
}

fn both_pass<R>(rt: &R, alloc: Global) -> io::Result<bool>
where
    R: Net<Listener = TcpListener, Stream = TcpStream> + Threads + Wait + Clock + Sync + Eprint,
    ensures { IfOk result (λ passed. passed ≡ true → answers.IsHonestSeen × answers.IsRaceSeen) }
{
    let honest = Shared::new(alloc)?;
    if !passes(rt, alloc, &honest, Part::Honest)? {
        return Ok(false);
    }
    let racy = Racy::new(alloc, BothRead::new())?;
    passes(rt, alloc, &racy, Part::Racy)
}

// Whether the part comes out as it must against a server that answers by `caller`.
fn passes<R, C: Caller>(rt: &R, alloc: Global, caller: &C, part: Part) -> io::Result<bool>
where
    R: Net<Listener = TcpListener, Stream = TcpStream> + Threads + Wait + Clock + Sync + Eprint,
    ensures { IfOk result (λ passed. passed ≡ true → answers.IsSeen part) }
{
    let listener = TcpListener::bind(rt, SocketAddr::from((Ipv4Addr::LOCALHOST, 0)))?;
    let address = listener.local_addr()?;
    let listener = &listener;
    Ok(thread::scope(
        thread::scope_env(),
        rt,
        move |scope| -> bool
            ensures { result ≡ true → answers.IsSeen part }
        {
            let serving = move || listen(rt, alloc, listener, caller, part.connections());
            if scope.spawn(serving).is_err() {
                return false;
            }
            let passed = part_passes(rt, alloc, address, part);
            if !passed {
                let_end(rt, address, part.connections());
            }
            passed
        },
    ))
}

// Whether the part comes out as it must against the server at this address.
fn part_passes<R>(rt: &R, alloc: Global, address: SocketAddr, part: Part) -> bool
where
    R: Net<Listener = TcpListener, Stream = TcpStream> + Threads + Wait + Clock + Sync + Eprint,
    ensures { result ≡ true → answers.IsSeen part }
{
    let Ok(server) = format!(in alloc; "{address}") else {
        return false;
    };
    match part {
        Part::Honest => honest_passes(rt, alloc, server.as_str()),
        Part::Racy => racy_passes(rt, alloc, server.as_str()),
    }
}

// The server ends once it has served as many connections as it waits for. Where some of them weren't made, others stand for them.
fn let_end<R: Net<Stream = TcpStream>>(rt: &R, address: SocketAddr, connections: u64) {
    'connections: for _ in 0..connections {
        let _ = TcpStream::connect_timeout(rt, &address, TIMEOUT.duration());
    }
}

// Whether all jobs of the campaign are explained, and all their sections done.
fn honest_passes<R>(rt: &R, alloc: Global, server: &str) -> bool
where
    R: Net<Listener = TcpListener, Stream = TcpStream> + Threads + Wait + Clock + Sync + Eprint,
    ensures { result ≡ true → answers.IsHonestSeen }
{
    let timeout = Some(TIMEOUT.duration());
    // The server counts the connections, and ends with the last one.
    let dialer = Dialer::new(rt, alloc, Servers::one(server, timeout, None), true, "");
    let found = run_jobs(
        rt,
        alloc,
        CAMPAIGN,
        Bounds::NONE,
        WORKERS,
        &JobConnector::new(rt, &dialer, None),
        &FreeGate,
        &mut Unwatched,
        Results::new(alloc),
    );
    match found {
        Ok(results) => are_clean(results.all),
        Err(_) => false,
    }
}

// Whether all of these jobs are explained, and all their sections done.
fn are_clean<S: Stream>(results: Vec<JobResult<S>>) -> bool
    ensures { result ≡ true → status_of results.items ≡ 0 }
{
    let report = Report {
        seed: CAMPAIGN.seed,
        results,
    };
    report_status(&report) == 0
}

// Whether the run of the two increments is unexplained.
fn racy_passes<R>(rt: &R, alloc: Global, server: &str) -> bool
where
    R: Net<Stream = TcpStream> + Threads + Wait + Clock + Sync,
    ensures { result ≡ true → answers.IsRaceSeen }
{
    let how = Search {
        limit: CAMPAIGN.limit,
        why: false,
    };
    let target = RunArgs {
        meeting: Meeting::Each,
        timeout: Some(TIMEOUT),
        ..RunArgs::at(server, how)
    };
    let Ok(checked) = read_target_code(alloc, &target, TWO_INCREMENTS) else {
        return false;
    };
    let Ok(checked) = Arc::new(alloc, checked) else {
        return false;
    };
    let mut network = TcpNetwork::new(rt, servers_of(&target));
    match play_code(rt, alloc, &target, &mut network, &checked) {
        Ok((played, _)) => is_unexplained(&played),
        Err(_) => false,
    }
}

fn is_unexplained(played: &Played) -> bool
    ensures { result ≡ true → answers.IsUnexplained played.now }
{
    match played {
        Played::Ended(_, _, Verdict::Unexplained, _) => true,
        _ => false,
    }
}
