//! `campaign` where there is no server. `cases/campaign/no-connection.cases` has more of it.

use mc_answers::{Status, Writer};
use mc_cli::{CampaignArgs, Plan, Until};
use mc_command::run_campaign_at;
use mc_settings::Meeting;
use std::alloc::Global;
use std::io::Eprint;
use std::net::{Net, TcpListener, TcpStream};
use std::rt::Clock;
use std::sync::Wait;
use std::thread::Threads;

/// The jobs of a campaign whose line names only the server.
const DEFAULT: Plan = Plan {
    seed: 1,
    random_seed: false,
    first: 0,
    jobs: 100,
    workers: 4,
    limit: 1_000_000,
    brief: false,
    json: false,
    junit: false,
    show: false,
    why: false,
    tries: 1,
    until: None,
};

// No job begins once the time is over, but the first.
#[test]
fn campaign_in_no_time_has_one_job(rt: HostRuntime) {
    let until = Until {
        time: Some(0),
        unexplained: None,
    };
    assert_eq!(rt;
        answer(&rt, rt.alloc(), 100, Some(until)).as_slice(),
        b"0 no connection P\njobs 1 explained 0 unexplained 0 other 1\n".as_slice()
    );
}

// It gives up, and no job begins after that one.
#[test]
fn campaign_for_an_hour_ends_after_64_connects(rt: HostRuntime) {
    let until = Until {
        time: Some(3_600_000),
        unexplained: None,
    };
    let plan = Plan {
        workers: 1,
        until: Some(until),
        ..DEFAULT
    };
    let answer = answer_of(&rt, rt.alloc(), plan);
    let end = b"63 no connection P\njobs 64 explained 0 unexplained 0 other 64\n";
    assert!(rt; answer.as_slice().ends_with(end.as_slice()));
}

// More jobs than a line may name.
#[test]
fn campaign_has_ten_thousand_jobs_at_most(rt: HostRuntime) {
    assert_eq!(rt;
        answer(&rt, rt.alloc(), 10_001, None).as_slice(),
        b"not run\n".as_slice()
    );
}

// What is written of a campaign with this number of jobs at port 0, to which nothing connects; or nothing where the status isn't 4.
fn answer<R>(rt: &R, alloc: Global, jobs: u64, until: Option<Until>) -> Vec<u8>
where
    R: Net<Listener = TcpListener, Stream = TcpStream> + Threads + Wait + Clock + Sync + Eprint,
{
    let plan = Plan {
        jobs,
        workers: 2,
        until,
        ..DEFAULT
    };
    answer_of(rt, alloc, plan)
}

fn answer_of<R>(rt: &R, alloc: Global, plan: Plan) -> Vec<u8>
where
    R: Net<Listener = TcpListener, Stream = TcpStream> + Threads + Wait + Clock + Sync + Eprint,
{
    let target = CampaignArgs {
        server: "127.0.0.1:0",
        a: None,
        b: None,
        plan,
        meeting: Meeting::Drawn,
        name: None,
        timeout: None,
        wait: None,
        reconnect: false,
        quiet: false,
        stats: false,
        spread: 0,
    };
    let mut output = Vec::new(alloc);
    match run_campaign_at(rt, alloc, &target, None, &mut Writer::new(&mut output)) {
        Status::NoAnswer => output,
        _ => Vec::new(alloc),
    }
}
