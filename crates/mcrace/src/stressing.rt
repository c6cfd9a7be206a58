//! What `stress` is asked: rounds of many clients at a server.

use crate::forms::{Form, write_in};
use crate::round_statistics::RoundStatistics;
use mc_answers::{InputFault, Sink, Status, Writer, explain_fault, write_fault};
use mc_cli::{LineFault, Seconds, StressArgs};
use mc_command::{Progress, failure_text};
use mc_connect::{Servers, TcpNetwork, Unreached};
use mc_lane::{Lane, Stream};
use mc_model::{Note, Sent};
use mc_protocol::{Actor, Bytes, KEY_BYTES_LIMIT, is_key};
use mc_rounds::{Plan, keys_of};
use mc_stress::{Evidence, Judging, Network, Page, Standing, Stress, play_rounds};
use std::alloc::{AllocError, Global};
use std::io;
use std::io::Eprint;
use std::net::{Net, TcpStream};
use std::rt::Clock;
use std::sync::Wait;
use std::thread::Threads;
use std::time::{Duration, Instant};

// How many rounds are played if the line names neither a number nor a time.
const ROUNDS: u64 = 100;

// At most this many remarks on rounds are written to standard error.
const MOST_REMARKS: u32 = 10;

// Waiting for less than this many milliseconds isn't told.
const LEAST_WAIT: u64 = 100;

// What follows the message of a fault of the line.
const USAGE: &str = "

Usage: mcrace stress HOST:PORT [OPTIONS]

For more information, try '--help'.
";

// What clears a line of a terminal, and goes back to its begin.
const CLEAR: &str = "\r\x1b[K";

// How the rounds are played, beside what the clients send.
#[derive(Clone, Copy, Drop)]
struct Circumstances<'a> {
    server: &'a str,
    timeout: Option<Seconds<'a>>,
    wait: Option<Seconds<'a>>,
    // How many columns a line of progress has, if there is one.
    columns: Option<usize>,
    stats: bool,
}

// What connects the clients: the first looks for the server, and the others connect to the address that took it.
#[derive(Drop)]
struct Clients<'a, R> {
    network: TcpNetwork<'a, R>,
}

impl<'a, R: Net<Stream = TcpStream> + Clock + Sync> Network for Clients<'a, R> {
    type Connection = <TcpNetwork<'a, R> as mc_connect::Network>::Connection;

    fn connect(
        &mut self,
        client: u8,
    ) -> io::Result<<TcpNetwork<'a, R> as mc_connect::Network>::Connection> {
        let section = if client == 0 { Actor::P } else { Actor::A };
        mc_connect::Network::connect(&mut self.network, section).map_err(|none| none.error)
    }
}

// Writes the answer to the output, and what is told beside it to standard error.
#[derive(Drop)]
struct Paper<'a, 'b, 'c, R, O> {
    rt: &'a R,
    alloc: Global,
    server: &'b str,
    timeout: Option<Seconds<'b>>,
    output: &'c mut O,
    progress: Option<Progress<'a, R>>,
    // How many clients a round has, and what was counted of all rounds, if that is wanted.
    clients: u8,
    statistics: Option<RoundStatistics>,
    // What goes before a line of standard error, so that it doesn't stand beside a line of progress.
    lead: &'static str,
    counted: u64,
    unexplained: u64,
    remarks: u32,
}

impl<R: Eprint + Clock, O: Sink> Page for Paper<'_, '_, '_, R, O> {
    fn put(&mut self, text: &[u8]) -> bool {
        if let Some(progress) = &self.progress {
            progress.clear();
        }
        self.output.write_all(text).is_ok()
    }

    fn count(&mut self, rounds: u64, unexplained: u64) {
        let Some(progress) = &mut self.progress else {
            return;
        };
        for _ in self.counted..rounds {
            let is_unexplained = self.unexplained < unexplained;
            self.unexplained = self.unexplained.saturating_add(u64::from(is_unexplained));
            progress.add(is_unexplained);
        }
        self.counted = rounds;
    }

    fn tell_played(&mut self, _round: u64, notes: &[(u8, Note)]) {
        if let Some(statistics) = &mut self.statistics {
            // Without memory for it, a request isn't counted.
            let _ = statistics.add(self.alloc, self.clients, notes);
        }
    }

    // What is written shows it.
    fn tell_unexplained(&mut self, _round: u64, _evidence: Evidence) {}

    fn tell_unreached(&mut self, error: &io::Error) {
        if self.remarks >= MOST_REMARKS {
            return;
        }
        self.remarks += 1;
        let unreached = Unreached {
            server: self.server,
            error: *error,
        };
        let lead = self.lead;
        // There is nowhere else to say that this could not be said.
        let _ = eprintln!(self.rt; "{lead}mcrace: {unreached}");
    }

    fn tell_client<S: Stream>(
        &mut self,
        round: u64,
        client: u8,
        sent: &[Sent],
        lane: &Lane<S>,
        error: Option<io::Error>,
    ) {
        if self.remarks >= MOST_REMARKS {
            return;
        }
        // Without memory for it, it isn't told.
        if let Ok(Some(said)) = failure_text(self.alloc, sent, lane, error, self.timeout) {
            self.remarks += 1;
            let lead = self.lead;
            // There is nowhere else to say that this could not be said.
            let _ = eprintln!(self.rt; "{lead}mcrace: round {round}: client {client}: {said}");
        }
    }

    fn tell_stop(&mut self, round: u64) {
        let lead = self.lead;
        // There is nowhere else to say that this could not be said.
        let _ = eprintln!(self.rt;
            "{lead}mcrace: no round follows round {round}: the server may still act on a request of it, and no new name fits its keys"
        );
    }

    fn tell_wait(&mut self, time: Duration) {
        let milliseconds = time.as_millis();
        if milliseconds >= u128::from(LEAST_WAIT) {
            let lead = self.lead;
            // There is nowhere else to say that this could not be said.
            let _ = eprintln!(self.rt;
                "{lead}mcrace: clients waited {milliseconds} ms for rounds to be judged"
            );
        }
    }
}

impl<R: Eprint + Clock, O: Sink> Paper<'_, '_, '_, R, O> {
    // Says what was counted of the rounds since then, if that is wanted.
    fn tell_statistics(&mut self, begun: &io::Result<Instant>) {
        let Some(statistics) = &mut self.statistics else {
            return;
        };
        if let Ok(begun) = begun {
            statistics.end(begun.elapsed(self.rt).unwrap_or(Duration::ZERO));
        }
        let lead = self.lead;
        // There is nowhere else to say that this could not be said.
        let _ = eprint!(self.rt; "{lead}{statistics}");
    }
}

/// Plays rounds of many clients at the server, and answers the exit status. How far it is stands in a line of `columns` columns.
pub fn stress_server<R, O: Sink, F: Sink>(
    rt: &R,
    args: StressArgs<'_>,
    columns: Option<usize>,
    output: &mut O,
    faults: &mut F,
) -> u8
where
    R: Net<Stream = TcpStream> + Threads + Wait + Clock + Sync + Eprint + AllocGlobal,
{
    match stress_with(rt, rt.alloc(), args, columns, output, faults) {
        Ok(status) => status,
        Err(AllocError) => write_fault(InputFault::OutOfMemory, output).number(),
    }
}

fn stress_with<R, O: Sink, F: Sink>(
    rt: &R,
    alloc: Global,
    args: StressArgs<'_>,
    columns: Option<usize>,
    output: &mut O,
    faults: &mut F,
) -> Result<u8, AllocError>
where
    R: Net<Stream = TcpStream> + Threads + Wait + Clock + Sync + Eprint,
{
    let circumstances = Circumstances {
        server: args.server,
        timeout: args.timeout,
        wait: args.wait,
        columns: if args.quiet { None } else { columns },
        stats: args.stats,
    };
    let json = args.json;
    let stress = stress_of(args);
    if let Some(key) = long_key(alloc, &stress)? {
        return Ok(refuse_name(alloc, &stress, &key, output, faults)?.number());
    }
    if json {
        return play_in_json(rt, alloc, &stress, circumstances, output);
    }
    Ok(play(rt, alloc, &stress, circumstances, output)?.number())
}

// Plays the rounds, and writes in JSON what they come to.
fn play_in_json<R, O: Sink>(
    rt: &R,
    alloc: Global,
    stress: &Stress<'_>,
    circumstances: Circumstances<'_>,
    output: &mut O,
) -> Result<u8, AllocError>
where
    R: Net<Stream = TcpStream> + Threads + Wait + Clock + Sync + Eprint,
{
    let mut text = Vec::new(alloc);
    let mut sink = Writer::new(&mut text);
    let status = play(rt, alloc, stress, circumstances, &mut sink)?.number();
    let is_whole = sink.error().is_none();
    let text = is_whole.then_some(text.as_slice());
    Ok(write_in(alloc, Form::Run, text, status, output))
}

// Plays the rounds.
fn play<R, O: Sink>(
    rt: &R,
    alloc: Global,
    stress: &Stress<'_>,
    circumstances: Circumstances<'_>,
    output: &mut O,
) -> Result<Status, AllocError>
where
    R: Net<Stream = TcpStream> + Threads + Wait + Clock + Sync + Eprint,
{
    let Circumstances {
        server,
        timeout,
        wait,
        columns,
        stats,
    } = circumstances;
    let mut clients = Clients {
        network: TcpNetwork::new(
            rt,
            Servers::one(server, duration_of(timeout), duration_of(wait)),
        ),
    };
    let mut paper = Paper {
        rt,
        alloc,
        server,
        timeout,
        output,
        progress: columns.map(|columns| Progress::new(rt, alloc, columns, "rounds", stress.rounds)),
        clients: stress.plan.clients,
        statistics: stats.then_some(RoundStatistics::new()),
        lead: if columns.is_some() { CLEAR } else { "" },
        counted: 0,
        unexplained: 0,
        remarks: 0,
    };
    let begun = Instant::now(rt);
    let standing = play_rounds(rt, alloc, stress, &mut clients, &mut paper)?;
    paper.tell_statistics(&begun);
    Ok(match standing {
        Standing::Good => Status::Success,
        Standing::BadReply | Standing::Unexplained => Status::Unexplained,
        Standing::Undecided | Standing::NoAnswer => Status::NoAnswer,
    })
}

// The rounds that the line asks for.
fn stress_of<'a>(args: StressArgs<'a>) -> Stress<'a> {
    let StressArgs {
        plan,
        rounds,
        time,
        keep_going,
        whole,
        smallest,
        limit,
        why,
        name,
        ..
    } = args;
    Stress {
        plan: Plan {
            seed: plan.seed,
            clients: u8::try_from(plan.clients).unwrap_or(u8::MAX),
            requests: u16::try_from(plan.requests).unwrap_or(u16::MAX),
            keys: u8::try_from(plan.keys).unwrap_or(u8::MAX),
            mix: plan.mix,
        },
        name,
        rounds: match (rounds, time) {
            (None, None) => Some(ROUNDS),
            (rounds, _) => rounds,
        },
        time: time.map(Duration::from_millis),
        keep_going,
        judging: Judging {
            limit,
            why,
            whole,
            smallest,
        },
    }
}

// The first key that is too long under the name, if there is one.
fn long_key(alloc: Global, stress: &Stress<'_>) -> Result<Option<Bytes>, AllocError> {
    for key in keys_of(alloc, stress.plan.keys, stress.name.as_ref())? {
        if !is_key(key.as_slice()) {
            return Ok(Some(key));
        }
    }
    Ok(None)
}

// Says that a key is too long under the name.
fn refuse_name<O: Sink, F: Sink>(
    alloc: Global,
    stress: &Stress<'_>,
    key: &Bytes,
    output: &mut O,
    faults: &mut F,
) -> Result<Status, AllocError> {
    let name = match &stress.name {
        Some(name) => name.as_slice(),
        None => &[],
    };
    let length = key.as_slice().len();
    let short = key.as_slice().get(name.len() + 1..).unwrap_or(&[]);
    let (name, short) = (name.escape_ascii(), short.escape_ascii());
    let most = KEY_BYTES_LIMIT;
    let text = format!(in alloc;
        "error: invalid value '{name}' for '--name <NAME>': the key '{short}' has {length} bytes with it, and may have {most}{USAGE}"
    )?;
    Ok(explain_fault(&LineFault::Wrong(text), output, faults))
}

fn duration_of(time: Option<Seconds<'_>>) -> Option<Duration> {
    time.map(|time| time.duration())
}
