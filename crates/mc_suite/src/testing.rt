//! The command `test`.

use crate::beside::{Beside, tell_news};
use crate::book::{Book, State};
use crate::clocked::{ClockedNetwork, Slowest};
use crate::desk::serve_desk;
use crate::finding::keep_reports;
use crate::folder::{DiskFolder, Folder};
use crate::generated::Generated;
use crate::player::Player;
use crate::report::Report;
use crate::rounds::play_first_rounds;
use crate::second::{Orders, Second, start_second};
use crate::selection::Selection;
use crate::tally::Tally;
use crate::target::target_of;
use crate::turns::{Turn, add_turns, take_turns};
use crate::verbs::{Unsupported, ask_verbs};
use crate::version::version_of;
use mc_answers::{InputFault, Sink};
use mc_cli::{RunArgs, TestArgs};
use mc_command::{seed_by, servers_of};
use mc_connect::{Network, TcpNetwork, Unconnected, Unreached};
use mc_protocol::Actor;
use mc_stress::Network as Clients;
use std::alloc::{AllocError, Global};
use std::io::Eprint;
use std::net::{Net, TcpListener, TcpStream};
use std::rt::{Clock, Files};
use std::sync::Wait;
use std::thread::{self, Scope, Threads};
use std::time::{Duration, Instant};

// How long a test takes, if the line doesn't say, in milliseconds.
const TIME: u64 = 30_000;

/// Tests the server that the line names, tells what is found as it comes, and answers the exit status: 0 if nothing was found; 1 if a race
/// or a wrong answer was; 4 if it couldn't be tested, a search was left undecided, or what is told couldn't be written, and nothing else
/// was found; 5 if the server failed meanwhile and nothing else was found. `version` is that of the program. A line of `columns` columns
/// on standard error shows how far the test is, if there are any. With `--out` a folder has the evidence and the reports, also if the
/// server can't be reached.
pub fn test_server<R, O: Sink>(
    rt: &R,
    alloc: Global,
    version: &'static str,
    args: &TestArgs<'_>,
    columns: Option<usize>,
    output: &mut O,
) -> u8
where
    R: Net<Listener = TcpListener, Stream = TcpStream>
        + Threads
        + Wait
        + Clock
        + Sync
        + Eprint
        + Files,
{
    let slowest = Slowest::new();
    let beside = Beside::new(alloc);
    thread::scope(thread::scope_env(), rt, |scope| {
        let second = Second {
            rt,
            args,
            slowest: &slowest,
            beside: &beside,
        };
        test_in(alloc, version, columns, output, &second, scope)
    })
}

// The same, if a second thread is of this scope.
fn test_in<'s, E, R, O: Sink>(
    alloc: Global,
    version: &'static str,
    columns: Option<usize>,
    output: &mut O,
    second: &Second<'s, R>,
    scope: &Scope<'s, E>,
) -> u8
where
    R: Net<Listener = TcpListener, Stream = TcpStream>
        + Threads
        + Wait
        + Clock
        + Sync
        + Eprint
        + Files,
{
    let (rt, args) = (second.rt, second.args);
    let mut target = target_of(args);
    let mut book = book_of(rt, alloc, version, args);
    let reached = reach(rt, alloc, &target, &mut book);
    // From now on a server that can't be reached has failed.
    target.wait = None;
    let folder = DiskFolder::new(rt, alloc, args.out);
    let mut report = Report::new(alloc, output, args.run.json, folder, book);
    match reached {
        Ok(true) => {
            let network = TcpNetwork::new(rt, servers_of(&target));
            let mut network = ClockedNetwork::new(rt, network, second.slowest);
            run_test(
                alloc,
                target,
                &mut network,
                columns,
                &mut report,
                second,
                scope,
            )
        }
        Ok(false) => end_untested(&mut report, Ok(())),
        Err(error) => end_untested(&mut report, Err(error)),
    }
}

// Connects to the servers for as long as the line says, and asks for the version. Notes the version, or why a server can't be reached.
fn reach<R>(
    rt: &R,
    alloc: Global,
    target: &RunArgs<'_>,
    book: &mut Book<'_>,
) -> Result<bool, AllocError>
where
    R: Net<Stream = TcpStream> + Clock + Sync + Eprint,
{
    let mut network = TcpNetwork::new(rt, servers_of(target));
    match connect(rt, alloc, &mut network, target.wait.is_some()) {
        Ok(version) => {
            book.version = version?;
            Ok(true)
        }
        Err(unconnected) => {
            book.fault = Some(tell_unreached(rt, alloc, target, unconnected)?);
            Ok(false)
        }
    }
}

// Asks for the version, and connects to the servers of A and B too if they may have to be waited for.
fn connect<R: Clock, N: Network>(
    rt: &R,
    alloc: Global,
    network: &mut N,
    waits: bool,
) -> Result<Result<Option<String>, AllocError>, Unconnected> {
    let version = version_of(rt, alloc, network)?;
    if waits {
        let _a = network.connect(Actor::A)?;
        let _b = network.connect(Actor::B)?;
    }
    Ok(version)
}

// Says that a server can't be reached, and answers what it said.
fn tell_unreached<R: Eprint>(
    rt: &R,
    alloc: Global,
    target: &RunArgs<'_>,
    unconnected: Unconnected,
) -> Result<String, AllocError> {
    let unreached = Unreached {
        server: target.server_of(unconnected.section),
        error: unconnected.error,
    };
    // There is nowhere else to say that this could not be said.
    let _ = eprintln!(rt; "mcrace: {unreached}");
    format!(in alloc; "{unreached}")
}

fn book_of<'a, R: Clock>(
    rt: &R,
    alloc: Global,
    program: &'static str,
    args: &TestArgs<'a>,
) -> Book<'a> {
    Book {
        program,
        server: args.run.server,
        version: None,
        fault: None,
        seed: args.seed.unwrap_or(seed_by(rt)),
        time: time_of(args),
        selection: Selection {
            only: args.only,
            skip: args.skip,
        },
        told: Vec::new(alloc),
        asked: 0,
        unsupported: Unsupported::new(alloc),
        has_failed: false,
    }
}

// How long it takes.
fn time_of(args: &TestArgs<'_>) -> Duration {
    let time = match args.run.repeat {
        Some(repeat) => repeat.time,
        None => None,
    };
    Duration::from_millis(time.unwrap_or(TIME))
}

// Ends a test in which nothing was played.
fn end_untested<O: Sink, F: Folder>(
    report: &mut Report<'_, O, F>,
    reached: Result<(), AllocError>,
) -> u8 {
    let state = State {
        tally: Tally::new(),
        turns: &[],
        generated: generated_of(&report.book),
        has_ended: true,
    };
    let ended = match reached {
        Ok(()) => report.finish(&state, ""),
        Err(AllocError) => Err(InputFault::OutOfMemory),
    };
    report.end(&state, ended)
}

// No generated script was played. They are, if no races are named.
fn generated_of(book: &Book<'_>) -> Generated {
    Generated::new(book.seed, book.selection.only.is_none())
}

// Tests a server that can be reached, over these connections and a desk.
fn run_test<'s, E, R, N: Network + Clients, O: Sink, F: Folder>(
    alloc: Global,
    target: RunArgs<'_>,
    network: &mut N,
    columns: Option<usize>,
    report: &mut Report<'_, O, F>,
    second: &Second<'s, R>,
    scope: &Scope<'s, E>,
) -> u8
where
    R: Net<Listener = TcpListener, Stream = TcpStream> + Threads + Wait + Clock + Sync + Eprint,
    <N as Network>::Connection: 's,
{
    let (rt, slowest) = (second.rt, second.slowest);
    let Ok(begun) = Instant::now(rt) else {
        return end_untested(report, Ok(()));
    };
    let desk = match serve_desk(rt, alloc, scope) {
        Ok(desk) => desk,
        Err(error) => return end_untested(report, Err(error)),
    };
    let time = report.book.time;
    let mut player = Player::new(
        rt, alloc, target, network, desk, slowest, begun, time, columns,
    );
    let status = play_all(&mut player, report, second, scope);
    player.quit();
    status
}

// Plays all, tells what was found, and answers the exit status.
fn play_all<'s, E, R, N: Network + Clients, O: Sink, F: Folder>(
    player: &mut Player<'_, R, N>,
    report: &mut Report<'_, O, F>,
    second: &Second<'s, R>,
    scope: &Scope<'s, E>,
) -> u8
where
    R: Net<Listener = TcpListener, Stream = TcpStream> + Threads + Wait + Clock + Sync + Eprint,
{
    let mut generated = generated_of(&report.book);
    let mut turns = Vec::new(player.alloc);
    let played = play_scripts(player, report, &mut turns, &mut generated, second, scope);
    player.give_way();
    let state = State {
        tally: player.tally(),
        turns: turns.as_slice(),
        generated,
        has_ended: true,
    };
    let ended = match played {
        Ok(()) => finish(player, report, &state),
        Err(fault) => Err(fault),
    };
    report.end(&state, ended)
}

// Asks each verb alone, and plays rounds and then the scripts in turns. The first reports are kept at once, for whoever stops the test.
fn play_scripts<'s, E, R, N: Network + Clients, O: Sink, F: Folder>(
    player: &mut Player<'_, R, N>,
    report: &mut Report<'_, O, F>,
    turns: &mut Vec<Turn>,
    generated: &mut Generated,
    second: &Second<'s, R>,
    scope: &Scope<'s, E>,
) -> Result<(), InputFault>
where
    R: Net<Listener = TcpListener, Stream = TcpStream> + Threads + Wait + Clock + Sync + Eprint,
{
    report.say_begin()?;
    keep_reports(player, report, &[], generated)?;
    ask_verbs(player, report, generated)?;
    if player.is_strange() {
        return Ok(());
    }
    let book = &report.book;
    add_turns(player.alloc, book.selection, &book.unsupported, turns)?;
    if !generated.is_wanted {
        return take_turns(player, report, turns, generated, None);
    }
    play_first_rounds(player, report, generated, turns)?;
    play_both(player, report, turns, generated, second, scope)
}

// Plays the turns, while a second thread plays generated scripts; or both in turns if there is no such thread.
fn play_both<'s, E, R, N: Network + Clients, O: Sink, F: Folder>(
    player: &mut Player<'_, R, N>,
    report: &mut Report<'_, O, F>,
    turns: &mut Vec<Turn>,
    generated: &mut Generated,
    second: &Second<'s, R>,
    scope: &Scope<'s, E>,
) -> Result<(), InputFault>
where
    R: Net<Listener = TcpListener, Stream = TcpStream> + Threads + Wait + Clock + Sync + Eprint,
{
    let orders = Orders {
        unsupported: report.book.unsupported.copy(player.alloc)?,
        generated: *generated,
        begun: player.begun,
        time: player.time,
    };
    let Some(started) = start_second(player.alloc, second, orders, scope) else {
        return take_turns(player, report, turns, generated, None);
    };
    let played = take_turns(player, report, turns, generated, Some(second.beside));
    second.beside.close(player.rt);
    started.join(player.rt);
    played?;
    tell_news(player, report, generated, turns, second.beside)
}

fn finish<R: Threads + Wait + Clock + Sync + Eprint, N: Network, O: Sink, F: Folder>(
    player: &Player<'_, R, N>,
    report: &mut Report<'_, O, F>,
    state: &State<'_>,
) -> Result<(), InputFault> {
    let failures = player.failures()?;
    report.finish(state, failures.as_str())
}
