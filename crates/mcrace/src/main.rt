//! Tests servers that speak memcached's text protocol.
#![tactic(auto)]

mod forms;
mod recording;
mod round_statistics;
mod sources;
mod stressing;
mod suite;

ghost use Rattle.std.specs.Prelude.{◌≡◌, false, true};
ghost use Rattle.mc_answers.specs.{Answers.AnswersQuestion, Answers.AnswersRightly, Statuses.status_number, Writing.WritesRightly};
ghost use Rattle.mc_command.specs.{Command.WritesReport, RepeatAnswers.Runs, SelftestAnswers.Selftests, ServeAnswers.Serves};

use crate::forms::{Form, write_in};
use crate::recording::record_server;
use crate::sources::SOURCES;
use crate::stressing::stress_server;
use crate::suite::{answer_of_races, test_races};
use mc_answers::{
    Reader, Sink, Source, Status, Writer, answer_question, explain_fault, unread_line,
    write_generated, write_text,
};
use mc_cli::{CampaignArgs, Question, Request, RunArgs, ServeArgs, read_request};
use mc_command::{
    RunTeller, Told, run_campaign_at, run_selftest, run_target, seed_by, serve_connections,
    servers_of,
};
use mc_connect::{
    HeldDescriptors, STANDARD_INPUT, STANDARD_OUTPUT, TcpNetwork, Unreached, has_port,
};
use std::alloc::Global;
use std::io::{Eprint, ErrorKind, IsTerminal};
use std::net::{Net, TcpListener, TcpStream};
use std::process::ExitCode;
use std::rt::{Clock, Env, Files};
use std::sync::Wait;
use std::thread::Threads;
use std::{env, io};

// The columns of a terminal of which nothing else is known.
const COLUMNS: usize = 80;

// What is known of the terminal that the program runs at.
#[derive(Clone, Copy)]
struct Terminal {
    // Whether standard input is typed there.
    is_input: bool,
    // How many columns it has, if standard error is shown there and a line can be cleared.
    columns: Option<usize>,
}

fn main(rt: HostRuntime) -> ExitCode {
    // Before anything else is opened, and until the end.
    let held = HeldDescriptors::new(&rt);
    let stdin = rt.reader();
    let stderr = rt.stderr();
    let terminal = Terminal {
        is_input: stdin.is_terminal(),
        columns: if stderr.is_terminal() {
            columns_of(&rt)
        } else {
            None
        },
    };
    let mut input = Reader::new(stdin);
    let mut output = Writer::new(rt.stdout());
    let mut faults = Writer::new(stderr);
    let status = match line_of(&rt) {
        Ok(line) => answer(
            &rt,
            line.as_slice(),
            terminal,
            &mut input,
            &mut output,
            &mut faults,
        ),
        Err(error) => unread_line(&error, &mut output, &mut faults).number(),
    };
    tell_failure(
        &rt,
        "standard input",
        held.reason(STANDARD_INPUT, input.error()),
    );
    tell_failure(
        &rt,
        "standard output",
        held.reason(STANDARD_OUTPUT, output.error()),
    );
    ExitCode::from(status)
}

// Answers the line: does what it asks for, or says what the program is.
fn answer<R, I: Source, O: Sink, F: Sink>(
    rt: &R,
    line: &[String],
    terminal: Terminal,
    input: &mut I,
    output: &mut O,
    faults: &mut F,
) -> u8
where
    R: Net<Listener = TcpListener, Stream = TcpStream>
        + Threads
        + Wait
        + Clock
        + Sync
        + Eprint
        + Files
        + AllocGlobal,
{
    if asks_alone(line, &["--built-from"]) {
        return write_text(SOURCES, Status::Success, output).number();
    }
    if let Some(status) = answer_of_races(rt.alloc(), line, output, faults) {
        return status;
    }
    match read_request(rt.alloc(), line) {
        Ok(request) => perform(rt, request, terminal, input, output, faults),
        Err(fault) => match explain_fault(&fault, output, faults) {
            Status::Success if asks_alone(line, &["--version", "-V"]) => {
                write_text(SOURCES, Status::Success, output).number()
            }
            other => other.number(),
        },
    }
}

// Whether the line is the program's name and one of these words.
fn asks_alone(line: &[String], words: &[&str]) -> bool {
    match line {
        [_, word] => words.iter().any(|it| *it == word.as_str()),
        _ => false,
    }
}

// Does what is asked for, and answers the exit status.
fn perform<R, I: Source, O: Sink, F: Sink>(
    rt: &R,
    request: Request<'_>,
    terminal: Terminal,
    input: &mut I,
    output: &mut O,
    faults: &mut F,
) -> u8
where
    R: Net<Listener = TcpListener, Stream = TcpStream>
        + Threads
        + Wait
        + Clock
        + Sync
        + Eprint
        + Files
        + AllocGlobal,
{
    let alloc = rt.alloc();
    let columns = terminal.columns;
    match request {
        Request::Question(question) => {
            tell_reading(rt, terminal, question.input_name());
            if matches!(question, Question::Join) {
                return join(rt, alloc, input, output);
            }
            ask(alloc, question, input, output)
        }
        Request::Generate(seed, job) => write_generated(alloc, seed, job, output).number(),
        Request::Run(target) => {
            tell_portless(rt, terminal, &target);
            tell_reading(rt, terminal, "a script");
            if target.json {
                return play_in_json(rt, alloc, &target, columns, input, output);
            }
            play(rt, alloc, &target, columns, input, output)
        }
        Request::Serve(service) => host(rt, alloc, service, output),
        Request::Record(args) => record_server(rt, &args, output, faults),
        Request::Stress(args) => stress_server(rt, args, columns, output, faults),
        Request::Campaign(target) => campaign(rt, alloc, target, columns, output),
        Request::Selftest => test(rt, alloc, output),
        Request::Test(args) => test_races(rt, &args, columns, output, faults),
    }
}

// Answers the question about the input.
fn ask<I: Source, O: Sink>(alloc: Global, question: Question, input: &mut I, output: &mut O) -> u8
    ensures { (ended : Status) × (result ≡ status_number ended)
        × AnswersQuestion I.left I.has_failed O.written O.has_failed question.entry
        input.old input.new output.old output.new ended }
{
    answer_question(alloc, question, input, output).number()
}

// Joins the reports on the input. Text doesn't say which seed it is of, and standard error says so.
fn join<R, I: Source, O: Sink>(rt: &R, alloc: Global, input: &mut I, output: &mut O) -> u8
where
    R: Eprint,
{
    let mut text = Vec::new(alloc);
    let mut sink = Writer::new(&mut text);
    let status = ask(alloc, Question::Join, input, &mut sink);
    let is_whole = sink.error().is_none();
    if text.first().is_some_and(|byte| byte.is_ascii_digit()) {
        // There is nowhere else to say that this could not be said.
        let _ = eprintln!(rt; "mcrace: the reports are text, so their seed isn't known");
    }
    let text = is_whole.then_some(text.as_slice());
    write_in(alloc, Form::Same, text, status, output)
}

// How many columns the terminal has, by the environment, or 80; or nothing where it can't clear a line.
fn columns_of<R: Env + AllocGlobal>(rt: &R) -> Option<usize> {
    match env::var(rt, "TERM") {
        Ok(kind) if kind.as_str() == "dumb" => return None,
        _ => {}
    }
    match env::var(rt, "COLUMNS") {
        Ok(columns) => Some(columns.as_str().parse::<usize>().unwrap_or(COLUMNS)),
        Err(_) => Some(COLUMNS),
    }
}

// Says on standard error what is read, where a person is to type it.
fn tell_reading<R: Eprint>(rt: &R, terminal: Terminal, name: &str) {
    if terminal.is_input {
        // There is nowhere else to say that this could not be said.
        let _ = eprintln!(rt; "mcrace: reading {name} from the terminal; Ctrl-D ends it");
    }
}

// Says on standard error which servers have no port, before a person types a script in vain.
fn tell_portless<R: Eprint>(rt: &R, terminal: Terminal, target: &RunArgs<'_>) {
    if !terminal.is_input {
        return;
    }
    for server in [Some(target.server), target.a, target.b] {
        if let Some(server) = server
            && !has_port(server)
        {
            let error = io::Error::from(ErrorKind::InvalidInput);
            let unreached = Unreached { server, error };
            // There is nowhere else to say that this could not be said.
            let _ = eprintln!(rt; "mcrace: {unreached}");
        }
    }
}

// Says on standard error why a stream failed. Who closed the other end of a pipe knows it.
fn tell_failure<R: Eprint>(rt: &R, stream: &str, error: Option<&io::Error>) {
    if let Some(error) = error
        && error.kind() != ErrorKind::BrokenPipe
    {
        // There is nowhere else to say that this could not be said.
        let _ = eprintln!(rt; "mcrace: {stream}: {error}");
    }
}

// Runs the script on the input. What is remarked on its runs goes to standard error.
fn play<R, I: Source, O: Sink>(
    rt: &R,
    alloc: Global,
    target: &RunArgs<'_>,
    columns: Option<usize>,
    input: &mut I,
    output: &mut O,
) -> u8
where
    R: Net<Stream = TcpStream> + Threads + Wait + Clock + Sync + Eprint,
    ensures { (ended : Status) × (result ≡ status_number ended)
        × AnswersRightly I.left I.has_failed O.written O.has_failed
        (Runs target.now.repeat target.now.how.why target.now.name) input.old input.new output.old output.new ended }
{
    let mut teller = RunTeller::new(rt, alloc, target, columns);
    let mut network = TcpNetwork::new(rt, servers_of(target));
    let (status, remarks) = run_target(rt, alloc, target, &mut network, &mut teller, input, output);
    teller.tell(&remarks);
    if let Some(statistics) = &teller.statistics {
        // There is nowhere else to say that this could not be said.
        let _ = eprint!(rt; "{statistics}");
    }
    status.number()
}

// Runs the script on the input, and writes in JSON what that comes to.
fn play_in_json<R, I: Source, O: Sink>(
    rt: &R,
    alloc: Global,
    target: &RunArgs<'_>,
    columns: Option<usize>,
    input: &mut I,
    output: &mut O,
) -> u8
where
    R: Net<Stream = TcpStream> + Threads + Wait + Clock + Sync + Eprint,
{
    let mut text = Vec::new(alloc);
    let mut sink = Writer::new(&mut text);
    let status = play(rt, alloc, target, columns, input, &mut sink);
    let is_whole = sink.error().is_none();
    let text = is_whole.then_some(text.as_slice());
    write_in(alloc, Form::Run, text, status, output)
}

// Serves connections. Why there is no listener, or what came of the connections where some were refused, goes to standard error.
fn host<R, O: Sink>(rt: &R, alloc: Global, service: ServeArgs, output: &mut O) -> u8
where
    R: Net<Listener = TcpListener, Stream = TcpStream> + Threads + Wait + Clock + Sync + Eprint,
    ensures { (ended : Status) × (result ≡ status_number ended)
        × WritesRightly O.written O.has_failed (Serves service) output.old output.new ended }
{
    let (ended, told) = serve_connections(rt, alloc, service, output);
    // There is nowhere else to say that this could not be said.
    let _ = match told {
        Told::NoListener(error) => eprintln!(rt; "mcrace: 127.0.0.1:{}: {error}", service.port),
        Told::Connections(listened) if listened.refused > 0 => eprintln!(rt;
            "mcrace: accepted {} refused {}",
            listened.accepted, listened.refused
        ),
        Told::Connections(_) | Told::Nothing => Ok(()),
    };
    ended.number()
}

// Runs the jobs of a campaign, and reports them in the form that is asked for, by a seed that is drawn if that is asked for.
fn campaign<R, O: Sink>(
    rt: &R,
    alloc: Global,
    mut target: CampaignArgs<'_>,
    columns: Option<usize>,
    output: &mut O,
) -> u8
where
    R: Net<Listener = TcpListener, Stream = TcpStream> + Threads + Wait + Clock + Sync + Eprint,
{
    if target.plan.random_seed {
        target.plan.seed = seed_by(rt);
    }
    // A form has the histories of unexplained jobs.
    target.plan.show = target.plan.show || target.plan.json || target.plan.junit;
    let Some(form) = Form::of_campaign(&target) else {
        return report(rt, alloc, &target, columns, output);
    };
    let mut text = Vec::new(alloc);
    let mut sink = Writer::new(&mut text);
    let status = report(rt, alloc, &target, columns, &mut sink);
    let is_whole = sink.error().is_none();
    let text = is_whole.then_some(text.as_slice());
    write_in(alloc, form, text, status, output)
}

// Reports the jobs of a campaign as text.
fn report<R, O: Sink>(
    rt: &R,
    alloc: Global,
    target: &CampaignArgs<'_>,
    columns: Option<usize>,
    output: &mut O,
) -> u8
where
    R: Net<Listener = TcpListener, Stream = TcpStream> + Threads + Wait + Clock + Sync + Eprint,
    ensures answered { O.has_failed output.old ≡ false → O.has_failed output.new ≡ false
        → (ended : Status) × (result ≡ status_number ended)
        × WritesReport target.now.plan target.now.name (O.written output.old) (O.written output.new) ended }
    ensures broken { O.has_failed output.old ≡ false → O.has_failed output.new ≡ true → result ≡ 4 }
{
    run_campaign_at(rt, alloc, target, columns, output).number()
}

// Runs the selftest.
fn test<R, O: Sink>(rt: &R, alloc: Global, output: &mut O) -> u8
where
    R: Net<Listener = TcpListener, Stream = TcpStream> + Threads + Wait + Clock + Sync + Eprint,
    ensures { (ended : Status) × (result ≡ status_number ended)
        × WritesRightly O.written O.has_failed Selftests output.old output.new ended }
{
    run_selftest(rt, alloc, output)
}

// The words of the command line, the program's name first.
fn line_of<R: Env + AllocGlobal>(rt: &R) -> io::Result<Vec<String>> {
    Ok(env::args(rt)?.collect(rt.alloc())?)
}
