//! What `test` is asked: its races, their scripts, or a test of a server.

use mc_answers::{InputFault, Sink, Status, explain_fault, write_fault, write_text};
use mc_cli::{LineFault, TestArgs, VERSION, unknown_race_text};
use mc_suite::{LONGEST_NAME, list_text, scripts_text, test_server, unknown_race};
use std::alloc::{AllocError, Global};
use std::io::Eprint;
use std::net::{Net, TcpListener, TcpStream};
use std::rt::{Clock, Files};
use std::sync::Wait;
use std::thread::Threads;

// What follows the message of a fault of the line.
const USAGE: &str = "

Usage: mcrace test HOST:PORT [OPTIONS]
       mcrace test --list
       mcrace test --print RACE

For more information, try '--help'.
";

/// Writes the races that `test` looks for, or the scripts of one, if the line asks for these; and answers the exit status.
pub fn answer_of_races<O: Sink, F: Sink>(
    alloc: Global,
    line: &[String],
    output: &mut O,
    faults: &mut F,
) -> Option<u8> {
    let text = match line {
        [_, command, list] if command.as_str() == "test" && list.as_str() == "--list" => list_text(
            alloc,
        ),
        [_, command, print, name] if command.as_str() == "test" && print.as_str() == "--print" => {
            match scripts_text(alloc, name.as_str()) {
                Ok(Some(text)) => Ok(text),
                Ok(None) => return Some(refuse_race(alloc, name.as_str(), output, faults)),
                Err(error) => Err(error),
            }
        }
        _ => return None,
    };
    Some(match text {
        Ok(text) => write_text(text.as_bytes(), Status::Success, output).number(),
        Err(_) => write_fault(InputFault::OutOfMemory, output).number(),
    })
}

// Says that there is no race of this name.
fn refuse_race<O: Sink, F: Sink>(alloc: Global, name: &str, output: &mut O, faults: &mut F) -> u8 {
    refuse(unknown_race_text(alloc, name), output, faults)
}

fn refuse<O: Sink, F: Sink>(
    text: Result<String, AllocError>,
    output: &mut O,
    faults: &mut F,
) -> u8 {
    let fault = match text {
        Ok(text) => LineFault::Wrong(text),
        Err(_) => LineFault::OutOfMemory,
    };
    explain_fault(&fault, output, faults).number()
}

// What is said of a name that leaves no room for the test's own in a key.
fn long_name_text(alloc: Global) -> Result<String, AllocError> {
    format!(in alloc;
        "error: the name of a test has at most {LONGEST_NAME} bytes: a name of its own stands before it in each key{USAGE}"
    )
}

/// Tests the server, if all races that the line names are known, and its name is short enough. How far it is stands in a line of `columns`
/// columns.
pub fn test_races<R, O: Sink, F: Sink>(
    rt: &R,
    args: &TestArgs<'_>,
    columns: Option<usize>,
    output: &mut O,
    faults: &mut F,
) -> u8
where
    R: Net<Listener = TcpListener, Stream = TcpStream>
        + Threads
        + Wait
        + Clock
        + Sync
        + Eprint
        + Files
        + AllocGlobal,
{
    let alloc = rt.alloc();
    if let Some(names) = args.only
        && let Some(name) = unknown_race(names)
    {
        return refuse_race(alloc, name, output, faults);
    }
    if let Some(names) = args.skip
        && let Some(name) = unknown_race(names)
    {
        return refuse_race(alloc, name, output, faults);
    }
    if let Some(name) = &args.run.name
        && name.as_slice().len() > LONGEST_NAME
    {
        return refuse(long_name_text(alloc), output, faults);
    }
    let columns = if args.run.quiet { None } else { columns };
    test_server(rt, alloc, VERSION, args, columns, output)
}
