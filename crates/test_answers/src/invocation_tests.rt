//! What lines ask for, and what is answered if the input alone gives the answer.

use crate::driven::SCRIPT;
use mc_answers::{
    Reader, Status, Writer, answer_question, command, explain_fault, unread_line, write_generated,
};
use mc_cli::{
    CheckArgs, ConvertArgs, Notation, Question, Request, Search, ServeArgs, read_request,
};
use std::alloc::{AllocError, Global};
use std::io;
use std::io::ErrorKind;
use std::test::Fail;

const SEARCH: Search = Search {
    limit: 7,
    why: true,
};

const CHECKED: CheckArgs = CheckArgs {
    why: false,
    json: false,
};

const CONVERTED: ConvertArgs = ConvertArgs {
    to: Notation::Edn,
    job: Some(31),
};

const DRAWN: Drawn = Drawn {
    text: true,
    lines: false,
    limit: 7,
    job: Some(31),
};

const SERVICE: ServeArgs = ServeArgs {
    port: 0,
    connections: 1_000_000,
    racy: false,
};

/// How a line asks for a picture, without its key.
#[derive(Clone, Copy, Drop, PartialEq, Eq)]
struct Drawn {
    text: bool,
    lines: bool,
    limit: u64,
    job: Option<u64>,
}

/// What a line asks for, without its server, its form of an answer and its key.
#[derive(Clone, Copy, Drop, PartialEq, Eq)]
enum Asked {
    Judge(Search, Option<u64>),
    Check(CheckArgs),
    Asm(bool),
    Drive(Search),
    Draw(Drawn),
    Convert(ConvertArgs),
    Join,
    Run(Search),
    Generate(u64, u64),
    Serve(ServeArgs),
    /// The port, the number of connections and the time of a recording, and whether it is judged.
    Record(u16, Option<u64>, Option<u64>, bool),
    Selftest,
}

/// Lines, what they ask for, and what is read for a question.
static LINES: &[(&[&str], Option<Asked>, Option<&str>)] = &[
    (
        &["mcrace", "judge", "--limit", "7", "--why"],
        Some(Asked::Judge(SEARCH, Some(7))),
        Some("a history"),
    ),
    (
        &["mcrace", "check"],
        Some(Asked::Check(CHECKED)),
        Some("a script or an image"),
    ),
    (
        &["mcrace", "asm", "--why"],
        Some(Asked::Asm(true)),
        Some("a script"),
    ),
    (
        &["mcrace", "drive", "--why", "--limit", "7"],
        Some(Asked::Drive(SEARCH)),
        Some("a script"),
    ),
    (
        &["mcrace", "draw", "--text", "--job", "31", "--limit", "7"],
        Some(Asked::Draw(DRAWN)),
        Some("a history"),
    ),
    (
        &["mcrace", "convert", "--to", "edn", "--job", "31"],
        Some(Asked::Convert(CONVERTED)),
        Some("a history"),
    ),
    (
        &["mcrace", "join"],
        Some(Asked::Join),
        Some("reports of a campaign"),
    ),
    (
        &["mcrace", "run", "host:1", "--limit=7", "--why"],
        Some(Asked::Run(SEARCH)),
        None,
    ),
    (
        &["mcrace", "generate", "--seed", "2", "--job", "3"],
        Some(Asked::Generate(2, 3)),
        None,
    ),
    (&["mcrace", "serve", "0"], Some(Asked::Serve(SERVICE)), None),
    (
        &[
            "mcrace", "record", "11311", "host:1", "--for", "2s", "--judge",
        ],
        Some(Asked::Record(11_311, None, Some(2_000), true)),
        None,
    ),
    (&["mcrace", "record", "11311"], None, None),
    (&["mcrace", "selftest"], Some(Asked::Selftest), None),
    (&["mcrace", "run"], None, None),
    (&["mcrace", "run", "host:1", "--meet", "x"], None, None),
    (&["mcrace"], None, None),
    (&["mcrace", "--version"], None, None),
];

#[test]
fn lines_ask_for_what_they_say(rt: HostRuntime) -> Result<(), Fail> {
    for (words, wanted, input) in LINES {
        let line = line_of(rt.alloc(), words)?;
        let request = read_request(rt.alloc(), line.as_slice());
        let (asked, name) = match &request {
            Ok(request) => (asked_by(request), input_of(request)),
            Err(_) => (None, None),
        };
        assert!(rt; asked == *wanted);
        assert_eq!(rt; name, *input);
    }
    Ok(())
}

fn asked_by(request: &Request<'_>) -> Option<Asked> {
    match request {
        Request::Question(question) => Some(asked_of_input(question)),
        Request::Run(args) => Some(Asked::Run(args.how)),
        Request::Generate(seed, job) => Some(Asked::Generate(*seed, *job)),
        Request::Serve(service) => Some(Asked::Serve(*service)),
        Request::Record(args) => Some(Asked::Record(
            args.port,
            args.connections,
            args.time,
            args.judge,
        )),
        Request::Test(_) | Request::Campaign(_) | Request::Stress(_) => None,
        Request::Selftest => Some(Asked::Selftest),
    }
}

fn asked_of_input(question: &Question<'_>) -> Asked {
    match question {
        Question::Judge(args) => Asked::Judge(args.how, args.limit),
        Question::Check(args) => Asked::Check(*args),
        Question::Asm(why) => Asked::Asm(*why),
        Question::Drive(how) => Asked::Drive(*how),
        Question::Draw(args) => Asked::Draw(Drawn {
            text: args.text,
            lines: args.lines,
            limit: args.limit,
            job: args.job,
        }),
        Question::Convert(args) => Asked::Convert(*args),
        Question::Join => Asked::Join,
    }
}

// What is read for a question.
fn input_of(request: &Request<'_>) -> Option<&'static str> {
    match request {
        Request::Question(question) => Some(question.input_name()),
        _ => None,
    }
}

#[test]
fn questions_are_answered(rt: HostRuntime) {
    let alloc = rt.alloc();
    let mut output = Vec::new(alloc);
    let ended = answer_question(
        alloc,
        Question::Check(CHECKED),
        &mut Reader::new(SCRIPT.as_bytes()),
        &mut Writer::new(&mut output),
    );
    assert_eq!(rt; ended, Status::Success);
    assert_eq!(rt;
        output.as_slice(),
        b"accepted\nP 2 26\nA 1 10\nB 1 10\n".as_slice()
    );
}

#[test]
fn scripts_are_generated(rt: HostRuntime) {
    let mut output = Vec::new(rt.alloc());
    let ended = write_generated(rt.alloc(), 1, 0, &mut Writer::new(&mut output));
    assert_eq!(rt; ended, Status::Success);
    assert!(rt; output.starts_with(b"script 1\n"));
}

// Lines that need a network, which `command` hasn't.
static LINES_ELSEWHERE: [&[&str]; 5] = [
    &["mcrace", "run", "host:1"],
    &["mcrace", "serve", "0"],
    &["mcrace", "record", "0", "host:1"],
    &["mcrace", "campaign", "host:1"],
    &["mcrace", "selftest"],
];

#[test]
fn nothing_is_done_without_a_network(rt: HostRuntime) -> Result<(), Fail> {
    for words in LINES_ELSEWHERE {
        assert!(rt; is_undone(rt.alloc(), words)?);
    }
    Ok(())
}

// Whether nothing is read or written for the line, and its status is that of no answer.
fn is_undone(alloc: Global, words: &[&str]) -> Result<bool, AllocError> {
    let line = line_of(alloc, words)?;
    let mut input = SCRIPT.as_bytes();
    let mut output = Vec::new(alloc);
    let mut faults = Vec::new(alloc);
    let status = command(
        alloc,
        line.as_slice(),
        &mut Reader::new(&mut input),
        &mut Writer::new(&mut output),
        &mut Writer::new(&mut faults),
    );
    Ok(status == 4 && input.len() == SCRIPT.len() && output.is_empty() && faults.is_empty())
}

#[test]
fn unread_lines_have_a_status(rt: HostRuntime) {
    let alloc = rt.alloc();
    for (kind, status) in [
        (ErrorKind::OutOfMemory, Status::NoAnswer),
        (ErrorKind::InvalidData, Status::WrongLine),
    ] {
        let mut output = Vec::new(alloc);
        let mut faults = Vec::new(alloc);
        let ended = unread_line(
            &io::Error::from(kind),
            &mut Writer::new(&mut output),
            &mut Writer::new(&mut faults),
        );
        assert_eq!(rt; ended, status);
    }
}

// A fault goes to the faults, and a call for the version to the output.
#[test]
fn faults_are_explained(rt: HostRuntime) -> Result<(), Fail> {
    for (words, status, is_fault) in [
        (["mcrace", "check", "x"].as_slice(), Status::WrongLine, true),
        (["mcrace", "--version"].as_slice(), Status::Success, false),
    ] {
        let line = line_of(rt.alloc(), words)?;
        assert!(rt; is_explained(rt.alloc(), line.as_slice(), status, is_fault));
    }
    Ok(())
}

// Whether the line's fault has this status, and is written to the faults alone, or else to the output alone.
fn is_explained(alloc: Global, line: &[String], status: Status, is_fault: bool) -> bool {
    let mut output = Vec::new(alloc);
    let mut faults = Vec::new(alloc);
    let ended = match read_request(alloc, line) {
        Ok(_) => return false,
        Err(fault) => explain_fault(
            &fault,
            &mut Writer::new(&mut output),
            &mut Writer::new(&mut faults),
        ),
    };
    ended == status && output.is_empty() == is_fault && faults.is_empty() != is_fault
}

/// A line of these words.
pub(crate) fn line_of(alloc: Global, words: &[&str]) -> Result<Vec<String>, AllocError> {
    let mut line = Vec::new(alloc);
    for word in words {
        line.push(String::from_str(alloc, word)?)?;
    }
    Ok(line)
}
