//! What the options of a line say.

use crate::invocation_tests::line_of;
use mc_cli::{
    JudgeArgs, LineFault, Question, Repeat, Request, RunArgs, Seconds, SoughtKey, read_request,
};
use mc_settings::Meeting;
use std::alloc::Global;
use std::test::Fail;

// What is said of an option of other subcommands. Clap knows a similar one of `run`, which isn't named.
const OTHER_OPTION: &str = "error: unexpected argument '--seed' found

Usage: mcrace run HOST:PORT [OPTIONS] < FILE

For more information, try '--help'.

mcrace: --seed is an option of test, campaign, stress, generate
";

#[test]
fn options_of_other_subcommands_are_named(rt: HostRuntime) -> Result<(), Fail> {
    let line = line_of(rt.alloc(), &["mcrace", "run", "host:1", "--seed", "5"])?;
    assert!(rt; is_other_option_named(rt.alloc(), line.as_slice()));
    Ok(())
}

fn is_other_option_named(alloc: Global, line: &[String]) -> bool {
    let fault = match read_request(alloc, line) {
        Ok(_) => return false,
        Err(fault) => fault,
    };
    match &fault {
        LineFault::Wrong(text) => text.as_str() == OTHER_OPTION,
        _ => false,
    }
}

/// Lines of `judge`, the limit that they name, and the key.
static JUDGED_KEYS: &[(&[&str], Option<u64>, Option<&str>)] = &[
    (&["mcrace", "judge"], None, None),
    (
        &["mcrace", "judge", "--key", "a", "--limit", "9"],
        Some(9),
        Some("a"),
    ),
    (
        &["mcrace", "judge", "--key=a b", "--run"],
        None,
        Some("a b"),
    ),
    (&["mcrace", "judge", "--key", ""], None, Some("")),
];

#[test]
fn lines_of_judge_name_limits_and_keys(rt: HostRuntime) -> Result<(), Fail> {
    for (words, limit, key) in JUDGED_KEYS {
        let line = line_of(rt.alloc(), words)?;
        assert!(rt; is_judged_with(rt.alloc(), line.as_slice(), *limit, *key));
    }
    Ok(())
}

fn is_judged_with(alloc: Global, line: &[String], limit: Option<u64>, key: Option<&str>) -> bool {
    let args: JudgeArgs<'_> = match read_request(alloc, line) {
        Ok(Request::Question(Question::Judge(args))) => args,
        _ => return false,
    };
    args.limit == limit && is_key(args.key.as_ref(), key)
}

fn is_key(found: Option<&SoughtKey<'_>>, wanted: Option<&str>) -> bool {
    match found {
        Some(found) => wanted.is_some_and(|word| found.as_bytes() == word.as_bytes()),
        None => wanted.is_none(),
    }
}

#[test]
fn lines_of_run_say_how_scripts_run(rt: HostRuntime) -> Result<(), Fail> {
    let words = [
        "mcrace",
        "run",
        "host:1",
        "--a",
        "host:2",
        "--meet",
        "never",
        "--name",
        "ci7",
        "--timeout",
        "2",
        "--times",
        "9",
        "--reconnect",
    ];
    let line = line_of(rt.alloc(), &words)?;
    assert!(rt; is_that_run(rt.alloc(), line.as_slice()));
    Ok(())
}

// Whether the line asks for the run whose options stand above.
fn is_that_run(alloc: Global, line: &[String]) -> bool {
    let target: RunArgs<'_> = match read_request(alloc, line) {
        Ok(Request::Run(target)) => target,
        _ => return false,
    };
    let name = match &target.name {
        Some(name) => Some(name.as_slice()),
        None => None,
    };
    target.server == "host:1"
        && target.a == Some("host:2")
        && target.b.is_none()
        && target.meeting == Meeting::Never
        && name == Some(b"ci7".as_slice())
        && target.timeout.is_some_and(|time| is_two_seconds(time))
        && target.wait.is_none()
        && target.repeat.is_some_and(|repeat| is_nine_times(repeat))
        && target.reconnect
        && !target.quiet
        && target.spread == 64
}

fn is_two_seconds(time: Seconds<'_>) -> bool {
    time.word == "2" && time.milliseconds == 2_000
}

fn is_nine_times(repeat: Repeat) -> bool {
    repeat.times == Some(9) && repeat.time.is_none() && !repeat.keep_going
}
