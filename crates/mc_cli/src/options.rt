//! The options of the program, a row for each.

use crate::args::{GREATEST_JOBS, GREATEST_WORKERS};
use crate::rows::{Kind, Place, Row};

// An option: its place and name, its value's name, kind and default, and what help says of it. One without a value is a switch.
macro_rules! row {
    ($place:ident $name:literal, $help:literal) => {
        row!($place $name "" Kind::Switch => None, $help)
    };
    ($place:ident $name:literal $value:literal $kind:expr, $help:literal) => {
        row!($place $name $value $kind => None, $help)
    };
    ($place:ident $name:literal $value:literal $kind:expr => $default:expr, $help:literal) => {
        Row {
            name: $name,
            value: $value,
            kind: $kind,
            default: $default,
            place: Place::$place,
            help: $help,
        }
    };
}

pub const TARGET: Row =
    row!(Required "target" "HOST:PORT" Kind::Address, "Run against the server at this address");

pub const LIMIT: Row =
    row!(Rare "limit" "N" Kind::Number(0, 1_000_000_000) => Some(1_000_000), "The most turns of a search");

pub const TEXT: Row = row!(Daily "text", "Draw text for a terminal, not an SVG");

pub const LINES: Row = row!(Daily "lines", "Show the lines of the input, with --text");

pub const SHOWN_JOB: Row =
    row!(Daily "job" "N" Kind::Number(0, u64::MAX), "Take the history of this job of a campaign");

pub const KEY: Row = row!(Daily "key" "KEY" Kind::Key, "Judge this key of a history 3 alone");

pub const KEY_OF_DRAW: Row = row!(Daily "key" "KEY" Kind::Key, "Draw this key of a history 3");

pub const TO: Row = row!(Daily "to" "NOTATION" Kind::Notation, "Write it in this notation");

pub const RUN: Row = row!(Daily "run", "Pass over what run or campaign printed before it");

pub const JSON: Row = row!(Daily "json", "Answer in JSON");

pub const JUNIT: Row = row!(Rare "junit", "Write the report as JUnit's XML");

pub const WHY: Row = row!(Daily "why", "Say why it is unexplained, or which word is refused");

pub const REFUSED: Row = row!(Daily "why", "Show the line for which a script is refused");

pub const MEET: Row = row!(Rare "meet" "WORD" Kind::Meeting, "When the branches meet");

pub const SERVER_OF_A: Row =
    row!(Rare "a" "HOST:PORT" Kind::Address, "A's server, if it is another one");

pub const SERVER_OF_B: Row =
    row!(Rare "b" "HOST:PORT" Kind::Address, "B's server, if it is another one");

pub const NAME: Row = row!(Daily "name" "NAME" Kind::Name, "Put NAME and a dash before each key");

pub const TIMEOUT: Row =
    row!(Daily "timeout" "TIME" Kind::Time, "Limit of a connect, read or write");

pub const WAIT: Row = row!(Daily "wait" "TIME" Kind::Time, "Try this long to connect");

pub const TIMES: Row =
    row!(Daily "times" "N" Kind::Number(1, 1_000_000), "Run the script up to N times");

pub const FOR: Row = row!(Daily "for" "TIME" Kind::Time, "Repeat it for this long");

pub const KEEP_GOING: Row =
    row!(Daily "keep-going", "Go on after a run that isn't done and explained");

pub const RECONNECT: Row = row!(Rare "reconnect", "Make new connections for each run");

pub const RECONNECT_OF_CAMPAIGN: Row = row!(Rare "reconnect", "Make new connections for each job");

pub const QUIET: Row = row!(Rare "quiet", "Show no progress on a terminal");

pub const SPREAD: Row =
    row!(Rare "spread" "MICROS" Kind::Number(0, 10_000), "Maximum delay of a branch [default: 0 or 64]");

pub const STATS: Row = row!(Daily "stats", "Say at the end how requests were answered");

pub const SEED: Row =
    row!(Daily "seed" "N" Kind::Number(0, u64::MAX) => Some(1), "The seed of the scripts");

pub const RANDOM_SEED: Row = row!(Rare "random-seed", "Draw a seed, and say it");

pub const JOB: Row = row!(Daily "job" "N" Kind::Number(0, u64::MAX) => Some(0), "The job");

pub const PORT: Row =
    row!(Required "port" "PORT" Kind::Number(0, 65_535), "The port; 0 takes a free one");

pub const CONNECTIONS: Row =
    row!(Daily "connections" "N" Kind::Number(0, u64::MAX) => Some(1_000_000), "End after N connections");

pub const RACY: Row = row!(Daily "racy", "Have a race in incr");

pub const LISTEN_PORT: Row =
    row!(Required "port" "LISTEN_PORT" Kind::Number(0, 65_535), "The port for clients; 0 takes a free one");

pub const RECORDED: Row =
    row!(Required "target" "HOST:PORT" Kind::Address, "Record the server at this address");

pub const CONNECTIONS_OF_RECORD: Row =
    row!(Daily "connections" "N" Kind::Number(0, u64::MAX), "End after N connections");

pub const FOR_OF_RECORD: Row = row!(Daily "for" "TIME" Kind::Time, "End after this long");

pub const OUT_OF_RECORD: Row =
    row!(Daily "out" "FILE" Kind::Path, "Write the recording to this file");

pub const JUDGE: Row = row!(Daily "judge", "Judge each key meanwhile");

pub const CLIENTS: Row =
    row!(Daily "clients" "N" Kind::Number(2, 64) => Some(8), "How many clients send at once");

pub const REQUESTS: Row =
    row!(Daily "requests" "N" Kind::Number(1, 1_000) => Some(50), "How many requests each sends in a round");

pub const KEYS: Row =
    row!(Daily "keys" "N" Kind::Number(1, 16) => Some(2), "How many keys they share");

pub const MIX: Row = row!(Daily "mix" "WORD" Kind::Mix, "Which verbs they send");

pub const SEED_OF_STRESS: Row =
    row!(Rare "seed" "N" Kind::Number(0, u64::MAX) => Some(1), "The seed of the requests");

pub const ROUNDS: Row =
    row!(Daily "rounds" "N" Kind::Number(1, 1_000_000), "Up to N rounds; 100 without --for");

pub const FOR_OF_STRESS: Row = row!(Daily "for" "TIME" Kind::Time, "Start rounds for this long");

pub const KEEP_GOING_OF_STRESS: Row =
    row!(Rare "keep-going", "Go on after a round that would end it");

pub const WHOLE: Row = row!(Rare "whole", "Show all keys of an unexplained round");

pub const SMALLEST: Row = row!(Rare "smallest", "Leave out requests that changed nothing");

pub const LIMIT_OF_STRESS: Row =
    row!(Rare "limit" "N" Kind::Number(0, 1_000_000_000), "The most turns of a search");

pub const STATS_OF_STRESS: Row = row!(Rare "stats", "Say at the end how requests were answered");

pub const JSON_OF_STRESS: Row = row!(Rare "json", "Answer in JSON");

pub const WHY_OF_STRESS: Row = row!(Daily "why", "Say why a round is unexplained");

pub const FROM: Row =
    row!(Rare "from" "N" Kind::Number(0, u64::MAX) => Some(0), "The first job's number");

pub const JOBS: Row =
    row!(Daily "jobs" "N" Kind::Number(1, GREATEST_JOBS) => Some(100), "How many jobs");

pub const WORKERS: Row =
    row!(Daily "workers" "N" Kind::Number(1, GREATEST_WORKERS as u64) => Some(4), "How many jobs run at once");

pub const BRIEF: Row = row!(Rare "brief", "Write no lines of jobs with which nothing was wrong");

pub const SHOW: Row = row!(Daily "show", "Write the histories of unexplained jobs, ten at most");

pub const WHY_OF_SHOWN: Row =
    row!(Daily "why", "With --show, say why nothing explains each of them");

pub const TRIES: Row =
    row!(Rare "tries" "N" Kind::Number(1, 1_000) => Some(1), "Runs of a smaller script");

pub const SPREAD_OF_CAMPAIGN: Row =
    row!(Rare "spread" "MICROS" Kind::Number(0, 10_000) => Some(64), "Maximum delay of a branch");

pub const FOR_OF_CAMPAIGN: Row = row!(Daily "for" "TIME" Kind::Time, "Start jobs for this long");

pub const FOR_OF_TEST: Row =
    row!(Daily "for" "TIME" Kind::Time, "How long the test takes, by default 30 s");

pub const SEED_OF_TEST: Row =
    row!(Rare "seed" "N" Kind::Number(0, u64::MAX), "The seed of generated scripts and rounds");

pub const ONLY: Row = row!(Daily "only" "RACES" Kind::Names, "Look for these races alone");

pub const SKIP: Row = row!(Daily "skip" "RACES" Kind::Names, "Leave these races out");

pub const OUT: Row = row!(Daily "out" "DIR" Kind::Path, "Write the evidence into this folder");

pub const STOP_AFTER: Row =
    row!(Rare "stop-after" "N" Kind::Number(1, 10_000), "End when N jobs are unexplained");
