//! The program's command, and its subcommands.
ghost use Rattle.std.specs.Prelude.{◌≡◌, [], false, IfOk, map};
ghost use Rattle.clap.specs.Words.{app_of, rule_of};
ghost use Rattle.mc_cli.specs.Commands as spec;
ghost use Rattle.mc_cli.specs.Commands.{rule_of_row};

use crate::help::{
    ASM, CAMPAIGN, CHECK, CONVERT, DRAW, DRIVE, FORMATS, GENERATE, HISTORY, Help, IMAGE, JOIN,
    JUDGE, RECORD, RUN, SCRIPT, SELFTEST, SERVE, SHORT_STATUSES, STATUSES, STEPS, STRESS, TEST,
};
use crate::options as rows;
use crate::rows::{Kind, Place, Row};
use clap::error::ErrorKind;
use clap::{Arg, ArgAction, Command};
use std::alloc::{AllocError, Global};

const ABOUT: &str = "Tests servers that speak memcached's text protocol";

/// The version of the program.
pub const VERSION: &str = "0.1.0";

const JUDGE_ROWS: &[Row] = &[
    rows::LIMIT,
    rows::WHY,
    rows::RUN,
    rows::SHOWN_JOB,
    rows::KEY,
    rows::JSON,
];

const CHECK_ROWS: &[Row] = &[rows::REFUSED, rows::JSON];

const DRIVE_ROWS: &[Row] = &[rows::LIMIT, rows::WHY];

const ASM_ROWS: &[Row] = &[rows::REFUSED];

const DRAW_ROWS: &[Row] = &[
    rows::TEXT,
    rows::LINES,
    rows::SHOWN_JOB,
    rows::KEY_OF_DRAW,
    rows::LIMIT,
];

const CONVERT_ROWS: &[Row] = &[rows::TO, rows::SHOWN_JOB];

const RUN_ROWS: &[Row] = &[
    rows::TARGET,
    rows::LIMIT,
    rows::WHY,
    rows::MEET,
    rows::SERVER_OF_A,
    rows::SERVER_OF_B,
    rows::NAME,
    rows::TIMEOUT,
    rows::WAIT,
    rows::TIMES,
    rows::FOR,
    rows::KEEP_GOING,
    rows::RECONNECT,
    rows::QUIET,
    rows::SPREAD,
    rows::STATS,
    rows::JSON,
];

const TEST_ROWS: &[Row] = &[
    rows::TARGET,
    rows::FOR_OF_TEST,
    rows::ONLY,
    rows::SKIP,
    rows::NAME,
    rows::TIMEOUT,
    rows::WAIT,
    rows::SERVER_OF_A,
    rows::SERVER_OF_B,
    rows::SEED_OF_TEST,
    rows::OUT,
    rows::JSON,
    rows::QUIET,
];

const GENERATE_ROWS: &[Row] = &[rows::SEED, rows::JOB];

const SERVE_ROWS: &[Row] = &[rows::PORT, rows::CONNECTIONS, rows::RACY];

const RECORD_ROWS: &[Row] = &[
    rows::LISTEN_PORT,
    rows::RECORDED,
    rows::CONNECTIONS_OF_RECORD,
    rows::FOR_OF_RECORD,
    rows::OUT_OF_RECORD,
    rows::JUDGE,
];

const STRESS_ROWS: &[Row] = &[
    rows::TARGET,
    rows::CLIENTS,
    rows::REQUESTS,
    rows::KEYS,
    rows::MIX,
    rows::ROUNDS,
    rows::FOR_OF_STRESS,
    rows::WHY_OF_STRESS,
    rows::NAME,
    rows::TIMEOUT,
    rows::WAIT,
    rows::SEED_OF_STRESS,
    rows::KEEP_GOING_OF_STRESS,
    rows::WHOLE,
    rows::SMALLEST,
    rows::LIMIT_OF_STRESS,
    rows::QUIET,
    rows::STATS_OF_STRESS,
    rows::JSON_OF_STRESS,
];

const CAMPAIGN_ROWS: &[Row] = &[
    rows::TARGET,
    rows::SEED,
    rows::RANDOM_SEED,
    rows::FROM,
    rows::JOBS,
    rows::WORKERS,
    rows::LIMIT,
    rows::MEET,
    rows::SERVER_OF_A,
    rows::SERVER_OF_B,
    rows::NAME,
    rows::TIMEOUT,
    rows::WAIT,
    rows::BRIEF,
    rows::JSON,
    rows::JUNIT,
    rows::SHOW,
    rows::WHY_OF_SHOWN,
    rows::TRIES,
    rows::RECONNECT_OF_CAMPAIGN,
    rows::QUIET,
    rows::SPREAD_OF_CAMPAIGN,
    rows::STATS,
    rows::FOR_OF_CAMPAIGN,
    rows::STOP_AFTER,
];

/// The program's command.
///
/// # Errors
///
/// That there is no memory.
pub fn program<'a>(alloc: Global) -> Result<Command<'a>, AllocError>
    ensures { IfOk result (λ command. app_of command ≡ spec.program_app) }
{
    asking_program(alloc)?
        .subcommand(topic(alloc, "formats", FORMATS))?
        .subcommand(topic(alloc, "history", HISTORY))?
        .subcommand(topic(alloc, "image", IMAGE))?
        .subcommand(topic(alloc, "script", SCRIPT))?
        .subcommand(topic(alloc, "steps", STEPS))?
        .subcommand(topic(alloc, "all", FORMATS))
}

// The program without the topics of its help.
fn asking_program<'a>(alloc: Global) -> Result<Command<'a>, AllocError>
    ensures { IfOk result (λ command. app_of command ≡ spec.asking_app) }
{
    playing_program(alloc)?
        .subcommand(command_of(alloc, &JUDGE, JUDGE_ROWS)?)?
        .subcommand(command_of(alloc, &DRAW, DRAW_ROWS)?)?
        .subcommand(command_of(alloc, &CONVERT, CONVERT_ROWS)?)?
        .subcommand(command_of(alloc, &JOIN, &[])?)?
        .subcommand(command_of(alloc, &CHECK, CHECK_ROWS)?)?
        .subcommand(command_of(alloc, &ASM, ASM_ROWS)?)?
        .subcommand(command_of(alloc, &DRIVE, DRIVE_ROWS)?)
}

// The program with those subcommands alone that need a server, or are one, or make what one is asked.
fn playing_program<'a>(alloc: Global) -> Result<Command<'a>, AllocError>
    ensures { IfOk result (λ command. app_of command ≡ spec.playing_app) }
{
    bare_program(alloc)
        .subcommand(command_of(alloc, &TEST, TEST_ROWS)?)?
        .subcommand(command_of(alloc, &RUN, RUN_ROWS)?)?
        .subcommand(command_of(alloc, &CAMPAIGN, CAMPAIGN_ROWS)?)?
        .subcommand(command_of(alloc, &STRESS, STRESS_ROWS)?)?
        .subcommand(command_of(alloc, &RECORD, RECORD_ROWS)?)?
        .subcommand(command_of(alloc, &SERVE, SERVE_ROWS)?)?
        .subcommand(command_of(alloc, &SELFTEST, &[])?)?
        .subcommand(command_of(alloc, &GENERATE, GENERATE_ROWS)?)
}

// The program without its subcommands.
fn bare_program<'a>(alloc: Global) -> Command<'a>
    ensures { app_of result ≡ spec.bare_app }
{
    Command::new(alloc, "mcrace")
        .about(ABOUT)
        .version(VERSION)
        .after_help(SHORT_STATUSES)
        .after_long_help(STATUSES)
        .subcommand_required(true)
        .arg_required_else_help(true)
}

// A topic, of which `mcrace help NAME` shows the text. It is a subcommand that asks for nothing.
fn topic<'a>(alloc: Global, name: &'a str, text: &'a str) -> Command<'a>
    ensures { app_of result ≡ spec.app_with name.now [] }
{
    Command::new(alloc, name).override_help(text).hide(true)
}

// The subcommand of which help says this, with these options.
fn command_of<'a>(alloc: Global, help: &Help, rows: &[Row]) -> Result<Command<'a>, AllocError>
    ensures { IfOk result (λ command. app_of command ≡ spec.app_with help.now.name.now (map rule_of_row rows.now)) }
{
    let mut command = titled(alloc, help);
    'rows: for row in rows {
        command = command.arg(row.arg(alloc, row.help))?;
    }
    Ok(command)
}

// The same without its options.
fn titled<'a>(alloc: Global, help: &Help) -> Command<'a>
    ensures { app_of result ≡ spec.app_with help.now.name.now [] }
{
    Command::new(alloc, help.name)
        .about(help.about)
        .long_about(help.long_about)
        .override_usage(help.usage)
        .after_help(help.short_statuses)
        .after_long_help(help.statuses)
}

impl Row {
    // The option as clap has it, with this help.
    fn arg<'a>(&self, alloc: Global, help: &'a str) -> Arg<'a>
        ensures rule { rule_of result ≡ rule_of_row self.now }
        ensures local { result.global ≡ false }
    {
        let arg = Arg::new(alloc, self.name)
            .help(help)
            .hide_short_help(matches!(self.place, Place::Rare));
        match self.place {
            Place::Required => arg.value_name(self.value).required(true),
            Place::Daily | Place::Rare => match self.kind {
                Kind::Switch => arg.long(self.name).action(ArgAction::SetTrue),
                _ => arg.long(self.name).value_name(self.value),
            },
        }
    }
}

// What help says of the subcommand with this name, and its options.
fn parts_of(name: &str) -> Option<(&'static Help, &'static [Row])> {
    match name {
        "judge" => Some((&JUDGE, JUDGE_ROWS)),
        "check" => Some((&CHECK, CHECK_ROWS)),
        "asm" => Some((&ASM, ASM_ROWS)),
        "drive" => Some((&DRIVE, DRIVE_ROWS)),
        "draw" => Some((&DRAW, DRAW_ROWS)),
        "convert" => Some((&CONVERT, CONVERT_ROWS)),
        "join" => Some((&JOIN, &[])),
        "test" => Some((&TEST, TEST_ROWS)),
        "run" => Some((&RUN, RUN_ROWS)),
        "generate" => Some((&GENERATE, GENERATE_ROWS)),
        "serve" => Some((&SERVE, SERVE_ROWS)),
        "record" => Some((&RECORD, RECORD_ROWS)),
        "campaign" => Some((&CAMPAIGN, CAMPAIGN_ROWS)),
        "stress" => Some((&STRESS, STRESS_ROWS)),
        "selftest" => Some((&SELFTEST, &[])),
        _ => None,
    }
}

/// Whether the subcommand with this name has this option.
pub fn has_option(name: &str, option: &str) -> bool {
    match parts_of(name) {
        Some((_, rows)) => rows.iter().any(|row| row.name == option
            && !matches!(row.place, Place::Required)),
        None => false,
    }
}

/// What clap writes of a wrong value of the subcommand with this name: the message and the subcommand's usage.
///
/// # Errors
///
/// That there is no memory.
pub fn usage_fault(alloc: Global, name: &str, message: &str) -> Result<String, AllocError> {
    let mut command = match parts_of(name) {
        Some((help, rows)) => command_of(alloc, help, rows)?,
        None => program(alloc)?,
    };
    command
        .error(ErrorKind::ValueValidation, message)?
        .to_string(alloc)
}

/// The help of the subcommand with this name, if there is one: all of it, or what `-h` shows. It has the ranges and the defaults of the
/// options' rows.
///
/// # Errors
///
/// That there is no memory.
pub fn help_of(alloc: Global, name: &str, is_long: bool) -> Result<Option<String>, AllocError> {
    let Some((help, rows)) = parts_of(name) else {
        return Ok(None);
    };
    let mut texts = Vec::new(alloc);
    for row in rows {
        texts.push(row.help_text(alloc)?)?;
    }
    let mut command = titled(alloc, help);
    for (row, text) in rows.iter().zip(texts.iter()) {
        command = command.arg(row.arg(alloc, text.as_str()))?;
    }
    let text = if is_long {
        command.render_long_help()?
    } else {
        command.render_help()?
    };
    Ok(Some(text))
}
