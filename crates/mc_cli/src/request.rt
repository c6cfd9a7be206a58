//! What a line asks for: it is read here, once.
ghost use Rattle.std.specs.Prelude.{◌≡◌, map, string_bytes, IfErr, IfOk, Some};
ghost use Rattle.clap.specs.Words.{first_value, found_of, kind_of};
ghost use Rattle.mc_cli.specs.Asking.{AsksFor, IsAskedBy, IsFaultOf, IsLike, Says};

use crate::args::{CampaignArgs, RecordArgs, RunArgs, ServeArgs, StressArgs, TestArgs};
use crate::fault::{OptionFault, long_key_message};
use crate::help_line::help_text;
use crate::hints::error_text;
use crate::question::Question;
use crate::read::{
    read_check, read_convert, read_draw, read_job, read_judge, read_record, read_run, read_search,
    read_service, read_test,
};
use crate::read_campaign::read_campaign;
use crate::read_stress::read_stress;
use crate::subcommand::{program, usage_fault};
use crate::{options as rows, value};
use clap::error::ErrorKind;
use clap::{ArgMatches, Error};
use mc_settings::Namespace;
use std::alloc::{AllocError, Global};

/// What a line asks for, with all that its words say of it.
#[derive(Drop)]
pub enum Request<'a> {
    /// An answer to a question about the input.
    Question(Question<'a>),
    /// Runs of a script against a server.
    Run(RunArgs<'a>),
    /// A test of a server.
    Test(TestArgs<'a>),
    /// The script of this seed and this job.
    Generate(u64, u64),
    /// A server of the program's own.
    Serve(ServeArgs),
    /// A recording of what clients and a server say.
    Record(RecordArgs<'a>),
    /// The jobs of a campaign against a server.
    Campaign(CampaignArgs<'a>),
    /// Rounds of many clients against a server.
    Stress(StressArgs<'a>),
    /// Whether a server that is right is explained, and one with a race isn't.
    Selftest,
}

/// Why a line asks for nothing.
#[derive(Drop)]
pub enum LineFault {
    /// It calls for help or for the version: this text, for standard output.
    Shown(String),
    /// It has a fault, as this text says, for standard error.
    Wrong(String),
    /// There was no memory to read it, or to say what is wrong.
    OutOfMemory,
}

impl From<AllocError> for LineFault {
    ghost use Rattle.std.specs.Prelude.{◌≡◌};
    ghost use Rattle.mc_cli.specs.declared.request.LineFault.TheVariants.{OutOfMemory};

    ghost from_gives = { λ _ e. e ≡ OutOfMemory };

    fn from(_e: AllocError) -> LineFault {
        LineFault::OutOfMemory
    }
}

/// Reads the line, whose first word is the program's name.
///
/// # Errors
///
/// The line calls for help or for the version, or has a fault; or memory ran out, and then nothing is known of the line.
pub fn read_request(alloc: Global, line: &[String]) -> Result<Request<'_>, LineFault>
    ensures asked { IfOk result (AsksFor (map string_bytes line.now)) }
    ensures only { IfOk result (λ request. (wanted : Request) → AsksFor (map string_bytes line.now) wanted → IsLike request wanted) }
    ensures fault { IfErr result (IsFaultOf (map string_bytes line.now)) }
{
    let matches = match program(alloc)?.try_get_matches_from(line) {
        Ok(matches) => matches,
        Err(error) => return Err(clap_fault(alloc, line, &error)),
    };
    match matches.subcommand() {
        Some((name, options)) => match read_options(name, options) {
            Ok(request) => Ok(request),
            Err(fault) => Err(option_fault(alloc, name, &fault)),
        },
        None => Err(option_fault(alloc, "", &OptionFault::NoSubcommand)),
    }
}

// What the subcommand of this name asks for with its options.
fn read_options<'a>(name: &str, options: &ArgMatches<'a>) -> Result<Request<'a>, OptionFault<'a>>
    ensures asked { IfOk result (IsAskedBy (Some name.now) (first_value (found_of options.now))) }
    ensures none { IfErr result (λ _. (wanted : Request) → IsAskedBy (Some name.now) (first_value (found_of options.now)) wanted → ⊥) }
{
    match name {
        "judge" => Ok(Request::Question(Question::Judge(read_judge(options)?))),
        "check" => Ok(Request::Question(Question::Check(read_check(options)))),
        "asm" => Ok(Request::Question(Question::Asm(value::is_set(options, &rows::REFUSED)))),
        "drive" => Ok(Request::Question(Question::Drive(read_search(options)?))),
        "draw" => Ok(Request::Question(Question::Draw(read_draw(options)?))),
        "convert" => Ok(Request::Question(Question::Convert(read_convert(options)?))),
        "join" => Ok(Request::Question(Question::Join)),
        "test" => Ok(Request::Test(read_test(options)?)),
        "run" => Ok(Request::Run(read_run(options)?)),
        "generate" => {
            let (seed, job) = read_job(options)?;
            Ok(Request::Generate(seed, job))
        }
        "serve" => Ok(Request::Serve(read_service(options)?)),
        "record" => Ok(Request::Record(read_record(options)?)),
        "campaign" => Ok(Request::Campaign(read_campaign(options)?)),
        "stress" => Ok(Request::Stress(read_stress(options)?)),
        "selftest" => Ok(Request::Selftest),
        _ => Err(OptionFault::NoSubcommand),
    }
}

// What clap says of the line.
fn clap_fault(alloc: Global, line: &[String], error: &Error) -> LineFault
    ensures says { Says (kind_of error.now) result }
    ensures memory { kind_of error.now ≡ ErrorKind.OutOfMemory → result ≡ LineFault.OutOfMemory }
{
    if error.kind() == ErrorKind::OutOfMemory {
        return LineFault::OutOfMemory;
    }
    if error.use_stderr() {
        match error_text(alloc, line, error) {
            Ok(text) => LineFault::Wrong(text),
            Err(_) => LineFault::OutOfMemory,
        }
    } else {
        match help_text(alloc, line, error) {
            Ok(text) => LineFault::Shown(text),
            Err(_) => LineFault::OutOfMemory,
        }
    }
}

// What is said of the options of the subcommand of this name.
fn option_fault(alloc: Global, name: &str, fault: &OptionFault<'_>) -> LineFault
    ensures { Says ErrorKind.ValueValidation result }
{
    match option_fault_text(alloc, name, fault) {
        Ok(text) => LineFault::Wrong(text),
        Err(_) => LineFault::OutOfMemory,
    }
}

// The same, as clap writes it: with the usage of the subcommand.
fn option_fault_text(
    alloc: Global,
    name: &str,
    fault: &OptionFault<'_>,
) -> Result<String, AllocError> {
    usage_fault(alloc, name, fault.message(alloc)?.as_str())
}

/// What is said of a line of `run` under whose name this key of the script is too long.
///
/// # Errors
///
/// That there is no memory.
pub fn long_key_text(
    alloc: Global,
    name: &Namespace<'_>,
    key: &[u8],
) -> Result<String, AllocError> {
    let message = long_key_message(alloc, name, key)?;
    usage_fault(alloc, "run", message.as_str())
}

/// What is said of a line of `test` that names a race of which none is known.
///
/// # Errors
///
/// That there is no memory.
pub fn unknown_race_text(alloc: Global, name: &str) -> Result<String, AllocError> {
    let message = format!(in alloc; "there is no race '{name}'; mcrace test --list names them")?;
    usage_fault(alloc, "test", message.as_str())
}
