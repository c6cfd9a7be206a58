//! What the values of each subcommand's options ask for.
ghost use Rattle.std.specs.Prelude.{◌≡◌, ◌≤◌, ℕ, Option, codes, is_some, IfErr, IfOk, if◌then◌else◌};
ghost use Rattle.clap.specs.Words.{first_value, found_of};
ghost use Rattle.mc_cli.specs.Args as spec;
ghost use Rattle.mc_cli.specs.Args.{IsCheck, IsConvert, IsDraw, IsJob, IsJudge, IsRecordArgs, IsRepeat, IsRunArgs, IsTestArgs};
ghost use Rattle.mc_cli.specs.{Args.IsSearch, Args.IsService, Kinds.IsValue};

use crate::args::{
    CheckArgs, ConvertArgs, DrawArgs, JudgeArgs, RecordArgs, Repeat, RunArgs, Search, ServeArgs,
    TestArgs,
};
use crate::fault::OptionFault;
use crate::rows::Row;
use crate::{options as rows, value};
use clap::ArgMatches;

/// The microseconds of `--spread` if several runs meet, and the line names none.
pub const DEFAULT_SPREAD: u64 = 64;

/// The search that `judge`, `drive` and `run` ask for.
pub fn read_search<'a>(options: &ArgMatches<'a>) -> Result<Search, OptionFault<'a>>
    ensures how { IfOk result (IsSearch (first_value (found_of options.now))) }
    ensures none { IfErr result (λ _. (how : Search) → IsSearch (first_value (found_of options.now)) how → ⊥) }
{
    Ok(Search {
        limit: value::number(options, &rows::LIMIT)?,
        why: value::is_set(options, &rows::WHY),
    })
}

/// The judgement that `judge` asks for.
pub fn read_judge<'a>(options: &ArgMatches<'a>) -> Result<JudgeArgs<'a>, OptionFault<'a>>
    ensures args { IfOk result (IsJudge (first_value (found_of options.now))) }
    ensures none { IfErr result (λ _. (args : JudgeArgs) → IsJudge (first_value (found_of options.now)) args → ⊥) }
{
    let how = read_search(options)?;
    let limit = value::optional(options, &rows::LIMIT)?;
    let job = value::optional(options, &rows::SHOWN_JOB)?;
    Ok(JudgeArgs {
        how,
        limit,
        key: value::key(options, &rows::KEY),
        json: value::is_set(options, &rows::JSON),
        run: value::is_set(options, &rows::RUN) || job.is_some(),
        job,
    })
}

/// The check that `check` asks for.
pub fn read_check(options: &ArgMatches) -> CheckArgs
    ensures { IsCheck (first_value (found_of options.now)) result }
{
    CheckArgs {
        why: value::is_set(options, &rows::REFUSED),
        json: value::is_set(options, &rows::JSON),
    }
}

/// The notation that `convert` asks for.
pub fn read_convert<'a>(options: &ArgMatches<'a>) -> Result<ConvertArgs, OptionFault<'a>>
    ensures args { IfOk result (IsConvert (first_value (found_of options.now))) }
    ensures none { IfErr result (λ _. (args : ConvertArgs) → IsConvert (first_value (found_of options.now)) args → ⊥) }
{
    let to = value::notation(options, &rows::TO)?;
    let job = value::optional(options, &rows::SHOWN_JOB)?;
    Ok(ConvertArgs { to, job })
}

/// The picture that `draw` asks for.
pub fn read_draw<'a>(options: &ArgMatches<'a>) -> Result<DrawArgs<'a>, OptionFault<'a>>
    ensures how { IfOk result (IsDraw (first_value (found_of options.now))) }
    ensures none { IfErr result (λ _. (how : DrawArgs) → IsDraw (first_value (found_of options.now)) how → ⊥) }
{
    let limit = value::number(options, &rows::LIMIT)?;
    let job = value::optional(options, &rows::SHOWN_JOB)?;
    Ok(DrawArgs {
        text: value::is_set(options, &rows::TEXT),
        lines: value::is_set(options, &rows::LINES),
        limit,
        job,
        key: value::key(options, &rows::KEY_OF_DRAW),
    })
}

/// The seed and the job that `generate` asks for.
pub fn read_job<'a>(options: &ArgMatches<'a>) -> Result<(u64, u64), OptionFault<'a>>
    ensures job { IfOk result (λ found. IsJob (first_value (found_of options.now)) found.0 found.1) }
    ensures none { IfErr result (λ _. (seed job : ℕ) → IsJob (first_value (found_of options.now)) seed job → ⊥) }
{
    let seed = value::number(options, &rows::SEED)?;
    let job = value::number(options, &rows::JOB)?;
    Ok((seed, job))
}

/// The server that `serve` asks for.
pub fn read_service<'a>(options: &ArgMatches<'a>) -> Result<ServeArgs, OptionFault<'a>>
    ensures service { IfOk result (IsService (first_value (found_of options.now))) }
    ensures none { IfErr result (λ _. (service : ServeArgs) → IsService (first_value (found_of options.now)) service → ⊥) }
{
    let port = value::number(options, &rows::PORT)?;
    let connections = value::number(options, &rows::CONNECTIONS)?;
    Ok(ServeArgs {
        port: port as u16,
        connections,
        racy: value::is_set(options, &rows::RACY),
    })
}

/// The recording that `record` asks for.
pub fn read_record<'a>(options: &ArgMatches<'a>) -> Result<RecordArgs<'a>, OptionFault<'a>>
    ensures args { IfOk result (IsRecordArgs (first_value (found_of options.now))) }
    ensures none { IfErr result (λ _. (args : RecordArgs) → IsRecordArgs (first_value (found_of options.now)) args → ⊥) }
{
    let port = value::number(options, &rows::LISTEN_PORT)?;
    let server = value::address(options, &rows::RECORDED)?;
    let connections = value::optional(options, &rows::CONNECTIONS_OF_RECORD)?;
    let time = value::optional(options, &rows::FOR_OF_RECORD)?;
    Ok(RecordArgs {
        port: port as u16,
        server,
        connections,
        time,
        out: options.get_str(rows::OUT_OF_RECORD.name),
        judge: value::is_set(options, &rows::JUDGE),
    })
}

/// The run that `run` asks for.
pub fn read_run<'a>(options: &ArgMatches<'a>) -> Result<RunArgs<'a>, OptionFault<'a>>
    ensures args { IfOk result (IsRunArgs (first_value (found_of options.now))) }
    ensures none { IfErr result (λ _. (args : RunArgs) → IsRunArgs (first_value (found_of options.now)) args → ⊥) }
{
    let server = value::address(options, &rows::TARGET)?;
    let how = read_search(options)?;
    let meeting = value::meeting(options, &rows::MEET)?;
    let name = value::name(options, &rows::NAME)?;
    let timeout = value::seconds(options, &rows::TIMEOUT)?;
    let wait = value::seconds(options, &rows::WAIT)?;
    let repeat = read_repeat(options)?;
    let spread = read_spread(options, default_spread(repeat))?;
    Ok(RunArgs {
        server,
        a: options.get_str(rows::SERVER_OF_A.name),
        b: options.get_str(rows::SERVER_OF_B.name),
        how,
        meeting,
        name,
        timeout,
        wait,
        repeat,
        reconnect: value::is_set(options, &rows::RECONNECT),
        quiet: value::is_set(options, &rows::QUIET),
        stats: value::is_set(options, &rows::STATS),
        json: value::is_set(options, &rows::JSON),
        spread,
    })
}

/// The test that `test` asks for.
pub fn read_test<'a>(options: &ArgMatches<'a>) -> Result<TestArgs<'a>, OptionFault<'a>>
    ensures args { IfOk result (IsTestArgs (first_value (found_of options.now))) }
    ensures none { IfErr result (λ _. (args : TestArgs) → IsTestArgs (first_value (found_of options.now)) args → ⊥) }
{
    let run = read_run(options)?;
    let seed = value::optional(options, &rows::SEED_OF_TEST)?;
    Ok(TestArgs {
        run,
        seed,
        only: options.get_str(rows::ONLY.name),
        skip: options.get_str(rows::SKIP.name),
        out: options.get_str(rows::OUT.name),
    })
}

// How often the script is run, if that isn't once.
fn read_repeat<'a>(options: &ArgMatches<'a>) -> Result<Option<Repeat>, OptionFault<'a>>
    ensures repeat { IfOk result (IsRepeat (first_value (found_of options.now))) }
    ensures none { IfErr result (λ _. (repeat : Option Repeat) → IsRepeat (first_value (found_of options.now)) repeat → ⊥) }
{
    let times = value::optional(options, &rows::TIMES)?;
    let time = value::optional(options, &rows::FOR)?;
    let keep_going = value::is_set(options, &rows::KEEP_GOING);
    if times.is_some() || time.is_some() {
        return Ok(Some(Repeat {
            times,
            time,
            keep_going,
        }));
    }
    if keep_going {
        return Err(OptionFault::Together("--keep-going needs --times or --for"));
    }
    Ok(None)
}

// The microseconds of `--spread` if the line of `run` names none.
fn default_spread(repeat: Option<Repeat>) -> u64
    ensures default { result ≡ (if is_some repeat then 64 else 0) }
    ensures small { result ≤ 64 }
{
    match repeat {
        Some(_) => DEFAULT_SPREAD,
        None => 0,
    }
}

/// The microseconds that `--spread` names, or these.
pub fn read_spread<'a>(options: &ArgMatches<'a>, default: u64) -> Result<u16, OptionFault<'a>>
    requires { default ≤ 64 }
    ensures spread { IfOk result (IsValue (spec.number 10000) (Some default) (first_value (found_of options.now) (codes "spread"))) }
    ensures none { IfErr result (λ _. (spread : ℕ)
        → IsValue (spec.number 10000) (Some default) (first_value (found_of options.now) (codes "spread")) spread → ⊥) }
{
    let row = Row {
        default: Some(default),
        ..rows::SPREAD
    };
    Ok(value::number(options, &row)? as u16)
}
