//! What the values of the options of `campaign` ask for.
ghost use Rattle.std.specs.Prelude.{◌≡◌, ◌+◌, ◌-◌, ◌≤◌, ◌^◌, ◌↔◌, ℕ, nat_lt, Bool, Option, codes, true, IfErr, IfOk, if◌then◌else◌};
ghost use Rattle.std.specs.Option.{option_copied};
ghost use Rattle.mc_protocol.specs.Decimals.{MAX_64};
ghost use Rattle.clap.specs.Words.{first_value, found_of};
ghost use Rattle.mc_settings.specs.JobKeys.{NameFits};
ghost use Rattle.mc_cli.specs.Args.{AreForms, AreJobs, IsCampaignArgs, IsPlan, IsRandomSeed, IsUntil};

use crate::args::{CampaignArgs, Plan, Until, has_last};
use crate::fault::OptionFault;
use crate::read::{DEFAULT_SPREAD, read_spread};
use crate::{options as rows, value};
use clap::ArgMatches;
use mc_settings::{Namespace, keys_fit};

/// The campaign that `campaign` asks for.
pub fn read_campaign<'a>(options: &ArgMatches<'a>) -> Result<CampaignArgs<'a>, OptionFault<'a>>
    ensures args { IfOk result (IsCampaignArgs (first_value (found_of options.now))) }
    ensures none { IfErr result (λ _. (args : CampaignArgs) → IsCampaignArgs (first_value (found_of options.now)) args → ⊥) }
{
    let server = value::address(options, &rows::TARGET)?;
    let plan = read_plan(options)?;
    let name = value::name(options, &rows::NAME)?;
    if !name_fits(&name, plan.first, plan.jobs) {
        let in_time = options.get_str(rows::FOR_OF_CAMPAIGN.name).is_some();
        return Err(long_key(name, plan.first, plan.jobs, in_time));
    }
    if plan.why && !plan.show {
        return Err(OptionFault::Together("--why needs --show"));
    }
    let meeting = value::meeting(options, &rows::MEET)?;
    let spread = read_spread(options, DEFAULT_SPREAD)?;
    let timeout = value::seconds(options, &rows::TIMEOUT)?;
    let wait = value::seconds(options, &rows::WAIT)?;
    Ok(CampaignArgs {
        server,
        a: options.get_str(rows::SERVER_OF_A.name),
        b: options.get_str(rows::SERVER_OF_B.name),
        plan,
        meeting,
        name,
        timeout,
        wait,
        reconnect: value::is_set(options, &rows::RECONNECT_OF_CAMPAIGN),
        quiet: value::is_set(options, &rows::QUIET),
        stats: value::is_set(options, &rows::STATS),
        spread,
    })
}

// The jobs of the campaign.
fn read_plan<'a>(options: &ArgMatches<'a>) -> Result<Plan, OptionFault<'a>>
    ensures plan { IfOk result (IsPlan (first_value (found_of options.now))) }
    ensures none { IfErr result (λ _. (plan : Plan) → IsPlan (first_value (found_of options.now)) plan → ⊥) }
{
    let seed = value::number(options, &rows::SEED)?;
    let random_seed = read_random_seed(options)?;
    let first = value::number(options, &rows::FROM)?;
    let (brief, json, junit) = read_forms(options)?;
    let until = read_until(options)?;
    let jobs = read_jobs(options, first)?;
    let workers = value::number(options, &rows::WORKERS)?;
    let limit = value::number(options, &rows::LIMIT)?;
    let tries = value::number(options, &rows::TRIES)?;
    if !has_last(first, jobs) {
        return Err(OptionFault::LastJob { first, jobs });
    }
    Ok(Plan {
        seed,
        random_seed,
        first,
        jobs,
        workers: workers as u32,
        limit,
        brief,
        json,
        junit,
        show: value::is_set(options, &rows::SHOW),
        why: value::is_set(options, &rows::WHY_OF_SHOWN),
        tries,
        until,
    })
}

// Whether a seed is drawn, for which the line names none.
fn read_random_seed<'a>(options: &ArgMatches<'a>) -> Result<bool, OptionFault<'a>>
    ensures random { IfOk result (IsRandomSeed (first_value (found_of options.now))) }
    ensures none { IfErr result (λ _. (random : Bool) → IsRandomSeed (first_value (found_of options.now)) random → ⊥) }
{
    let is_random = value::is_set(options, &rows::RANDOM_SEED);
    if is_random && options.get_str(rows::SEED.name).is_some() {
        return Err(OptionFault::Together("--random-seed and --seed can't stand together"));
    }
    Ok(is_random)
}

// Whether the report is brief, JSON or JUnit's XML.
fn read_forms<'a>(options: &ArgMatches<'a>) -> Result<(bool, bool, bool), OptionFault<'a>>
    ensures forms { IfOk result (λ forms. AreForms (first_value (found_of options.now)) forms.0 forms.1 forms.2) }
    ensures none { IfErr result (λ _. (brief json junit : Bool)
        → AreForms (first_value (found_of options.now)) brief json junit → ⊥) }
{
    let brief = value::is_set(options, &rows::BRIEF);
    let json = value::is_set(options, &rows::JSON);
    let junit = value::is_set(options, &rows::JUNIT);
    if brief && (json || junit) || json && junit {
        return Err(OptionFault::Together(
            "only one of --brief, --json and --junit can stand there",
        ));
    }
    Ok((brief, json, junit))
}

// What ends the campaign before its last job, if anything does.
fn read_until<'a>(options: &ArgMatches<'a>) -> Result<Option<Until>, OptionFault<'a>>
    ensures until { IfOk result (IsUntil (first_value (found_of options.now))) }
    ensures none { IfErr result (λ _. (until : Option Until) → IsUntil (first_value (found_of options.now)) until → ⊥) }
{
    let time = value::optional(options, &rows::FOR_OF_CAMPAIGN)?;
    let unexplained = value::optional(options, &rows::STOP_AFTER)?;
    if time.is_some() && options.get_str(rows::JOBS.name).is_some() {
        return Err(OptionFault::Together("--for and --jobs can't stand together"));
    }
    if time.is_some() || unexplained.is_some() {
        return Ok(Some(Until { time, unexplained }));
    }
    Ok(None)
}

// How many jobs there are at most, from the first on.
fn read_jobs<'a>(options: &ArgMatches<'a>, first: u64) -> Result<u64, OptionFault<'a>>
    ensures jobs { IfOk result
        (AreJobs (first_value (found_of options.now) (codes "for")) (first_value (found_of options.now) (codes "jobs")) first) }
    ensures none { IfErr result (λ _. (jobs : ℕ) → AreJobs (first_value (found_of options.now) (codes "for"))
        (first_value (found_of options.now) (codes "jobs")) first jobs → ⊥) }
{
    match options.get_str(rows::FOR_OF_CAMPAIGN.name) {
        Some(_) => Ok(jobs_from(first)),
        None => value::number(options, &rows::JOBS),
    }
}

// How many jobs have a number of 64 bits, from the first on; but one less where these are all of them.
fn jobs_from(first: u64) -> u64
    ensures jobs { result ≡ (if nat_lt 0 first then 2 ^ 64 - first else MAX_64) }
{
    (u64::MAX - first).saturating_add(1)
}

// Whether no key of these jobs is too long under the name, if there is one.
fn name_fits(name: &Option<Namespace<'_>>, first: u64, jobs: u64) -> bool
    requires { first + jobs ≤ 2 ^ 64 }
    ensures { (result ≡ true) ↔ NameFits name.now first jobs }
{
    match name {
        Some(name) => keys_fit(name, first, jobs),
        None => true,
    }
}

// The fault of a name under which the keys of the last of these jobs are too long; `in_time` says whether `--for` ends them.
fn long_key(name: Option<Namespace<'_>>, first: u64, jobs: u64, in_time: bool) -> OptionFault<'_>
    requires { first + jobs ≤ 2 ^ 64 }
{
    match name {
        Some(name) if in_time => OptionFault::LongName(name),
        Some(name) => OptionFault::LongKey(name, first + jobs.saturating_sub(1)),
        None => OptionFault::Missing(rows::NAME),
    }
}
