//! What the values of `stress`'s options ask for.
ghost use Rattle.std.specs.Prelude.{◌≡◌, IfErr, IfOk};
ghost use Rattle.clap.specs.Words.{first_value, found_of};
ghost use Rattle.mc_cli.specs.Args.{IsStressArgs, IsStressPlan};

use crate::args::{StressArgs, StressPlan};
use crate::fault::OptionFault;
use crate::{options as rows, value};
use clap::ArgMatches;

/// The rounds that `stress` asks for.
pub fn read_stress<'a>(options: &ArgMatches<'a>) -> Result<StressArgs<'a>, OptionFault<'a>>
    ensures args { IfOk result (IsStressArgs (first_value (found_of options.now))) }
    ensures none { IfErr result (λ _. (args : StressArgs) → IsStressArgs (first_value (found_of options.now)) args → ⊥) }
{
    let server = value::address(options, &rows::TARGET)?;
    let plan = read_stress_plan(options)?;
    let rounds = value::optional(options, &rows::ROUNDS)?;
    let time = value::optional(options, &rows::FOR_OF_STRESS)?;
    let limit = value::optional(options, &rows::LIMIT_OF_STRESS)?;
    let name = value::name(options, &rows::NAME)?;
    let timeout = value::seconds(options, &rows::TIMEOUT)?;
    let wait = value::seconds(options, &rows::WAIT)?;
    Ok(StressArgs {
        server,
        plan,
        rounds,
        time,
        keep_going: value::is_set(options, &rows::KEEP_GOING_OF_STRESS),
        whole: value::is_set(options, &rows::WHOLE),
        smallest: value::is_set(options, &rows::SMALLEST),
        limit,
        why: value::is_set(options, &rows::WHY_OF_STRESS),
        name,
        timeout,
        wait,
        quiet: value::is_set(options, &rows::QUIET),
        stats: value::is_set(options, &rows::STATS_OF_STRESS),
        json: value::is_set(options, &rows::JSON_OF_STRESS),
    })
}

// What the clients of each round send.
fn read_stress_plan<'a>(options: &ArgMatches<'a>) -> Result<StressPlan, OptionFault<'a>>
    ensures plan { IfOk result (IsStressPlan (first_value (found_of options.now))) }
    ensures none { IfErr result (λ _. (plan : StressPlan) → IsStressPlan (first_value (found_of options.now)) plan → ⊥) }
{
    Ok(StressPlan {
        clients: value::number(options, &rows::CLIENTS)?,
        requests: value::number(options, &rows::REQUESTS)?,
        keys: value::number(options, &rows::KEYS)?,
        mix: value::mix(options, &rows::MIX)?,
        seed: value::number(options, &rows::SEED_OF_STRESS)?,
    })
}
