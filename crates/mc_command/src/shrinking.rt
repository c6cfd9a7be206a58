//! The script of a job, shrunk by new runs.
ghost use Rattle.std.specs.Prelude.{IfOk};
ghost use Rattle.mc_generate.specs.{Generated.generated, Shrunk.IsShrunk};

use mc_answers::verify_code;
use mc_campaign::{Campaign, Connector, Standing, play_job};
use mc_code::Code;
use mc_generate::{Shrinker, generate_script, put_under};
use mc_lane::Stream;
use mc_run::FreeGate;
use mc_script::Script;
use mc_settings::Namespace;
use mc_sound::Checked;
use std::alloc::{AllocError, Global};
use std::sync::Wait;
use std::thread::Threads;

// The most runs of smaller scripts.
const ROUNDS: u32 = 200;

/// What is left of the script of a job whose run was unexplained, without the campaign's name. Each smaller script is run up to `tries`
/// times, under that name, until it is unexplained. Each of these runs has keys of its own, since the server may still act on a request
/// of an earlier one. Where they have no room for that, none is run, and the whole script is left.
pub fn shrunk_script<S: Stream + Send, C: Connector<S>, R: Threads + Wait + Sync>(
    rt: &R,
    alloc: Global,
    campaign: Campaign<'_>,
    tries: u64,
    connector: &C,
    job: u64,
) -> Result<Script, AllocError>
    ensures { IfOk result (IsShrunk (generated campaign.entry.seed job)) }
{
    let script = generate_script(alloc, campaign.seed, job)?;
    let mut shrinker = Shrinker::new(script, ROUNDS);
    let mut played = 0;
    'rounds: while let Some(checked) = shrinker.next(alloc)? {
        let unexplained = becomes_unexplained(
            rt,
            alloc,
            campaign,
            tries,
            connector,
            job,
            checked.code(),
            &mut played,
        );
        shrinker.answer(unexplained);
    }
    Ok(shrinker.into_script())
}

// Whether one of at most `tries` runs of the code in place of that of the job has no explanation. `played` counts the runs of all scripts.
fn becomes_unexplained<S: Stream + Send, C: Connector<S>, R: Threads + Wait + Sync>(
    rt: &R,
    alloc: Global,
    campaign: Campaign<'_>,
    tries: u64,
    connector: &C,
    job: u64,
    code: &Code,
    played: &mut u64,
) -> bool {
    'tries: for _ in 0..tries {
        let Some(checked) = code_of_try(alloc, code, campaign.name, *played) else {
            return false;
        };
        *played = played.saturating_add(1);
        let outcome = play_job(rt, alloc, campaign, connector, &FreeGate, job, &checked);
        // A run without a connection, or a job that couldn't be run, counts as explained.
        if Standing::of(&outcome) == Standing::Unexplained {
            return true;
        }
    }
    false
}

// The code with its keys under the campaign's name, if it has one, and then under a name of this try alone. There is none if a key becomes
// too long, or there is no memory for it: the try counts as explained then.
fn code_of_try(
    alloc: Global,
    code: &Code,
    name: Option<&Namespace<'_>>,
    number: u64,
) -> Option<Checked> {
    let own = format!(in alloc; "t{number}").ok()?;
    let own = Namespace::new(own.as_bytes())?;
    let under = match name {
        Some(name) => put_under(alloc, &put_under(alloc, code, name).ok()?, &own),
        None => put_under(alloc, code, &own),
    };
    verify_code(alloc, under.ok()?).ok()?.ok()
}
