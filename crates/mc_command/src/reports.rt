//! The reports of a campaign, one after the other.
ghost use Rattle.std.specs.Prelude.{◌≡◌, ◌≢◌, ◌⊎◌, ◌+◌, ◌-◌, ◌<◌, ◌≤◌, ◌^◌, ◌++◌, ℕ, List, [], false, true};
ghost use Rattle.std.specs.Prelude.{Err, IfErr, IfOk, None, OnOk, Option, Some, is_some, option_map};
ghost use Rattle.std.specs.Option.{option_copied};
ghost use Rattle.mc_campaign.specs.Runs.{Allows, IsOver};
ghost use Rattle.mc_command.specs.Tallies.{HasGathered, HasReported, HasSettings, Waits};
ghost use Rattle.mc_command.specs.CampaignReports.{CampaignsUntil, EndsRightly, EndsWith, jobs_of};
ghost use Rattle.mc_cli.specs.Args as args;
ghost use Rattle.mc_answers.specs.{Streams.Grows, Writing.out_of_memory_text};
ghost use Rattle.mc_answers.specs.declared.status.Status.TheVariants as status;

use crate::campaigning::{end_text, not_run};
use crate::gathered::Gathered;
use crate::watching::Teller;
use mc_answers::{Answer, Broken, InputFault, Sink};
use mc_campaign::{Bounds, Campaign, CampaignError, Connector, run_jobs};
use mc_cli::{CampaignArgs, GREATEST_JOBS, GREATEST_WORKERS, Plan, Until, has_last};
use mc_lane::Stream;
use mc_run::FreeGate;
use std::alloc::{AllocError, Global};
use std::io::Eprint;
use std::rt::Clock;
use std::sync::Wait;
use std::thread::Threads;

/// Why a campaign broke off between its reports.
#[derive(Clone, Copy, Drop, PartialEq, Eq)]
pub enum Stop {
    /// No thread could be made for a worker.
    NotRun,
    /// Memory ran out outside the jobs.
    OutOfMemory,
    /// The output has failed.
    Broken,
}

impl From<AllocError> for Stop {
    ghost use Rattle.mc_command.specs.declared.reports.Stop.TheVariants.{OutOfMemory};

    ghost from_gives = { λ _ e. e ≡ OutOfMemory };

    fn from(_e: AllocError) -> Stop {
        Stop::OutOfMemory
    }
}

impl From<Broken> for Stop {
    ghost use Rattle.mc_command.specs.declared.reports.Stop.TheVariants.{Broken};

    ghost from_gives = { λ _ e. e ≡ Broken };

    fn from(_e: Broken) -> Stop {
        Stop::Broken
    }
}

/// Runs the campaign and writes its reports to the output, each as soon as it is whole and another job follows; but for the last one,
/// which is answered with what follows it, or why there is none, and the exit status.
pub fn answer_campaign<S, C, R, O>(
    rt: &R,
    alloc: Global,
    target: &CampaignArgs<'_>,
    connector: &C,
    teller: &mut Teller<'_, R>,
    output: &mut O,
) -> Result<Answer, InputFault>
where
    S: Stream + Send,
    C: Connector<S>,
    R: Threads + Wait + Clock + Sync + Eprint,
    O: Sink,
    ensures answered { IfOk result (λ answer. (O.has_failed output.new ≡ O.has_failed output.old)
        × (before : List ℕ) × Grows (O.written output.old) (O.written output.new) before
        × CampaignsUntil S target.now.plan.until target.now.plan target.now.name (before ++ answer.output.items) answer.status) }
    ensures memory { result ≡ Err InputFault.OutOfMemory → (O.has_failed output.new ≡ O.has_failed output.old)
        × (before : List ℕ) × Grows (O.written output.old) (O.written output.new) before
        × ((before ≡ [])
        ⊎ CampaignsUntil S target.now.plan.until target.now.plan target.now.name (before ++ out_of_memory_text) status.NoAnswer) }
    ensures broken { result ≡ Err InputFault.Broken → O.has_failed output.new ≡ true }
{
    if !may_run(target.plan) {
        return Ok(not_run(alloc)?);
    }
    let until = until_of(target.plan.until);
    match run_reports(rt, alloc, target, until, connector, teller, output) {
        Ok(gathered) => Ok(last_answer(rt, alloc, target, connector, gathered)?),
        Err(Stop::NotRun) => Ok(not_run(alloc)?),
        Err(Stop::OutOfMemory) => Err(InputFault::OutOfMemory),
        Err(Stop::Broken) => Err(InputFault::Broken),
    }
}

// Where nothing is said of an end, all jobs are run.
fn until_of(asked: Option<Until>) -> Until
    ensures found { (found : Until) → asked ≡ Some found → result ≡ found }
    ensures none { asked ≡ None → (result.time ≡ None) × (result.unexplained ≡ None) }
{
    match asked {
        Some(until) => until,
        None => Until {
            time: None,
            unexplained: None,
        },
    }
}

// A line may name this campaign.
fn may_run(plan: Plan) -> bool
    ensures first { plan.first < 2 ^ 64 }
    ensures jobs { plan.jobs < 2 ^ 64 }
    ensures line { result ≡ true → (plan.workers ≤ 16) × (plan.first + plan.jobs ≤ 2 ^ 64) }
    ensures one { result ≡ true → plan.until ≡ None → plan.jobs ≤ args.GREATEST_JOBS }
{
    let is_short = plan.until.is_some() || plan.jobs <= GREATEST_JOBS;
    is_short && plan.workers <= GREATEST_WORKERS && has_last(plan.first, plan.jobs)
}

// Runs the jobs of one report after the other, until no job begins, and writes each that is whole where another begins.
fn run_reports<S, C, R, O>(
    rt: &R,
    alloc: Global,
    target: &CampaignArgs<'_>,
    until: Until,
    connector: &C,
    teller: &mut Teller<'_, R>,
    output: &mut O,
) -> Result<Gathered, Stop>
where
    S: Stream + Send,
    C: Connector<S>,
    R: Threads + Wait + Clock + Sync + Eprint,
    O: Sink,
    requires workers { target.now.plan.workers ≤ 16 }
    requires first { target.now.plan.first < 2 ^ 64 }
    requires jobs { target.now.plan.jobs < 2 ^ 64 }
    requires last { target.now.plan.first + target.now.plan.jobs ≤ 2 ^ 64 }
    ensures gathered { IfOk result (λ gathered. (O.has_failed output.new ≡ O.has_failed output.old)
        × (has : HasGathered S target.now.plan until target.now.name gathered (O.written output.old) (O.written output.new))
        × EndsRightly until target.now.plan.jobs (jobs_of has.whole has.last)) }
    ensures broken { result ≡ Err Stop.Broken → O.has_failed output.new ≡ true }
    ensures stopped { IfErr result (λ stop. stop ≢ Stop.Broken → (O.has_failed output.new ≡ O.has_failed output.old)
        × HasReported S target.now.plan target.now.name (O.written output.old) (O.written output.new)) }
{
    let mut gathered = Gathered::new(alloc, target.plan);
    'reports: for _ in rt.forever() {
        gathered = run_report(rt, alloc, target, until, connector, teller, gathered)?;
        if !goes_on(target.plan.jobs, until, connector.is_over(), &gathered) {
            return Ok(gathered);
        }
        write_report::<S, _, _>(target.plan.brief, teller, &mut gathered, output)?;
    }
    unreachable!()
}

// Whether another report follows.
fn goes_on(jobs: u64, until: Until, is_over: bool, gathered: &Gathered) -> bool
    ensures whole { result ≡ true → args.GREATEST_JOBS ≤ gathered.now.report.jobs }
    ensures more { result ≡ true → gathered.now.tally.jobs < jobs }
    ensures allowed { result ≡ true → Allows until.unexplained gathered.now.tally.unexplained }
    ensures over { result ≡ false → (gathered.now.report.jobs < args.GREATEST_JOBS)
        ⊎ IsOver (record { unexplained = until.unexplained; has_time = is_some until.time }) jobs gathered.now.tally.jobs
        gathered.now.tally.unexplained }
{
    let tally = gathered.tally;
    let bounds = Bounds {
        unexplained: until.unexplained,
        has_time: until.time.is_some(),
    };
    gathered.report.jobs >= GREATEST_JOBS
        && bounds.allow(jobs, tally.jobs, tally.unexplained, is_over)
}

// Writes a report that is whole.
fn write_report<S, R, O>(
    brief: bool,
    teller: &mut Teller<'_, R>,
    gathered: &mut Gathered,
    output: &mut O,
) -> Result<(), Stop>
where
    S: Stream,
    R: Wait + Clock + Eprint,
    O: Sink,
    requires { brief ≡ gathered.old.report.brief }
    ensures unbroken { OnOk result (O.has_failed output.new ≡ O.has_failed output.old) }
    ensures tally { gathered.new.tally ≡ gathered.old.tally }
    ensures waits { OnOk result ((plan : Plan) (until : Until) (name : Option (List ℕ)) (earlier : Option (List ℕ))
        → HasGathered S plan until name gathered.old earlier (O.written output.old)
        → args.GREATEST_JOBS ≤ gathered.old.report.jobs → gathered.old.tally.jobs < plan.jobs
        → Allows until.unexplained gathered.old.tally.unexplained
        → Waits S plan until name gathered.new earlier (O.written output.new)) }
    ensures broken { result ≡ Err Stop.Broken → O.has_failed output.new ≡ true }
    ensures stopped { IfErr result (λ stop. stop ≢ Stop.Broken → output.new ≡ output.old) }
{
    let text = gathered.take_report(brief)?;
    teller.end_report();
    output.write_all(text.as_slice())?;
    Ok(())
}

// Runs the jobs of the next report.
fn run_report<S, C, R>(
    rt: &R,
    alloc: Global,
    target: &CampaignArgs<'_>,
    until: Until,
    connector: &C,
    teller: &mut Teller<'_, R>,
    gathered: Gathered,
) -> Result<Gathered, Stop>
where
    S: Stream + Send,
    C: Connector<S>,
    R: Threads + Wait + Clock + Sync + Eprint,
    requires workers { target.now.plan.workers ≤ 16 }
    requires jobs { target.now.plan.jobs < 2 ^ 64 }
    requires last { target.now.plan.first + target.now.plan.jobs ≤ 2 ^ 64 }
    requires done { gathered.tally.jobs ≤ target.now.plan.jobs }
    requires first { target.now.plan.first + gathered.tally.jobs < 2 ^ 64 }
    ensures gathered { IfOk result (λ now. (old new : Option (List ℕ)) → Waits S target.now.plan until target.now.name gathered old new
        → HasGathered S target.now.plan until target.now.name now old new) }
    ensures unbroken { result ≡ Err Stop.Broken → ⊥ }
{
    let plan = target.plan;
    let done = gathered.tally.jobs;
    let jobs = GREATEST_JOBS.min(plan.jobs - done);
    let campaign = campaign_of(target, plan.first + done, jobs);
    let bounds = bounds_after(until, gathered.tally.unexplained);
    match run_jobs(
        rt,
        alloc,
        campaign,
        bounds,
        plan.workers,
        connector,
        &FreeGate,
        teller,
        gathered,
    ) {
        Ok(gathered) => Ok(gathered),
        Err(CampaignError::NoThread) => Err(Stop::NotRun),
        Err(CampaignError::OutOfMemory) => Err(Stop::OutOfMemory),
    }
}

// What ends the campaign after jobs of which as many were unexplained.
fn bounds_after(until: Until, unexplained: u64) -> Bounds
    ensures unexplained { result.unexplained ≡ option_map (λ most. most - unexplained) until.unexplained }
    ensures time { result.has_time ≡ is_some until.time }
{
    Bounds {
        unexplained: until
            .unexplained
            .map(|most| most.saturating_sub(unexplained)),
        has_time: until.time.is_some(),
    }
}

// The campaign of some of the jobs alone.
fn campaign_of<'a>(target: &'a CampaignArgs<'_>, first: u64, jobs: u64) -> Campaign<'a>
    ensures seed { result.seed ≡ target.now.plan.seed }
    ensures first { result.first ≡ first }
    ensures jobs { result.jobs ≡ jobs }
    ensures name { option_copied result.name ≡ target.now.name }
{
    Campaign {
        seed: target.plan.seed,
        first,
        jobs,
        limit: target.plan.limit,
        meeting: target.meeting,
        spread: target.spread,
        name: target.name.as_ref(),
    }
}

// The last report, with what follows it, and the exit status.
fn last_answer<S, C, R>(
    rt: &R,
    alloc: Global,
    target: &CampaignArgs<'_>,
    connector: &C,
    gathered: Gathered,
) -> Result<Answer, AllocError>
where
    S: Stream + Send,
    C: Connector<S>,
    R: Threads + Wait + Sync,
    requires { HasSettings target.now.plan gathered }
    ensures { IfOk result (λ answer. (until : Until) (old new : Option (List ℕ))
        → (has : HasGathered S target.now.plan until target.now.name gathered old new)
        → EndsRightly until target.now.plan.jobs (jobs_of has.whole has.last)
        → EndsWith target.now.plan until has.whole has.last answer.output.items answer.status) }
{
    let plan = target.plan;
    let mut gathered = gathered;
    let mut output = gathered.take_report(plan.brief)?;
    let campaign = campaign_of(target, plan.first, plan.jobs);
    let end = end_text(
        rt,
        alloc,
        campaign,
        plan.tries,
        connector,
        gathered.tally.first,
    )?;
    output.extend_from_slice(end.as_slice())?;
    output.extend_from_slice(gathered.shown.as_slice())?;
    Ok(Answer {
        output,
        status: gathered.tally.status,
    })
}
