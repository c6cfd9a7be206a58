//! The command `campaign`, over any stream for output.
ghost use Rattle.std.specs.Prelude.{◌≡◌, ◌⊎◌, ◌+◌, ◌++◌, ◌≤◌, ◌^◌, ℕ, All, List, [], Option, Err, IfOk, false, true};
ghost use Rattle.std.specs.Option.{option_copied};
ghost use Rattle.mc_command.specs.Command.{WritesReport};
ghost use Rattle.mc_command.specs.CampaignAnswers as answers;
ghost use Rattle.mc_answers.specs.{Statuses.status_number, Streams.Grows, Writing.out_of_memory_text};

use crate::job_connector::JobConnector;
use crate::progress::lead;
use crate::reports::answer_campaign;
use crate::servers::campaign_servers;
use crate::shrinking::shrunk_script;
use crate::watching::{Teller, tell_start};
use mc_answers::{Answer, InputFault, Sink, Status, write_fault, write_text};
use mc_campaign::{Campaign, Connector};
use mc_cli::CampaignArgs;
use mc_connect::Dialer;
use mc_lane::Stream;
use mc_script::Script;
use mc_script_text::print;
use std::alloc::{AllocError, Global};
use std::io::Eprint;
use std::net::{Net, TcpListener, TcpStream};
use std::rt::Clock;
use std::sync::Wait;
use std::thread::Threads;

// What is written where there is no report.
const NOT_RUN: &[u8] = b"not run\n";

/// Runs the campaign against the server, and answers the exit status. What is known of its jobs before there is a report goes to
/// standard error, and how far it is, in a line of this many columns, if there is one. It waits for the servers.
pub fn run_campaign_at<'a, R, O: Sink>(
    rt: &'a R,
    alloc: Global,
    target: &'a CampaignArgs<'a>,
    columns: Option<usize>,
    output: &mut O,
) -> Status
where
    R: Net<Listener = TcpListener, Stream = TcpStream> + Threads + Wait + Clock + Sync + Eprint,
    ensures answered { O.has_failed output.old ≡ false → O.has_failed output.new ≡ false
        → WritesReport target.now.plan target.now.name (O.written output.old) (O.written output.new) result }
    ensures broken { O.has_failed output.old ≡ false → O.has_failed output.new ≡ true → result ≡ Status.NoAnswer }
{
    tell_start(rt, target.plan);
    let columns = if target.quiet { None } else { columns };
    let servers = campaign_servers(target);
    let dialer = Dialer::new(rt, alloc, servers, target.reconnect, lead(columns));
    let time = target.plan.until.and_then(|until| until.time);
    let connector = JobConnector::new(rt, &dialer, time);
    let mut teller = Teller::new(rt, alloc, &*target, columns, &dialer);
    let answer = answer_campaign(rt, alloc, target, &connector, &mut teller, output);
    dialer.quit();
    teller.end_report();
    teller.tell_totals();
    match answer {
        Ok(answer) => {
            let status = write_text(answer.output.as_slice(), answer.status, output);
            if target.stats {
                teller.tell_statistics();
            }
            status
        }
        Err(fault) => write_fault(fault, output),
    }
}

/// What is written where there is no report.
pub fn not_run(alloc: Global) -> Result<Answer, AllocError>
    ensures { IfOk result (λ answer. (answer.output.items ≡ answers.not_run_text) × (answer.status ≡ Status.NoAnswer)) }
{
    Ok(Answer {
        output: Vec::from_slice(alloc, NOT_RUN)?,
        status: Status::NoAnswer,
    })
}

/// What follows the report where this job is the first that is unexplained, if there is one.
pub fn end_text<S, C, R>(
    rt: &R,
    alloc: Global,
    campaign: Campaign<'_>,
    tries: u64,
    connector: &C,
    job: Option<u64>,
) -> Result<Vec<u8>, AllocError>
where
    S: Stream + Send,
    C: Connector<S>,
    R: Threads + Wait + Sync,
    ensures { IfOk result (λ text. answers.IsEnd campaign.entry.seed job text.items) }
{
    match job {
        Some(job) => {
            let script = shrunk_script(rt, alloc, campaign, tries, connector, job)?;
            shrunk_text(alloc, &script)
        }
        None => Ok(Vec::new(alloc)),
    }
}

// What is written after the report where a job is unexplained, of whose script this is left.
fn shrunk_text(alloc: Global, script: &Script) -> Result<Vec<u8>, AllocError>
    ensures { IfOk result (λ text. text.items ≡ answers.shrunk_text script.now) }
{
    let mut text = Vec::from_slice(alloc, b"shrunk\n")?;
    print(alloc, script, &mut text)?;
    Ok(text)
}
