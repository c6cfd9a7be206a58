//! A run of code against a server, and what is written of it.
ghost use Rattle.std.specs.Arc.{arc_value};
ghost use Rattle.std.specs.Prelude.{◌≡◌, IfOk};
ghost use Rattle.mc_run.specs.Running.{AreNew};
ghost use Rattle.mc_trial.specs.Judged.{IsJudged};
ghost use Rattle.mc_command.specs.RunAnswers as answers;

use crate::evidence::evidence_of;
use crate::lanes::{new_lanes, take_sockets};
use crate::meeting::draw_meet;
use core::thread::Stack;
use mc_answers::{Counted, Status, endings_text, status_of_run, verdict_text, why_text};
use mc_cli::RunArgs;
use mc_connect::{Connection, Kept, Network, Socket, Unconnected};
use mc_core::World;
use mc_explain::Verdict;
use mc_history::print_history;
use mc_lane::{Stream, Wire};
use mc_model::History;
use mc_protocol::{Actor, Sections};
use mc_run::{Desk, FreeGate, Lanes, Run, RunError};
use mc_sound::Checked;
use mc_trial::{Judged, play, play_beside};
use std::alloc::{AllocError, Global};
use std::io;
use std::rt::Clock;
use std::sync::{Arc, Wait};
use std::thread::{Threads, sleep};
use std::time::Duration;

// The milliseconds within which something may come after the last reply.
const FOR_MORE: u64 = 5;

/// What came of a run.
#[derive(Drop)]
pub enum Played {
    /// The world of the run, its history, the verdict on it, and the text that says why nothing explains the history, which is empty
    /// where that isn't so or isn't asked for.
    Ended(World, History, Verdict, Vec<u8>),
    /// This section got no connection to the server.
    NoConnection(Actor),
    /// No thread could be made for a branch, or what was noted isn't what the connections recorded.
    NotRun,
}

/// What standard error says of a run, beside its answer.
#[derive(Drop)]
pub enum Remarks {
    /// Nothing.
    None,
    /// A section got no connection.
    NoConnection(Unconnected),
    /// The fault of the line that was found when the script had been read.
    WrongLine(String),
    /// What the sections received in the place of a reply, or after their last one: a remark on each, or none.
    Evidence(Vec<String>),
}

/// What came of a run, what standard error says of it, and its connections, as far as they are there.
#[derive(Drop)]
pub struct Ran<C> {
    pub played: Played,
    pub remarks: Remarks,
    pub connections: Sections<Option<C>>,
}

/// Runs the code over three new connections to the server, and judges what came of it. How its branches meet is drawn where the target
/// says so. What standard error is to say comes with the answer.
pub fn play_code<R: Threads + Wait + Clock + Sync, N: Network>(
    rt: &R,
    alloc: Global,
    target: &RunArgs<'_>,
    network: &mut N,
    checked: &Arc<Checked, Global>,
) -> Result<(Played, Remarks), AllocError>
    ensures { IfOk result (λ played. answers.IsRightFor target.now.how.why (arc_value checked.now).code played.0) }
{
    match Kept::new(alloc).take_or_connect(network) {
        Ok(connections) => {
            let lanes = new_lanes(alloc, connections);
            let judged = play_alone(rt, alloc, target, checked, lanes);
            let ran = end_run(rt, alloc, target, checked, judged)?;
            Ok((ran.played, ran.remarks))
        }
        Err(Unconnected { section, error }) => Ok(no_connection(section, error)),
    }
}

/// The answer where a section got no connection.
pub fn no_connection(section: Actor, error: io::Error) -> (Played, Remarks)
    ensures { result.0 ≡ Played.NoConnection section }
{
    (
        Played::NoConnection(section),
        Remarks::NoConnection(Unconnected { section, error }),
    )
}

/// The same over connections that are there. If there is a desk, no thread is made for the run.
pub fn play_connections<R: Threads + Wait + Clock + Sync, C: Connection>(
    rt: &R,
    alloc: Global,
    target: &RunArgs<'_>,
    checked: &Arc<Checked, Global>,
    connections: Sections<C>,
    desk: Option<&Desk<Wire<Socket<C>>>>,
) -> Result<Ran<C>, AllocError>
    ensures { IfOk result (λ ran. answers.IsRightFor target.now.how.why (arc_value checked.now).code ran.played) }
{
    let lanes = new_lanes(alloc, connections);
    let judged = match desk {
        Some(desk) => {
            let meet = draw_meet(rt, target.meeting, target.spread);
            let limit = target.how.limit;
            play_beside(rt, alloc, checked, lanes, &FreeGate, desk, meet, limit)
        }
        None => play_alone(rt, alloc, target, checked, lanes),
    };
    end_run(rt, alloc, target, checked, judged)
}

// Runs the code over the lanes, with a thread of its own for a branch.
fn play_alone<R: Threads + Wait + Clock + Sync, S: Stream + Send>(
    rt: &R,
    alloc: Global,
    target: &RunArgs<'_>,
    checked: &Arc<Checked, Global>,
    lanes: Lanes<S>,
) -> Result<Judged<S>, RunError>
    requires new { AreNew lanes }
    ensures judged { IfOk result (λ j. IsJudged (arc_value checked.now).code j.run.world j.run.lanes j.history j.verdict) }
{
    let meet = draw_meet(rt, target.meeting, target.spread);
    let limit = target.how.limit;
    play(
        rt,
        alloc,
        checked,
        lanes,
        &FreeGate,
        Stack::new(),
        meet,
        limit,
    )
}

// What came of a run of the code that was judged, or why there is none. Its lanes are closed.
fn end_run<R: Clock, C: Connection>(
    rt: &R,
    alloc: Global,
    target: &RunArgs<'_>,
    checked: &Checked,
    judged: Result<Judged<Wire<Socket<C>>>, RunError>,
) -> Result<Ran<C>, AllocError>
    requires { IfOk judged (λ j. IsJudged checked.now.code j.run.world j.run.lanes j.history j.verdict) }
    ensures { IfOk result (λ ran. answers.IsRightFor target.now.how.why checked.now.code ran.played) }
{
    let judged = match judged {
        Ok(judged) => judged,
        Err(RunError::OutOfMemory) => return Err(AllocError),
        Err(RunError::BookMismatch | RunError::NoThread) => return Ok(not_run()),
    };
    let Judged {
        run,
        history,
        verdict,
        turns: _,
    } = judged;
    let why = why_text(alloc, target.how, Counted::Printed, &history, &verdict)?;
    let Run { world, lanes } = run;
    if target.repeat.is_none() {
        // No other run finds what comes a little later.
        wait_for_more(rt);
    }
    let (evidence, connections) = close_lanes(alloc, target, &history, lanes)?;
    Ok(Ran {
        played: Played::Ended(world, history, verdict, why),
        remarks: Remarks::Evidence(evidence),
        connections,
    })
}

// A remark on each section of which there is something to say, and the connections of the lanes, which are closed.
fn close_lanes<C: Connection>(
    alloc: Global,
    target: &RunArgs<'_>,
    history: &History,
    mut lanes: Lanes<Wire<Socket<C>>>,
) -> Result<(Vec<String>, Sections<Option<C>>), AllocError> {
    let sockets = take_sockets(&mut lanes);
    let evidence = evidence_of(alloc, history, &lanes, &sockets, target.timeout)?;
    let Sections { p, a, b } = sockets;
    let connections = Sections {
        p: p.map(|it| it.into_connection()),
        a: a.map(|it| it.into_connection()),
        b: b.map(|it| it.into_connection()),
    };
    Ok((evidence, connections))
}

// The answer where there was no run.
fn not_run<C>() -> Ran<C>
    ensures { result.played ≡ Played.NotRun }
{
    Ran {
        played: Played::NotRun,
        remarks: Remarks::None,
        connections: Sections {
            p: None,
            a: None,
            b: None,
        },
    }
}

/// Waits for what a server may send after its last reply, before that is looked for the last time.
pub fn wait_for_more<R: Clock>(rt: &R) {
    sleep(rt, Duration::from_millis(FOR_MORE));
}

/// The text that is written for an answer.
pub fn text_of(alloc: Global, answer: &Played) -> Result<Vec<u8>, AllocError>
    ensures { IfOk result (λ text. text.items ≡ answers.text_of answer.now) }
{
    match answer {
        Played::Ended(world, history, verdict, why) => {
            ended_text(alloc, world, history, verdict, why.as_slice())
        }
        Played::NoConnection(section) => no_connection_text(alloc, *section),
        Played::NotRun => Vec::from_slice(alloc, b"not run\n"),
    }
}

fn ended_text(
    alloc: Global,
    world: &World,
    history: &History,
    verdict: &Verdict,
    why: &[u8],
) -> Result<Vec<u8>, AllocError>
    ensures { IfOk result (λ text. text.items ≡ answers.ended_text world.now history.now verdict.now why.now) }
{
    let verdict = verdict_text(alloc, verdict)?;
    let mut text = endings_text(alloc, world)?.into_bytes();
    text.extend_from_slice(verdict.as_slice())?;
    text.extend_from_slice(why)?;
    print_history(history, &mut text)?;
    Ok(text)
}

fn no_connection_text(alloc: Global, section: Actor) -> Result<Vec<u8>, AllocError>
    ensures { IfOk result (λ text. text.items ≡ answers.text_of (Played.NoConnection section)) }
{
    let text = format!(in alloc; "no connection {}\n", section.word())?;
    Ok(text.into_bytes())
}

/// The exit status of an answer.
pub fn status_of(answer: &Played) -> Status
    ensures { result ≡ answers.status_of answer.now }
{
    match answer {
        Played::Ended(world, _, verdict, _) => status_of_run(world, verdict),
        Played::NoConnection(_) | Played::NotRun => Status::NoAnswer,
    }
}
