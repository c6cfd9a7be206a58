//! The command `run`, over any streams for input and output.
ghost use Rattle.std.specs.Prelude.{◌≡◌, ℕ, ◌≤◌, List, length, None, IfOk, IfErr};
ghost use Rattle.std.specs.Arc.{arc_value};
ghost use Rattle.mc_answers.specs.Answers.{AnswersRightly, INPUT_LIMIT, IsAnswerBy, IsWhole};
ghost use Rattle.mc_answers.specs.{Statuses.status_number, Streams.TakesAtMost, Writing.WritesRightly};
ghost use Rattle.mc_answers.specs.Input as input_rule;
ghost use Rattle.mc_command.specs.RepeatAnswers.{AnswersFor, Runs};
ghost use Rattle.mc_command.specs.RunAnswers as run_answers;

use crate::repeated::write_runs;
use crate::run::{Remarks, play_code, status_of, text_of};
use crate::run_teller::{RunObserver, Unobserved};
use crate::servers::servers_of;
use crate::target_code::{read_target_code, unplayed_answer};
use mc_answers::{Answer, InputFault, Sink, Source, Status, read_text, write_fault, write_text};
use mc_cli::{RunArgs, Search};
use mc_connect::{Network, TcpNetwork};
use mc_sound::Checked;
use std::alloc::{AllocError, Global};
use std::net::{Net, TcpStream};
use std::rt::Clock;
use std::sync::{Arc, Wait};
use std::thread::Threads;

/// Runs the script on the input against the server that `target` names as HOST:PORT, and answers the exit status. An
/// explanation is searched for as `how` says, and how the branches meet is drawn.
///
/// At most 1,048,577 bytes of the input are read, and they are read whole before anything is connected. It waits for the
/// server.
pub fn run_command<R, I: Source, O: Sink>(
    rt: &R,
    alloc: Global,
    target: &str,
    how: Search,
    input: &mut I,
    output: &mut O,
) -> u8
where
    R: Net<Stream = TcpStream> + Threads + Wait + Clock + Sync,
    ensures { (ended : Status) × (result ≡ status_number ended)
        × AnswersRightly I.left I.has_failed O.written O.has_failed (Runs None how.why None)
        input.old input.new output.old output.new ended }
{
    let target = RunArgs::at(target, how);
    let mut network = TcpNetwork::new(rt, servers_of(&target));
    let (status, _) = run_target(
        rt,
        alloc,
        &target,
        &mut network,
        &mut Unobserved,
        input,
        output,
    );
    status.number()
}

/// Runs the script on the input as the target says, once or repeatedly, and answers the status of the run that is handed out, with what
/// standard error is to say of it. Where the target has a name, the script's keys are put under it first. Nothing is connected for a
/// script that is refused. The observer is told of each run.
pub fn run_target<R, N: Network, T: RunObserver, I: Source, O: Sink>(
    rt: &R,
    alloc: Global,
    target: &RunArgs<'_>,
    network: &mut N,
    observer: &mut T,
    input: &mut I,
    output: &mut O,
) -> (Status, Remarks)
where
    R: Threads + Wait + Clock + Sync,
    ensures { AnswersRightly I.left I.has_failed O.written O.has_failed
        (Runs target.now.repeat target.now.how.why target.now.name) input.old input.new output.old output.new result.0 }
{
    match read_code(alloc, target, input) {
        Ok(Ok(checked)) => write_code(rt, alloc, target, network, observer, &checked, output),
        Ok(Err((answer, remarks))) => {
            let status = write_text(answer.output.as_slice(), answer.status, output);
            (status, remarks)
        }
        Err(fault) => (write_fault(fault, output), Remarks::None),
    }
}

// Reads the input whole, and answers the code that is played; or what is written in place of a run, with what standard error says.
fn read_code<I: Source>(
    alloc: Global,
    target: &RunArgs<'_>,
    input: &mut I,
) -> Result<Result<Arc<Checked, Global>, (Answer, Remarks)>, InputFault>
    ensures code { IfOk result (λ read. IfOk read (λ checked. (text : List ℕ) × IsWhole (I.left input.old) text
        × (length text ≤ INPUT_LIMIT) × run_answers.SpellsUnder target.now.name text (arc_value checked).code)) }
    ensures unplayed { IfOk result (λ read. IfErr read (λ found. (text : List ℕ) × IsWhole (I.left input.old) text
        × IsAnswerBy (Runs target.now.repeat target.now.how.why target.now.name) text found.0.output.items found.0.status)) }
    ensures fails { input_rule.Fails (I.has_failed input.old) (I.has_failed input.new) result }
    ensures taken { TakesAtMost 1048577 (I.left input.old) (I.left input.new) }
{
    let text = match read_text(alloc, input)? {
        Ok(text) => text,
        Err(too_long) => return Ok(Err((too_long, Remarks::None))),
    };
    match read_target_code(alloc, target, text.as_slice()) {
        Ok(checked) => match Arc::new(alloc, checked) {
            Ok(shared) => Ok(Ok(shared)),
            Err(_) => Err(InputFault::OutOfMemory),
        },
        Err(unplayed) => Ok(Err(unplayed_answer(alloc, unplayed)?)),
    }
}

// Runs the code as the target says, and writes the run that is handed out.
fn write_code<R: Threads + Wait + Clock + Sync, N: Network, T: RunObserver, O: Sink>(
    rt: &R,
    alloc: Global,
    target: &RunArgs<'_>,
    network: &mut N,
    observer: &mut T,
    checked: &Arc<Checked, Global>,
    output: &mut O,
) -> (Status, Remarks)
    ensures { WritesRightly O.written O.has_failed (AnswersFor target.now.repeat target.now.how.why (arc_value checked.now).code)
        output.old output.new result.0 }
{
    match target.repeat {
        Some(repeat) => write_runs(
            rt, alloc, target, repeat, network, observer, checked, output,
        ),
        None => write_run(rt, alloc, target, network, observer, checked, output),
    }
}

// Runs the code once, and writes the run.
fn write_run<R: Threads + Wait + Clock + Sync, N: Network, T: RunObserver, O: Sink>(
    rt: &R,
    alloc: Global,
    target: &RunArgs<'_>,
    network: &mut N,
    observer: &mut T,
    checked: &Arc<Checked, Global>,
    output: &mut O,
) -> (Status, Remarks)
    ensures { WritesRightly O.written O.has_failed (run_answers.PlaysFor target.now.how.why (arc_value checked.now).code)
        output.old output.new result.0 }
{
    match answer_of_run(rt, alloc, target, network, observer, checked) {
        Ok((answer, remarks)) => {
            let status = write_text(answer.output.as_slice(), answer.status, output);
            (status, remarks)
        }
        Err(AllocError) => (write_fault(InputFault::OutOfMemory, output), Remarks::None),
    }
}

// Runs the code once, and answers what is written of the run.
fn answer_of_run<R: Threads + Wait + Clock + Sync, N: Network, T: RunObserver>(
    rt: &R,
    alloc: Global,
    target: &RunArgs<'_>,
    network: &mut N,
    observer: &mut T,
    checked: &Arc<Checked, Global>,
) -> Result<(Answer, Remarks), AllocError>
    ensures { IfOk result (λ found. run_answers.PlaysFor target.now.how.why (arc_value checked.now).code
        found.0.output.items found.0.status) }
{
    let (played, remarks) = play_code(rt, alloc, target, network, checked)?;
    observer.add(&played);
    let output = text_of(alloc, &played)?;
    let status = status_of(&played);
    Ok((Answer { output, status }, remarks))
}
