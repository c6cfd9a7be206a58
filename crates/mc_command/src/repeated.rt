//! What `run` writes where a script is run repeatedly.
ghost use Rattle.std.specs.Prelude.{◌≡◌, Bool, false, true, string_bytes, IfOk};
ghost use Rattle.std.specs.Arc.{arc_value};
ghost use Rattle.mc_code.specs.Code.{Code};
ghost use Rattle.mc_answers.specs.Writing.{WritesRightly};
ghost use Rattle.mc_command.specs.RepeatAnswers as answers;
ghost use Rattle.mc_command.specs.SoFar.{AreFirst};

use crate::keeping::last_remarks;
use crate::repeating::{Runs, first_runs, go_on};
use crate::run::{Remarks, status_of, text_of};
use crate::run_teller::RunObserver;
use crate::totals::Totals;
use mc_answers::{InputFault, Sink, Status, write_fault, write_text};
use mc_cli::{Repeat, RunArgs};
use mc_connect::{Connection, Kept, Network, Socket};
use mc_lane::Wire;
use mc_run::{Desk, FreeGate};
use mc_sound::Checked;
use std::alloc::{AllocError, Global};
use std::io;
use std::rt::Clock;
use std::sync::{Arc, Wait};
use std::thread::{self, Threads};
use std::time::Instant;

/// Runs the code as often as `repeat` says, with one second thread for all runs. It writes which run is handed out, that run, and the
/// totals of all, and answers its status, with what standard error is to say of it. With `repeat.keep_going` a run whose status isn't 0 is
/// written as soon as it has ended, and the totals once all have.
pub fn write_runs<R: Threads + Wait + Clock + Sync, N: Network, T: RunObserver, O: Sink>(
    rt: &R,
    alloc: Global,
    target: &RunArgs<'_>,
    repeat: Repeat,
    network: &mut N,
    observer: &mut T,
    checked: &Arc<Checked, Global>,
    output: &mut O,
) -> (Status, Remarks)
    ensures { WritesRightly O.written O.has_failed (answers.RepeatsFor repeat target.now.how.why (arc_value checked.now).code)
        output.old output.new result.0 }
{
    let mut kept = Kept::new(alloc);
    observer.begin(repeat.times);
    let written = write_over(
        rt, alloc, target, repeat, checked, network, observer, &mut kept, output,
    );
    kept.quit(network);
    written
}

// The first runs, with a second thread that is kept until they have ended. If it can't be made, each run tries to make its own.
fn first_beside<R: Threads + Wait + Clock + Sync, N: Network, T: RunObserver>(
    rt: &R,
    alloc: Global,
    target: &RunArgs<'_>,
    repeat: Repeat,
    begun: &io::Result<Instant>,
    checked: &Arc<Checked, Global>,
    network: &mut N,
    observer: &mut T,
    kept: &mut Kept<N::Connection>,
) -> Result<Runs, AllocError>
    ensures { IfOk result (λ runs. AreFirst repeat target.now.how.why (arc_value checked.now).code runs) }
{
    let (desk, second) = Desk::new(alloc)?;
    thread::scope(
        thread::scope_env(),
        rt,
        move |scope| -> Result<Runs, AllocError>
            ensures { IfOk result (λ runs. AreFirst repeat target.entry.now.how.why (arc_value checked.entry.now).code runs) }
        {
            let serve = move || second.serve(rt, alloc, &FreeGate);
            let is_served = scope.spawn(serve).is_ok();
            let lent = is_served.then_some(&desk);
            let runs = first_runs(
                rt, alloc, target, repeat, begun, checked, network, observer, kept, lent,
            );
            drop(desk);
            runs
        },
    )
}

// The same over the connections that are kept.
fn write_over<R: Threads + Wait + Clock + Sync, N: Network, T: RunObserver, O: Sink>(
    rt: &R,
    alloc: Global,
    target: &RunArgs<'_>,
    repeat: Repeat,
    checked: &Arc<Checked, Global>,
    network: &mut N,
    observer: &mut T,
    kept: &mut Kept<N::Connection>,
    output: &mut O,
) -> (Status, Remarks)
    ensures { WritesRightly O.written O.has_failed (answers.RepeatsFor repeat target.now.how.why (arc_value checked.now).code)
        output.old output.new result.0 }
{
    let begun = Instant::now(rt);
    let first = first_beside(
        rt, alloc, target, repeat, &begun, checked, network, observer, kept,
    );
    observer.give_way();
    let Ok(runs) = first else {
        return (write_fault(InputFault::OutOfMemory, output), Remarks::None);
    };
    if runs.may_go_on(repeat.keep_going) {
        write_and_go_on(
            rt, alloc, target, repeat, &begun, checked, network, observer, kept, runs, output,
        )
    } else {
        write_last(rt, alloc, repeat, runs, kept, output)
    }
}

// Writes the run that is handed out and the totals, where no run follows.
fn write_last<R: Clock, C: Connection, O: Sink>(
    rt: &R,
    alloc: Global,
    repeat: Repeat,
    runs: Runs,
    kept: &mut Kept<C>,
    output: &mut O,
) -> (Status, Remarks)
    ensures { (why : Bool) (code : Code) → answers.Comes repeat why code runs.number runs.played runs.totals
        → WritesRightly O.written O.has_failed (answers.RepeatsFor repeat why code) output.old output.new result.0 }
{
    match repeated_text(alloc, repeat, &runs) {
        Ok(text) => {
            let status = write_text(text.as_slice(), status_of(&runs.played), output);
            (status, with_last_remarks(rt, alloc, runs.remarks, kept))
        }
        Err(AllocError) => (write_fault(InputFault::OutOfMemory, output), Remarks::None),
    }
}

// What standard error is to say of the last run, which has these remarks. It has none if its connections are kept.
fn with_last_remarks<R: Clock, C: Connection>(
    rt: &R,
    alloc: Global,
    remarks: Remarks,
    kept: &mut Kept<C>,
) -> Remarks {
    let Ok(later) = last_remarks(rt, alloc, kept) else {
        // Without memory for it, it isn't told.
        return remarks;
    };
    if has_evidence(&later) { later } else { remarks }
}

// Whether there is something to say of what a run received.
fn has_evidence(remarks: &Remarks) -> bool {
    match remarks {
        Remarks::Evidence(all) => !all.is_empty(),
        Remarks::None | Remarks::NoConnection(_) | Remarks::WrongLine(_) => false,
    }
}

// Writes the run that is handed out, and the totals once the other runs have ended.
fn write_and_go_on<R: Threads + Wait + Clock + Sync, N: Network, T: RunObserver, O: Sink>(
    rt: &R,
    alloc: Global,
    target: &RunArgs<'_>,
    repeat: Repeat,
    begun: &io::Result<Instant>,
    checked: &Arc<Checked, Global>,
    network: &mut N,
    observer: &mut T,
    kept: &mut Kept<N::Connection>,
    first: Runs,
    output: &mut O,
) -> (Status, Remarks)
    requires first { AreFirst repeat target.now.how.why (arc_value checked.now).code first }
    requires failed { answers.succeeds first.played ≡ false }
    requires keeps_going { repeat.keep_going ≡ true }
    ensures { WritesRightly O.written O.has_failed (answers.RepeatsFor repeat target.now.how.why (arc_value checked.now).code)
        output.old output.new result.0 }
{
    let Ok(text) = found_text(alloc, repeat.times, &first) else {
        return (write_fault(InputFault::OutOfMemory, output), Remarks::None);
    };
    let Ok(()) = output.write_all(text.as_slice()) else {
        return (Status::NoAnswer, first.remarks);
    };
    observer.find(&first.remarks);
    let status = status_of(&first.played);
    let totals = totals_line(
        rt, alloc, target, repeat, begun, checked, network, observer, kept, first,
    );
    observer.give_way();
    match totals {
        Ok(line) => (write_text(line.as_bytes(), status, output), Remarks::None),
        Err(AllocError) => (write_fault(InputFault::OutOfMemory, output), Remarks::None),
    }
}

// Runs the code on, and answers the line of the totals of all runs.
fn totals_line<R: Threads + Wait + Clock + Sync, N: Network, T: RunObserver>(
    rt: &R,
    alloc: Global,
    target: &RunArgs<'_>,
    repeat: Repeat,
    begun: &io::Result<Instant>,
    checked: &Arc<Checked, Global>,
    network: &mut N,
    observer: &mut T,
    kept: &mut Kept<N::Connection>,
    first: Runs,
) -> Result<String, AllocError>
    requires first { AreFirst repeat target.now.how.why (arc_value checked.now).code first }
    requires failed { answers.succeeds first.played ≡ false }
    requires keeps_going { repeat.keep_going ≡ true }
    ensures { IfOk result (λ line. answers.AreTotals repeat target.now.how.why (arc_value checked.now).code first.number first.played
        (string_bytes line)) }
{
    let totals = go_on_to_last(
        rt, alloc, target, repeat, begun, checked, network, observer, kept, first,
    )?;
    totals.line(alloc)
}

// Runs the code on, and tells the observer what has come after the last run.
fn go_on_to_last<R: Threads + Wait + Clock + Sync, N: Network, T: RunObserver>(
    rt: &R,
    alloc: Global,
    target: &RunArgs<'_>,
    repeat: Repeat,
    begun: &io::Result<Instant>,
    checked: &Arc<Checked, Global>,
    network: &mut N,
    observer: &mut T,
    kept: &mut Kept<N::Connection>,
    first: Runs,
) -> Result<Totals, AllocError>
    requires first { AreFirst repeat target.now.how.why (arc_value checked.now).code first }
    requires failed { answers.succeeds first.played ≡ false }
    requires keeps_going { repeat.keep_going ≡ true }
    ensures { IfOk result (λ totals.
        answers.Comes repeat target.now.how.why (arc_value checked.now).code first.number first.played totals) }
{
    let totals = go_on_beside(
        rt, alloc, target, repeat, begun, checked, network, observer, kept, first,
    )?;
    tell_last(rt, alloc, totals.runs, observer, kept)?;
    Ok(totals)
}

// The runs after the one that is handed out, over a desk as the first ones.
fn go_on_beside<R: Threads + Wait + Clock + Sync, N: Network, T: RunObserver>(
    rt: &R,
    alloc: Global,
    target: &RunArgs<'_>,
    repeat: Repeat,
    begun: &io::Result<Instant>,
    checked: &Arc<Checked, Global>,
    network: &mut N,
    observer: &mut T,
    kept: &mut Kept<N::Connection>,
    first: Runs,
) -> Result<Totals, AllocError>
    requires first { AreFirst repeat target.now.how.why (arc_value checked.now).code first }
    requires failed { answers.succeeds first.played ≡ false }
    requires keeps_going { repeat.keep_going ≡ true }
    ensures { IfOk result (λ totals.
        answers.Comes repeat target.now.how.why (arc_value checked.now).code first.number first.played totals) }
{
    let (desk, second) = Desk::new(alloc)?;
    thread::scope(
        thread::scope_env(),
        rt,
        move |scope| -> Result<Totals, AllocError>
            requires first { AreFirst repeat target.now.how.why (arc_value checked.now).code first }
            requires failed { answers.succeeds first.played ≡ false }
            requires keeps_going { repeat.keep_going ≡ true }
            ensures { IfOk result (λ totals.
                answers.Comes repeat target.entry.now.how.why (arc_value checked.entry.now).code first.number first.played totals) }
        {
            let serve = move || second.serve(rt, alloc, &FreeGate);
            let is_served = scope.spawn(serve).is_ok();
            let lent = is_served.then_some(&desk);
            let totals = go_on(
                rt, alloc, target, repeat, begun, checked, network, observer, kept, lent, first,
            );
            drop(desk);
            totals
        },
    )
}

// Tells the observer of the last run, which has this number, with what has come on its connections since.
fn tell_last<R: Clock, C: Connection, T: RunObserver>(
    rt: &R,
    alloc: Global,
    number: u64,
    observer: &mut T,
    kept: &mut Kept<C>,
) -> Result<(), AllocError> {
    let remarks = last_remarks(rt, alloc, kept)?;
    observer.pass_over(number, &remarks);
    Ok(())
}

// What is written of the run that is handed out, and of the totals.
fn repeated_text(alloc: Global, repeat: Repeat, runs: &Runs) -> Result<Vec<u8>, AllocError>
    ensures { IfOk result (λ text. text.items
        ≡ answers.repeated_text repeat runs.now.number runs.now.totals runs.now.played) }
{
    let totals = runs.totals.line(alloc)?;
    if repeat.keep_going {
        let mut text = found_text(alloc, repeat.times, runs)?;
        text.extend_from_slice(totals.as_bytes())?;
        return Ok(text);
    }
    let played = text_of(alloc, &runs.played)?;
    let mut text = run_line(alloc, repeat.times, runs.number)?.into_bytes();
    text.extend_from_slice(totals.as_bytes())?;
    text.extend_from_slice(played.as_slice())?;
    Ok(text)
}

// What is written of the run that is handed out.
fn found_text(alloc: Global, times: Option<u64>, runs: &Runs) -> Result<Vec<u8>, AllocError>
    ensures { IfOk result (λ text. text.items ≡ answers.found_text times runs.now.number runs.now.played) }
{
    let played = text_of(alloc, &runs.played)?;
    let mut text = run_line(alloc, times, runs.number)?.into_bytes();
    text.extend_from_slice(played.as_slice())?;
    Ok(text)
}

// The line that says which run follows, of how many where that is known.
fn run_line(alloc: Global, times: Option<u64>, number: u64) -> Result<String, AllocError>
    ensures { IfOk result (λ line. string_bytes line ≡ answers.run_line times number) }
{
    match times {
        Some(times) => format!(in alloc; "run {number} of {times}\n"),
        None => format!(in alloc; "run {number}\n"),
    }
}
