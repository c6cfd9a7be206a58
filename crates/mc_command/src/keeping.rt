//! Runs of one script whose connections serve the next run too.
ghost use Rattle.std.specs.Prelude.{◌≡◌, IfOk};
ghost use Rattle.std.specs.Arc.{arc_value};
ghost use Rattle.mc_command.specs.RunAnswers as answers;

use crate::evidence::later_evidence;
use crate::run::{Played, Ran, Remarks, no_connection, play_connections, wait_for_more};
use mc_cli::RunArgs;
use mc_connect::{Connection, Kept, Network, Socket, Unconnected};
use mc_core::Ending;
use mc_lane::Wire;
use mc_protocol::Actor;
use mc_run::Desk;
use mc_sound::Checked;
use std::alloc::{AllocError, Global};
use std::rt::Clock;
use std::sync::{Arc, Wait};
use std::thread::Threads;

/// Runs the code over the connections that are kept, or else over new ones, and judges what came of it. One that the server has closed
/// meanwhile, or on which bytes have come, is replaced before anything is sent. They are kept if all sections are done and nothing more
/// has come, whatever the verdict; with `target.reconnect` none are. If there is a desk, no thread is made for the run.
pub fn play_kept<R: Threads + Wait + Clock + Sync, N: Network>(
    rt: &R,
    alloc: Global,
    target: &RunArgs<'_>,
    checked: &Arc<Checked, Global>,
    network: &mut N,
    kept: &mut Kept<N::Connection>,
    desk: Option<&Desk<Wire<Socket<N::Connection>>>>,
) -> Result<(Played, Remarks), AllocError>
    ensures { IfOk result (λ played. answers.IsRightFor target.now.how.why (arc_value checked.now).code played.0) }
{
    let connections = match kept.take_or_connect(network) {
        Ok(connections) => connections,
        Err(Unconnected { section, error }) => return Ok(no_connection(section, error)),
    };
    let Ran {
        played,
        remarks,
        connections,
    } = play_connections(rt, alloc, target, checked, connections, desk)?;
    if !target.reconnect && is_clean(&played, &remarks) {
        kept.keep(connections);
    } else {
        // Another run may follow, and this side is not to run out of ports.
        network.release(connections);
    }
    Ok((played, remarks))
}

/// What standard error is to say of the run before the last one: what came on its connections once it was over.
pub fn later_remarks<C: Connection>(
    alloc: Global,
    kept: &mut Kept<C>,
) -> Result<Remarks, AllocError> {
    let came = kept.take_came();
    Ok(Remarks::Evidence(later_evidence(alloc, came.as_slice())?))
}

/// What standard error is to say of the last run, if its connections are kept: what came on them within 5 ms once it was over.
///
/// # Errors
///
/// That memory ran out.
pub fn last_remarks<R: Clock, C: Connection>(
    rt: &R,
    alloc: Global,
    kept: &mut Kept<C>,
) -> Result<Remarks, AllocError> {
    wait_for_more(rt);
    kept.look_again();
    later_remarks(alloc, kept)
}

// All sections of the run are done, and there is nothing to say of what they received.
fn is_clean(played: &Played, remarks: &Remarks) -> bool {
    match remarks {
        Remarks::Evidence(all) => all.is_empty() && is_done(played),
        Remarks::None | Remarks::NoConnection(_) | Remarks::WrongLine(_) => false,
    }
}

fn is_done(played: &Played) -> bool {
    match played {
        Played::Ended(world, _, _, _) => {
            world.ending(Actor::P) == Ending::Done
                && world.ending(Actor::A) == Ending::Done
                && world.ending(Actor::B) == Ending::Done
        }
        Played::NoConnection(_) | Played::NotRun => false,
    }
}
