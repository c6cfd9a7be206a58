//! The second thread, which plays generated scripts over connections of its own.

use crate::beside::{Beside, has_processors, play_beside};
use crate::clocked::{ClockedNetwork, Slowest};
use crate::desk::serve_desk;
use crate::generated::Generated;
use crate::player::Player;
use crate::target::target_of;
use crate::verbs::Unsupported;
use mc_cli::{RunArgs, TestArgs};
use mc_command::servers_of;
use mc_connect::{Network, TcpNetwork};
use std::alloc::Global;
use std::io::Eprint;
use std::net::{Net, TcpListener, TcpStream};
use std::rt::Clock;
use std::sync::Wait;
use std::thread::{self, Builder, JoinHandle, Scope, Threads};
use std::time::{Duration, Instant};

/// What a second thread plays with.
#[derive(Drop)]
pub(crate) struct Second<'s, R> {
    pub(crate) rt: &'s R,
    pub(crate) args: &'s TestArgs<'s>,
    pub(crate) slowest: &'s Slowest,
    pub(crate) beside: &'s Beside,
}

/// What it plays.
#[derive(Drop)]
pub(crate) struct Orders {
    pub(crate) unsupported: Unsupported,
    pub(crate) generated: Generated,
    /// When the test began, and how long it may take.
    pub(crate) begun: Instant,
    pub(crate) time: Duration,
}

/// Starts it as a thread of this scope, if there are processors for it.
pub(crate) fn start_second<'s, E, R>(
    alloc: Global,
    second: &Second<'s, R>,
    orders: Orders,
    scope: &Scope<'s, E>,
) -> Option<JoinHandle<()>>
where
    R: Net<Listener = TcpListener, Stream = TcpStream> + Threads + Wait + Clock + Sync + Eprint,
{
    let (rt, args) = (second.rt, second.args);
    let (slowest, beside) = (second.slowest, second.beside);
    if !has_processors(rt) {
        return None;
    }
    let playing = move || play_second(rt, alloc, args, slowest, orders, beside);
    Builder::new().spawn_scoped(scope, playing).ok()
}

// Plays generated scripts until the first thread is done, or the time is over. The check asks for `Listener` too: a type that `Net` leaves
// open may be no other thread's.
fn play_second<R>(
    rt: &R,
    alloc: Global,
    args: &TestArgs<'_>,
    slowest: &Slowest,
    orders: Orders,
    beside: &Beside,
)
where
    R: Net<Listener = TcpListener, Stream = TcpStream> + Threads + Wait + Clock + Sync + Eprint,
{
    let mut target = target_of(args);
    target.wait = None;
    let network = TcpNetwork::new(rt, servers_of(&target));
    let mut network = ClockedNetwork::new(rt, network, slowest);
    play_over(rt, alloc, target, &mut network, slowest, orders, beside);
}

// The same over these connections, with one more thread for a branch of each run.
fn play_over<R: Threads + Wait + Clock + Sync + Eprint, N: Network>(
    rt: &R,
    alloc: Global,
    target: RunArgs<'_>,
    network: &mut N,
    slowest: &Slowest,
    orders: Orders,
    beside: &Beside,
) {
    let Orders {
        unsupported,
        generated,
        begun,
        time,
    } = orders;
    thread::scope(thread::scope_env(), rt, move |scope| {
        let Ok(desk) = serve_desk(rt, alloc, scope) else {
            return beside.fail(rt);
        };
        let mut player = Player::new(rt, alloc, target, network, desk, slowest, begun, time, None);
        play_beside(&mut player, &unsupported, generated, beside);
        player.quit();
    })
}
