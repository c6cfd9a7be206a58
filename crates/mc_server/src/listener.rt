//! Connections, each with a thread of its own.
ghost use Rattle.std.specs.Prelude.{◌≡◌};
ghost use Rattle.mc_server.specs.Listening.{Listens};

use crate::counts::Counts;
use crate::{Caller, Listened, Served, Why, serve};
use mc_lane::Wire;
use std::alloc::Global;
use std::io::Read;
use std::net::{Shutdown, TcpListener, TcpStream};
use std::rt::Clock;
use std::sync::Wait;
use std::thread;
use std::thread::{Builder, Scope, Threads};
use std::time::Duration;

/// How many bytes the stack of a connection's thread has.
const STACK_BYTES: usize = 131_072;

/// How long nothing is accepted after an accept that failed, in milliseconds: as where there are no more descriptors.
const REST: u64 = 10;

/// How long a client is waited for that was told why its connection is closed, in milliseconds, before each of the last reads.
const PATIENCE: u64 = 200;

/// How many reads there are at most after the last line.
const LAST_READS: u32 = 64;

/// Serves `connections` connections, each by a thread of its own, and returns when all of them have ended. A connection that got no
/// thread counts as one of them; an accept that failed doesn't. After 100 failed accepts in a row, of which each is followed by a rest of
/// 10 ms, no more connections are accepted.
pub fn listen<R: Threads + Wait + Clock + Sync, C: Caller>(
    rt: &R,
    alloc: Global,
    listener: &TcpListener,
    caller: &C,
    connections: u64,
) -> Listened
    ensures { Listens connections result }
{
    thread::scope(
        thread::scope_env(),
        rt,
        |scope| -> Listened
            ensures { Listens connections result }
        { serve_all(rt, alloc, listener, caller, connections, scope) },
    )
}

/// Serves `connections` connections, each by a thread of the scope.
fn serve_all<'s, E, R: Wait + Clock + Sync, C: Caller>(
    rt: &'s R,
    alloc: Global,
    listener: &TcpListener,
    caller: &'s C,
    connections: u64,
    scope: &Scope<'s, E>,
) -> Listened
    ensures { Listens connections result }
{
    let mut counts = Counts::new(connections);
    if connections == 0 {
        return counts.listened();
    }
    for _ in rt.forever() {
        if counts.are_over() {
            return counts.listened();
        }
        let Ok((stream, _)) = listener.accept() else {
            counts.count_failed();
            thread::sleep(rt, Duration::from_millis(REST));
            continue;
        };
        let serving = move || carry(rt, alloc, stream, caller);
        // the scope waits for the thread also without its handle
        match Builder::new()
            .stack_size(STACK_BYTES)
            .spawn_scoped(scope, serving)
        {
            Ok(_handle) => counts.count_served(),
            Err(_) => counts.count_refused(),
        }
    }
    unreachable!()
}

/// Serves one connection, and closes it.
fn carry<R: Wait, C: Caller>(rt: &R, alloc: Global, stream: TcpStream, caller: &C) {
    // replies that are small go out at once; where that is refused they come later
    let _ = stream.set_nodelay(true);
    let mut wire = Wire::new(&stream);
    let Served { why, .. } = serve(rt, alloc, &mut wire, caller);
    if !matches!(why, Why::Ended | Why::ReadFailed | Why::WriteFailed) {
        let_go(&stream);
    }
}

/// Lets the last line reach a client that may still be sending: nothing more is written, and what comes is read a little longer. If the
/// connection were closed with bytes that weren't read, the line could be lost. It isn't inlined, since its buffer would then lie on the
/// stack for as long as the connection is served.
#[inline(never)]
fn let_go(mut stream: &TcpStream) {
    let _ = stream.shutdown(Shutdown::Write);
    let _ = stream.set_read_timeout(Some(Duration::from_millis(PATIENCE)));
    let mut rest = [0; 4_096];
    for _ in 0..LAST_READS {
        match stream.read(&mut rest) {
            Ok(0) | Err(_) => return,
            Ok(_) => {}
        }
    }
}
