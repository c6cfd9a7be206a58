//! The desk of a player, at whose other end a thread runs one branch of each of its runs.

use mc_connect::{Network, Socket};
use mc_lane::{Stream, Wire};
use mc_run::{Desk, FreeGate};
use std::alloc::{AllocError, Global};
use std::sync::Wait;
use std::thread::{Scope, Threads};

/// A desk for runs over connections of this network.
pub(crate) type DeskOf<N> = Desk<Wire<Socket<<N as Network>::Connection>>>;

/// A desk that a thread of this scope serves until it is dropped; or none if there is no such thread.
pub(crate) fn serve_desk<'s, E, S: Stream + Send + 's, R: Threads + Wait + Sync>(
    rt: &'s R,
    alloc: Global,
    scope: &Scope<'s, E>,
) -> Result<Option<Desk<S>>, AllocError> {
    let (desk, served) = Desk::new(alloc)?;
    let serve = move || served.serve(rt, alloc, &FreeGate);
    let is_served = scope.spawn(serve).is_ok();
    Ok(is_served.then_some(desk))
}
