//! What answers requests.
use crate::StoreFault;
use mc_protocol::{Reply, Request};
use std::sync::Wait;

/// What answers requests, from any thread.
pub trait Caller: Sync {
    ghost use Rattle.mc_server.specs.Callers.{MayAnswer};

    /// Answers a request as some store would. It may wait for other callers.
    ///
    /// # Errors
    ///
    /// `OutOfMemory`; or `NumbersUsedUp`, where the request would make a version and there is no number left for it. A request that
    /// was refused has changed nothing.
    fn call<R: Wait>(&self, rt: &R, request: &Request) -> Result<Reply, StoreFault>
        ensures { MayAnswer request.now result };
}
