//! What keeps the results of a campaign.

ghost use Rattle.std.specs.Prelude.{◌≡◌, ◌++◌, ◌∷◌, List, [], OnOk};
ghost use Rattle.mc_campaign.specs.{declared.keeper.Results.Results, declared.outcome.JobResult.JobResult};

use crate::JobResult;
use mc_lane::Stream;
use mc_protocol::OutOfMemory;
use std::alloc::Global;

/// Keeps what the jobs of a campaign came to, or what is wanted of that. It gets them one after the other, in the order of their numbers.
pub trait Keeper<T> {
    /// It keeps such results.
    ghost accepts: { T → Type 0 };

    /// The first of both becomes the other when it is given these results, in this order.
    ghost becomes: { Self → List T → Self → Type 0 };

    /// Keeps what the next job of the campaign came to.
    ///
    /// # Errors
    ///
    /// That memory ran out.
    fn keep(&mut self, came_to: T) -> Result<(), OutOfMemory>
        requires { accepts came_to }
        ensures { OnOk result ((first : Self) (before : List T) → becomes first before self.old
            → becomes first (before ++ came_to ∷ []) self.new) };
}

/// All results that were kept.
#[derive(Debug, Drop)]
pub struct Results<S: Stream> {
    /// In the order of the jobs' numbers.
    pub all: Vec<JobResult<S>>,
}

impl<S: Stream> Results<S> {
    /// None.
    pub fn new(alloc: Global) -> Self
        ensures { result.all.items ≡ [] }
    {
        Results {
            all: Vec::new(alloc),
        }
    }
}

impl<S: Stream> Keeper<JobResult<S>> for Results<S> {
    ghost accepts = { λ _. Unit {0} };

    ghost becomes = { λ first results now. now.all.items ≡ first.all.items ++ results };

    fn keep(&mut self, came_to: JobResult<S>) -> Result<(), OutOfMemory>
        ensures { OnOk result ((first : Results S) (before : List (JobResult S)) → self.old.all.items ≡ first.all.items ++ before
            → self.new.all.items ≡ first.all.items ++ (before ++ came_to ∷ [])) }
    {
        self.all.push(came_to)?;
        Ok(())
    }
}
