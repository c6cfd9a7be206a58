//! What ends a campaign before its last job.

ghost use Rattle.std.specs.Prelude.{◌≡◌, ◌<◌, ◌≤◌, ℕ, Some, false, true};
ghost use Rattle.mc_campaign.specs.Runs.{Allows, IsOver};

/// When no further job of a campaign begins, though there are more. The first always begins.
#[derive(Clone, Copy, Debug)]
pub struct Bounds {
    /// As many as this were unexplained, of those that were kept.
    pub unexplained: Option<u64>,
    /// The connector says that it is over.
    pub has_time: bool,
}

impl Bounds {
    /// All jobs are run.
    pub const NONE: Bounds = Bounds {
        unexplained: None,
        has_time: false,
    };

    /// Whether the job in this place begins, after as many were kept, of which as many were unexplained.
    pub fn allow(self, jobs: u64, kept: u64, unexplained: u64, is_over: bool) -> bool
        ensures more { result ≡ true → kept < jobs }
        ensures allowed { result ≡ true → Allows self.unexplained unexplained }
        ensures over { result ≡ false → IsOver self jobs kept unexplained }
    {
        kept < jobs && !self.are_reached(unexplained) && !self.end(kept, is_over)
    }

    /// As many are unexplained as end the campaign.
    fn are_reached(self, unexplained: u64) -> bool
        ensures allowed { result ≡ false → Allows self.unexplained unexplained }
        ensures over { result ≡ true → (most : ℕ) × (self.unexplained ≡ Some most) × (most ≤ unexplained) }
    {
        match self.unexplained {
            Some(most) => most <= unexplained,
            None => false,
        }
    }

    /// The job in this place doesn't begin, as the connector says that it is over.
    pub(crate) fn end(self, place: u64, is_over: bool) -> bool
        ensures some { result ≡ true → 0 < place }
        ensures time { result ≡ true → self.has_time ≡ true }
    {
        place > 0 && self.has_time && is_over
    }
}
