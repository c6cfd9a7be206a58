//! Which jobs a campaign has, and why there is no report of it.

use mc_settings::{Meeting, Namespace};
use std::alloc::AllocError;
use thiserror::Error;

/// The jobs of a campaign: `jobs` of them, from `first` on; and how each is run.
#[derive(Clone, Copy, Debug)]
pub struct Campaign<'a> {
    /// What their scripts are generated from, beside their numbers.
    pub seed: u64,
    /// The number of the first.
    pub first: u64,
    /// How many there are.
    pub jobs: u64,
    /// The most turns in which the history of one is judged.
    pub limit: u64,
    /// How the branches of each meet.
    pub meeting: Meeting,
    /// The most microseconds by which a branch is late that has met the other one. With 0 none is.
    pub spread: u16,
    /// What the keys of each are put under, if they are. [`keys_fit`] says whether none becomes too long.
    ///
    /// [`keys_fit`]: mc_settings::keys_fit
    pub name: Option<&'a Namespace<'a>>,
}

/// Why there is no report of a campaign.
#[derive(Clone, Copy, Debug, Drop, PartialEq, Eq, Error)]
pub enum CampaignError {
    /// No thread could be made for a worker.
    #[error("no thread could be made")]
    NoThread,
    /// Memory ran out outside the jobs.
    #[error("out of memory")]
    OutOfMemory,
}

impl From<AllocError> for CampaignError {
    ghost use Rattle.std.specs.Prelude.{◌≡◌};
    ghost use Rattle.mc_campaign.specs.declared.campaign.CampaignError.TheVariants.{OutOfMemory};

    ghost from_gives = { λ _ e. e ≡ OutOfMemory };

    fn from(_e: AllocError) -> CampaignError {
        CampaignError::OutOfMemory
    }
}
