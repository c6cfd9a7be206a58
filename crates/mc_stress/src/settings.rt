//! What is asked of rounds.
use mc_rounds::Plan;
use mc_settings::Namespace;
use std::time::Duration;

/// How rounds are played and judged.
#[derive(Drop)]
pub struct Stress<'a> {
    pub plan: Plan,
    /// The name that the keys are put under, if they are.
    pub name: Option<Namespace<'a>>,
    /// The most rounds, if there is such a number.
    pub rounds: Option<u64>,
    /// For how long rounds begin, if there is such a time.
    pub time: Option<Duration>,
    /// Whether there is a next round after one that isn't done and explained.
    pub keep_going: bool,
    pub judging: Judging,
}

/// How rounds are judged, and what is shown of one that isn't done and explained.
#[derive(Clone, Copy, Debug, PartialEq, Eq)]
pub struct Judging {
    /// The most turns of the search for each key, if there is such a number.
    pub limit: Option<u64>,
    /// Whether it is said why nothing explains a round.
    pub why: bool,
    /// Whether all keys are shown.
    pub whole: bool,
    /// Whether a key that is unexplained is shown without requests that changed nothing, unless all keys are shown.
    pub smallest: bool,
}
