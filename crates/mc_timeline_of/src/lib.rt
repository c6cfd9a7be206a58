//! The timeline that has the notes of a history, and the laws that tie the two together: what explains the one explains the other.
//!
//! Below it stand both searches: `mc_explain` of histories, and `mc_linearize` of timelines. The crate above uses three contracts:
//! `timeline_of` makes the timeline of any history that keeps its notes, and the one has an explanation exactly if the other has;
//! by `explanations_are_the_same` the same moves explain both; and by `verdicts_agree` neither search says explained where the other
//! says unexplained.
#![tactic(auto)]

mod laws;
mod making;

pub use laws::{
    explained_alike, explanations_are_the_same, histories_are_timelines, verdicts_agree,
};
pub use making::timeline_of;
