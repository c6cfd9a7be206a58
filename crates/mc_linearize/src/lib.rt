//! Explanations of timelines: whether one explains a timeline, and the search for one, key by key.
//!
//! Below it stands `mc_timeline`, which says what a timeline is and when it has an explanation. The crate above uses three contracts:
//! `confirm_timeline` is true exactly if the explanation explains the timeline (`specs/Claims.antt`); `judge_key` is right if it
//! says of the requests on a key that an explanation explains them, or that none does, and says neither only if all its turns were
//! used; so of `judge_timeline`, for the whole timeline (`specs/Verdicts.antt`).
#![tactic(auto)]

mod confirm;
mod each_key;
mod explanation;
mod ground;
mod held;
mod index;
mod joint;
mod judging;
mod keys;
mod laws;
mod numbering;
mod operation;
mod point;
mod queues;
mod search;
mod shown;
mod standing;
mod trial;
mod verdict;
mod version;

pub use confirm::confirm_timeline;
pub use each_key::judge_timeline;
pub use explanation::{TimelineExplanation, TimelineMove};
pub use judging::judge_key;
pub use laws::hopeless_is_unexplained;
pub use verdict::{KeyVerdict, TimelineVerdict};
