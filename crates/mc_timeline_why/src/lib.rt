//! Why nothing explains the requests of a timeline on one key: the note with which they become unexplained, what explains those before
//! it, and which requests overlap it.
//!
//! Below it stands `mc_linearize`, whose `judge_key` searches for explanations. The crate above uses one contract: what stands before
//! the place that `why_key_unexplained` answers is explained by the explanation that it answers, and nothing explains that with the
//! note at the place (`specs/TimelineCauses.antt`). `print_timeline_why` prints what was found (`specs/TimelineWhyText.antt`).
#![tactic(auto)]

mod cause;
mod cutting;
mod locating;
mod order;
mod overlap;
mod report;
mod why;

pub use cause::{TimelineCause, TimelineFinding};
pub use cutting::cut_timeline;
pub use report::print_timeline_why;
pub use why::why_key_unexplained;
