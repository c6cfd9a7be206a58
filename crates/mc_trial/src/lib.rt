//! Trials and judged runs: what came of three sections of sound code, and the verdict on it.
//!
//! Below it stand `mc_core`, whose worlds are folds of events, `mc_run`, which runs code over lanes, and `mc_explain`, which judges
//! histories. The crates above use one contract, that of `trial`: whatever the events are, no section comes to anything wrong,
//! whichever branch goes first no call finds a flag otherwise than it needs it, no section exceeds its budget, none sends after its
//! connection failed, and what is called an explanation explains every reply that was received (`specs/Headline.antt`). The same holds
//! of a run that `play` or `play_beside` judges (`specs/Judged.antt`).
#![tactic(auto)]

mod beside;
mod playing;
mod trials;

pub use beside::play_beside;
pub use playing::{Judged, judge_run, play};
pub use trials::trial;
