//! The text of a timeline: `history 3`, with or without an explanation.
//!
//! Below it stands `mc_linearize`, whose explanations it reads and prints; the words of a line are read by `mc_history` and
//! `mc_model`. The crate above uses one contract: `parse_timeline` answers the timeline and the explanation that the text spells,
//! and refuses only a text that spells none (`specs/TimelineTexts.antt`).
#![tactic(auto)]

mod clients;
mod header;
mod laws;
mod moves;
mod notes;
mod print;
mod rules;
mod text;

pub use header::begins_timeline;
pub use laws::texts_spell_one_timeline;
pub use print::print_timeline_explanation;
pub use text::parse_timeline;
