//! The texts of histories, of explanations and of step lists: what a text spells, and what is printed of a history.
//!
//! Below it stands `mc_model`. The crates above use one contract, in both directions: what a reader here answers is what the text
//! spells, and what is printed spells what it was printed of. A history's text, with or without an explanation, is defined in
//! `specs/HistoryText.antt`, what is printed in `specs/PrintedHistory.antt`, and a step list's text in `specs/StepText.antt`. An
//! explanation is here no more than what it claims; what it explains is said by `mc_claims`, and what a list of events does by
//! `mc_core`. Readers and printers of single lines are public: `mc_timeline_text` makes those of timelines from them. The proofs
//! take the lemmas on lines from `bstr`.
#![tactic(auto)]

mod explanation;
mod fault;
mod lines;
mod misread;
mod moves;
mod notes;
mod print;
mod print_laws;
mod requests;
mod rules;
mod starts;
mod step_laws;
mod step_lines;
mod step_text;
mod steps_fault;
mod text;
mod text_laws;

pub use explanation::{Explanation, Move};
pub use fault::{HistoryFault, TextFault, TextKind};
pub use lines::{finish, next_due};
pub use misread::{Expected, ExpectedInTimeline, Misread};
pub use moves::read_effect;
pub use notes::read_note;
pub use print::{marks_text, print_explanation, print_history, print_starts};
pub use print_laws::{
    printed_claims_are_spelled, printed_histories_are_spelled, spelled_claims_may_be_printed,
};
pub use starts::Starts;
pub use step_laws::texts_spell_one_step_list;
pub use step_text::{STEP_LIST_LIMIT, parse_steps};
pub use steps_fault::{StepsFault, StepsKind};
pub use text::parse_history;
pub use text_laws::texts_spell_one_history;
