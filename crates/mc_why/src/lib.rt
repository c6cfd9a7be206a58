//! Why nothing explains a history: the place from which on that is so, what explains the part before it, what a cache answers there,
//! and which replies would be explained.
//!
//! Below it stand `mc_explain`, whose `judge` searches for explanations, and `mc_claims`, which says what one is. The crate above
//! uses one contract: what stands before the place that `why_unexplained` answers is explained by the explanation that it answers,
//! nothing explains any longer beginning, each answer is that of the model, and each reply that it tells would be explained
//! (`specs/Causes.antt`, `specs/Answers.antt`, `specs/Forms.antt`).
//! `print_why` prints what was found (`specs/WhyText.antt`).
#![tactic(auto)]

mod answer;
mod answer_laws;
mod candidates;
mod cause;
mod cut_laws;
mod cutting;
mod form;
mod form_text;
mod forms;
mod locating;
mod moved;
mod order;
mod reachable;
mod replied;
mod report;
mod ways;
mod why;

pub use answer::Answer;
pub use answer_laws::{moves_are_replayed, turns_come_next};
pub use cause::{Cause, Finding};
pub use cut_laws::{
    cuts_are_explained, cuts_are_histories, last_cut_is_whole, places_are_one,
    replies_stand_at_places,
};
pub use cutting::cut;
pub use form::Form;
pub use report::{print_why, request_place};
pub use why::why_unexplained;
