//! The search for the least fault of code, and for a counterexample that shows it.
//!
//! Below it stand `mc_protocol`, `mc_script`, `mc_code`, `mc_sound` and `mc_flow`. What sound code is, and which of several
//! faults is the least, is said in `mc_sound`. What a counterexample is, is said in `specs/Shown.antt`, and what a refusal tells
//! of both in `specs/Refusals.antt`.
//!
//! The faults are found by the tables of `mc_flow`, of what paths lead to. The counterexample is found by going back through the same
//! tables, from each entry to one that led to it.
#![tactic(auto)]

mod backward;
mod budgets;
mod clearing;
mod cost;
mod excess_counterexample;
mod flag_counterexample;
mod flag_move;
mod flags;
mod kind_path;
mod kind_step;
mod laws;
mod lowest;
mod pair_interleaving;
mod prefix_path;
mod refusal;
mod replies;
mod section;
mod structure;
mod targets;
mod variable_counterexample;
mod variables;
mod verifier;
mod wrong_number;

pub use budgets::bound;
pub use laws::shown_is_fault;
pub use mc_sound::{Checked, Cost, Measure, RefusalKind};
pub use refusal::Refusal;
pub use verifier::verify;
pub use wrong_number::is_wrong;
