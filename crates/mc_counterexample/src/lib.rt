//! Whether a run shows the fault of a refusal: counterexamples, replayed.
//!
//! Below it stand `mc_protocol`, `mc_script`, `mc_code`, `mc_sound`, `mc_flow` and `mc_verify`. Which run shows a fault is said
//! in `specs/Shown.antt` of `mc_verify`, which finds one. Here any list of replies is looked at, reply by reply.
#![tactic(auto)]

mod cost_replay;
mod flag_replay;
mod kind_replay;
mod knowledge;
mod places;
mod shown;

pub use shown::shows;
