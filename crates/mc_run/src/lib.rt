//! Runs of three sections of sound code: what happens in them, and what is noted of it.
//!
//! Below it stand `mc_core`, whose worlds are folds of events, `mc_lane`, whose lanes carry calls and record them, and `mc_recorded`,
//! which compares what is noted of a lane with its record. A run gets its events from three lanes, the branches on two threads, which
//! note them in one book. The crate above uses the contract of `run_lanes_with`, and of `run_beside`: what was noted is what the lanes
//! recorded, which is what `agrees` tests (`specs/Agreement.antt`, and of one section `specs/Recorded.antt` of `mc_recorded`), and it
//! is what the code's sections may do (`mc_core`).
#![tactic(auto)]

mod agreement;
mod beside;
mod book;
mod carrying;
mod desk;
mod gate;
mod holder;
mod lanes;
mod laws;
mod manner;
mod meeting;
mod notebook;
mod run;
mod running;
mod section;

pub use agreement::agrees;
pub use beside::run_beside;
pub use book::Book;
pub use desk::{Desk, Second};
pub use gate::{FreeGate, Gate};
pub use lanes::Lanes;
pub use laws::branches_begin_unless_p_fails;
pub use manner::{Branch, Late, Manner, Meet};
pub use run::{Run, RunError};
pub use running::{run_lanes, run_lanes_with};
