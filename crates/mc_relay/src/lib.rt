//! How the bytes of a connection are handed on, one direction at a time, while something hears them.
//!
//! Below it stand the streams of `mc_lane`. The crate above uses one contract: what [`pass_on`] writes is what it has read, or the front
//! of it, and the [`Ear`] has heard all that was read (`specs/Passing.antt`).
#![tactic(auto)]

mod passing;

pub use passing::{Ear, Passed, pass_on};
