//! Tests of `mc_history`: each of its public calls that is no law, once with memory there, and with an answer that was worked out
//! by hand.
//!
//! What `mcrace judge` and `mcrace drive` answer to a text, and which fault another has, stands in `cases`. Here is what only a call
//! shows: what is printed of what was read.
#![tactic(auto)]

#[cfg(test)]
mod memory;
#[cfg(test)]
mod steps_fault_tests;
#[cfg(test)]
mod steps_tests;
#[cfg(test)]
mod text_tests;
