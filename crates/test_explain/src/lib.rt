//! Tests of `mc_explain`: each of its public calls that is no law, once with memory there, and with an answer that was
//! worked out by hand.
//!
//! What `mcrace judge` answers to a text stands in `cases/judge`. Here is what only a call shows: how many turns a search
//! took.
#![tactic(auto)]

#[cfg(test)]
mod memory;
#[cfg(test)]
mod search_tests;
