//! Tests of `mc_claims`: its public calls that are no laws, with an answer that was worked out by hand.
//!
//! What `mcrace judge` answers to a text stands in `cases/judge`. Here is what only a call shows: claims that no text states.
#![tactic(auto)]

#[cfg(test)]
mod claim_tests;
#[cfg(test)]
mod memory;
