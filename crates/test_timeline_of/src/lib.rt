//! What `timeline_of` of `mc_timeline_of` answers, on examples that were written by hand. The tests stand in a crate of their own
//! so that their proofs don't prove the library once more.
#![tactic(auto)]

#[cfg(test)]
mod making_tests;
