//! What `mc_shrink`'s public calls answer with memory there. The tests stand in a crate of their own so that their proofs don't prove the
//! library once more.
#![tactic(auto)]

#[cfg(test)]
mod shrink_tests;
