//! What `mc_linearize`'s public calls answer with memory there. The tests stand in a crate of their own so that their proofs don't
//! prove the library once more.
#![tactic(auto)]

#[cfg(test)]
mod confirm_tests;
#[cfg(test)]
mod judge_tests;
#[cfg(test)]
mod notes;
#[cfg(test)]
mod rows;
#[cfg(test)]
mod timeline_tests;
