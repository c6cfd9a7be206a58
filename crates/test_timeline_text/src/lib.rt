//! What `mc_timeline_text`'s public calls answer with memory there. The tests stand in a crate of their own so that their proofs
//! don't prove the library once more.
#![tactic(auto)]

#[cfg(test)]
mod fault_tests;
#[cfg(test)]
mod memory_tests;
#[cfg(test)]
mod text_tests;
