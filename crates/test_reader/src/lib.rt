//! What `mc_reader`'s public calls answer, with expected values that were written by hand from memcached's `protocol.txt`,
//! and replies that a real memcached gave. The tests stand in a crate of their own so that their proofs don't prove the
//! library once more.
#![tactic(auto)]

#[cfg(test)]
mod ask_cuts;
#[cfg(test)]
mod ask_tests;
#[cfg(test)]
mod cuts;
#[cfg(test)]
mod fault_tests;
#[cfg(test)]
mod limit_tests;
#[cfg(test)]
mod recorded;
#[cfg(test)]
mod recorded_tests;
#[cfg(test)]
mod reply_tests;
#[cfg(test)]
mod verb_tests;
#[cfg(test)]
mod wanted;
#[cfg(test)]
mod wanted_ask;
