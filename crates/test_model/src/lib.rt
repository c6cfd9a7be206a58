//! What `mc_model`'s public calls answer with memory there, and that nothing has changed where there was none. All
//! that the program shows of requests, replies and the rules of a history stands in `cases/model`. The tests stand in
//! a crate of their own so that their proofs don't prove the library once more.
#![tactic(auto)]

#[cfg(test)]
mod acts;
#[cfg(test)]
mod caches;
#[cfg(test)]
mod decisions;
#[cfg(test)]
mod faults;
#[cfg(test)]
mod histories;
#[cfg(test)]
mod lines;
#[cfg(test)]
mod memory;
#[cfg(test)]
mod noted;
#[cfg(test)]
mod words;
