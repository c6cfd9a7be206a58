//! What `mc_protocol`'s public calls answer, with expected values that were written by hand: the texts are those of
//! `protocol.txt`. The tests stand in a crate of their own so that their proofs don't prove the library once more.
#![tactic(auto)]

#[cfg(test)]
mod lines;
#[cfg(test)]
mod memory;
#[cfg(test)]
mod replies;
#[cfg(test)]
mod shared_words;
#[cfg(test)]
mod texts;
#[cfg(test)]
mod values;
