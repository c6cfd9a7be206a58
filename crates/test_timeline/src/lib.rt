//! What `mc_timeline`'s public calls that are no laws answer with memory there, and that nothing has changed where there was
//! none. The tests stand in a crate of their own so that their proofs don't prove the library once more.
#![tactic(auto)]

#[cfg(test)]
mod builder_tests;
#[cfg(test)]
mod notes;
#[cfg(test)]
mod print_tests;
#[cfg(test)]
mod restrict_tests;
