//! Tests of `mc_run`: what lists of events lead to, what runs over three lanes come to, and the verdict on either; what passes their
//! gate; and which worlds and lanes agree.
#![tactic(auto)]

#[cfg(test)]
mod agreement_rows;
#[cfg(test)]
mod agreement_tests;
#[cfg(test)]
mod book_tests;
#[cfg(test)]
mod carried;
#[cfg(test)]
mod closed_lanes;
#[cfg(test)]
mod counter;
#[cfg(test)]
mod desk_tests;
#[cfg(test)]
mod gate_tests;
#[cfg(test)]
mod lanes;
#[cfg(test)]
mod meet_tests;
#[cfg(test)]
mod meets;
#[cfg(test)]
mod memory;
#[cfg(test)]
mod run_tests;
#[cfg(test)]
mod thread_tests;
#[cfg(test)]
mod threadless_tests;
#[cfg(test)]
mod trial_tests;
#[cfg(test)]
mod verdict;
