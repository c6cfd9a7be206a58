//! Tests of `mc_rounds`: that the requests of rounds are those of another generator.
#![tactic(auto)]

#[cfg(test)]
mod memory;
#[cfg(test)]
mod request_tests;
#[cfg(test)]
mod sum_tests;
#[cfg(test)]
mod texts;
