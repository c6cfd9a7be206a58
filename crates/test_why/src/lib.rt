//! Tests of `mc_why`: each of its public calls that is no law, with answers that were worked out by hand.
#![tactic(auto)]

#[cfg(test)]
mod cut_tests;
#[cfg(test)]
mod forms_tests;
#[cfg(test)]
mod memory;
#[cfg(test)]
mod report_tests;
#[cfg(test)]
mod why_tests;
