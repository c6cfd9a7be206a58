//! Tests of `mc_generate`: which scripts the generator makes, and that their code may run; what code is under a name; which steps
//! shrinking drops, and how often it asks its tester.
#![tactic(auto)]

#[cfg(test)]
mod code_tests;
#[cfg(test)]
mod job_code_tests;
#[cfg(test)]
mod memory;
#[cfg(test)]
mod named_code_tests;
#[cfg(test)]
mod script_tests;
#[cfg(test)]
mod shrink_tests;
#[cfg(test)]
mod testers;
#[cfg(test)]
mod texts;
