//! Tests of `mc_answers` by its public calls: what lines ask for, what questions are answered, that `drive` keeps its limit, that nothing
//! is done for lines that need a network, and the status after a run. What the program shows to its user stands in `cases/`.
#![tactic(auto)]

#[cfg(test)]
mod convert_tests;
#[cfg(test)]
mod driven;
#[cfg(test)]
mod invocation_tests;
#[cfg(test)]
mod join_tests;
#[cfg(test)]
mod limit_tests;
#[cfg(test)]
mod option_tests;
#[cfg(test)]
mod status_tests;
