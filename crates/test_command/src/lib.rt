//! Tests of `mc_command` by its public calls: that `run` and `campaign` need a server, what comes of runs over a network in memory,
//! over a desk and against a listener, which connections a campaign's jobs have, which keys repeated runs have, that the selftest
//! passes, and the statistics of runs. What the program shows to its user stands in `cases/`.
#![tactic(auto)]

#[cfg(test)]
mod campaign_tests;
#[cfg(test)]
mod canned;
#[cfg(test)]
mod desk_tests;
#[cfg(test)]
mod dialer_tests;
#[cfg(test)]
mod listener_tests;
#[cfg(test)]
mod memory_run_tests;
#[cfg(test)]
mod renaming_tests;
#[cfg(test)]
mod run_tests;
#[cfg(test)]
mod script;
#[cfg(test)]
mod selftest_tests;
#[cfg(test)]
mod statistics_tests;
