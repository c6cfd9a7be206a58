//! Tests of `mc_machine`: the calls that sections make, reply by reply.
#![tactic(auto)]

#[cfg(test)]
mod given;
#[cfg(test)]
mod long_tests;
#[cfg(test)]
mod marks_tests;
#[cfg(test)]
mod play;
#[cfg(test)]
mod reply_tests;
