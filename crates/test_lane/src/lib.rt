//! Tests of `mc_lane`: what lanes answer and record over streams that are cut, fail or end at each place, and what streams give
//! and take. Replies are those of `protocol.txt`.
#![tactic(auto)]

#[cfg(test)]
mod lane_tests;
#[cfg(test)]
mod memory;
#[cfg(test)]
mod reply_tests;
#[cfg(test)]
mod stream_tests;
