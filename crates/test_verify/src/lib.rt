//! Tests of `mc_verify` and `mc_counterexample`: what their calls hand out. What code is refused for, and which run shows that,
//! stands in `cases/check`.
#![tactic(auto)]

#[cfg(test)]
mod answer;
#[cfg(test)]
mod changed_image_tests;
#[cfg(test)]
mod shown_tests;
#[cfg(test)]
mod verify_tests;
