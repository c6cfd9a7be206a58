//! Tests of `mc_script` by its public calls: what the program's answers don't show of them. Which texts are scripts, which
//! fault another text has, and what the steps of a script are, is shown by `cases/asm`.
#![tactic(auto)]

#[cfg(test)]
mod front_tests;
#[cfg(test)]
mod memory;
#[cfg(test)]
mod misread_tests;
#[cfg(test)]
mod print_tests;
#[cfg(test)]
mod printed;
#[cfg(test)]
mod step_line_tests;
#[cfg(test)]
mod version_tests;
#[cfg(test)]
mod without_tests;
