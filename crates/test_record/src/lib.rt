//! Tests of `mc_record`: what is noted of what clients and a server say, and what is handed on. The texts are written by hand, from the
//! rules of timelines and of `docs/FORMATS.md`; the replies are those of `protocol.txt`.
#![tactic(auto)]

#[cfg(test)]
mod ending_tests;
#[cfg(test)]
mod noting_tests;
#[cfg(test)]
mod playing;
