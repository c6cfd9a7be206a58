//! A section's machine: it goes along code, from reply to reply, and makes the code's calls.
//!
//! Below it stand `mc_protocol`, `mc_script`, `mc_code` and `mc_verify`. It takes sound code alone (`mc_verify`'s `Checked`), so
//! it tests nothing while it runs: no variable without a number or with one of another kind, no place outside the section. The
//! crate above uses where a machine stands (`specs/Machine.antt`): begun with these variables, after these exchanges, in the state
//! that `mc_code` defines, with the call that it makes there.
#![tactic(auto)]

mod laws;
mod machine;

pub use laws::{ends_start_branches, outstanding_is_named};
pub use machine::Machine;
