//! The scripts of a campaign's jobs and their code: generated from a seed, put under a name, and shrunk.
//!
//! Below it stand `mc_script`, `mc_code` and `mc_verify`, and `mc_settings` for names. The crates above use which script belongs to a
//! seed and a job (`specs/Generated.antt`), what code is under a name (`specs/CodesUnder.antt`), which code a job has
//! (`specs/JobCodes.antt`), and what a shrunk script is (`specs/Shrunk.antt`).
#![tactic(auto)]

mod acceptance;
mod draws;
mod fault;
mod generator;
mod job_code;
mod names;
mod namespace_laws;
mod naming;
mod piece;
mod piece_steps;
mod script;
mod shrinker;
mod shrinking;
mod tester;

pub use draws::draw;
pub use fault::{GenFault, JobFault};
pub use generator::generate;
pub use job_code::generate_under;
pub use namespace_laws::names_change_keys_alone;
pub use naming::{PutFault, put_under};
pub use script::generate_script;
pub use shrinker::Shrinker;
pub use shrinking::shrink;
pub use tester::Tester;
