//! Scripts: what the three sections of a run send.
//!
//! Below it stands `mc_protocol`. The crates above use what a script is (`specs/Script.antt`), which values are scripts
//! (`specs/WellFormed.antt`, `specs/Templates.antt`), and what is left of a script without a step (`specs/WithoutStep.antt`).
//! The text of a script is that of `mc_script_text`.
#![tactic(auto)]

mod copies;
mod limits;
mod names;
mod script;
mod section;
mod step;
mod version;
mod without_step;
mod words;

pub use copies::copy_all;
pub use limits::{FLAGS_LIMIT, Mask, NAME_BYTES_LIMIT, STEPS_LIMIT, VARIABLES_LIMIT};
pub use names::Names;
pub use script::Script;
pub use section::{Budget, Label, Section};
pub use step::{Argument, Jumps, Step, Template};
pub use version::Version;
pub use without_step::without;
pub use words::is_body;
