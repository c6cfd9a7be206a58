//! The assembler, which lays a script out as code.
//!
//! Below it stand `mc_protocol`, `mc_script` and `mc_code`. The crates above use that code agrees with its script
//! (`specs/Agreement.antt`): both come to the same, whatever is answered. How a script runs is in `specs/ScriptRuns.antt`,
//! its layout in `specs/Layout.antt`, and what follows from that in `specs/LayoutLaws.antt`.
#![tactic(auto)]

mod assembler;
mod emit;
mod fault;
mod layout_laws;
mod places;
mod size;
mod step_places;
mod templates;

pub use assembler::assemble;
pub use fault::AsmFault;
pub use layout_laws::{codes_agree, entries_are_legal, layouts_lead_forwards};
pub use step_places::step_at;
