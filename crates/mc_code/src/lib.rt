//! Code: the templates of a script's requests, and for each section the instructions that send them.
//!
//! Below it stand `mc_protocol` and `mc_script`. The crates above use what code is (`specs/Code.antt`), how a section of
//! it runs (`specs/Paths.antt`, `specs/Runs.antt`), where it stands then and which calls it makes (`specs/Standing.antt`,
//! `specs/Calls.antt`). What follows from these stands in `specs/RunLaws.antt`, `specs/StandingLaws.antt` and
//! `specs/NumberLaws.antt`.
#![tactic(auto)]

mod code;
mod instr;
mod kind;
mod limits;
mod number_laws;
mod run_laws;
mod standing_laws;

pub use code::{Code, Section};
pub use instr::{Call, Instr, entry};
pub use kind::Kind;
pub use limits::{CLASS_COUNT, INSTRUCTIONS_LIMIT, NO_ENTRY, TEMPLATES_LIMIT};
pub use number_laws::{edges_lead_alike, kinds_follow_edges, numbers_were_shown};
pub use run_laws::{
    complete_paths_end, ends_are_complete, paths_are_runs, paths_split, runs_are_paths,
    sections_stop_once,
};
pub use standing_laws::{calls_once, calls_open, calls_stand, leaves_once, right_runs_are_called};
