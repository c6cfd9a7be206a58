//! What sound code is: code that may run.
//!
//! Below it stand `mc_protocol`, `mc_script` and `mc_code`. `specs/Faults.antt` says what may be wrong with code, by kind,
//! section and place. Faults of structure are seen at an instruction by itself (`specs/Structure.antt`); those of variables are
//! outcomes of runs of code, as `mc_code` defines them; those of flags are seen along interleavings, the paths of P and the
//! merges of the branches' paths (`specs/Flags.antt`, `specs/Interleavings.antt`); and those of budgets along paths
//! (`specs/Costs.antt`). `specs/LeastFaults.antt` says which of several faults is named.
//!
//! A `Checked` is code without any. How faults are looked for is no part of this: `mc_verify` finds them, and makes each
//! `Checked`. What runs sound code needs this crate alone.
#![tactic(auto)]

mod checked;
mod code_fault;
mod cost;
mod laws;
mod measure;
mod refusal_kind;

pub use checked::Checked;
pub use code_fault::CodeFault;
pub use cost::Cost;
pub use laws::{
    lack_is_not_admitted, least_is_one, no_flags_no_faults, prefixes_cost_less, sent_is_admitted,
    sound_is_admitted, sound_is_right,
};
pub use measure::Measure;
pub use refusal_kind::RefusalKind;
