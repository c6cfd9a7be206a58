//! What the paths of code lead to, in tables: the kinds of numbers in its variables, the values of its flags, and what its
//! requests cost.
//!
//! Below it stand `mc_protocol`, `mc_script`, `mc_code` and `mc_sound`. A section that leads forwards to its end (`Structure` of
//! `mc_sound`) is gone over once, from each place to those to which its instruction leads: `flow` is that pass, of any `Flow`, a
//! value for each place and what an instruction makes of it. It is proved once that the table has at each place what paths lead
//! to (`specs/Flows.antt`). Of three flows it is said what that means: of kinds of numbers in runs (`specs/RunKinds.antt`), of
//! flags along paths and along merges of the branches' paths (`specs/FlagTables.antt`), and of costs (`specs/CostTables.antt`).
//!
//! What the crate above uses is that each table is exact: `all_kind_tables`, `all_flag_tables` and `CostTables::new` answer, of
//! sections that lead forwards, what runs, interleavings and paths lead to, and nothing else.
#![tactic(auto)]

mod cost_flow;
mod entries;
mod flag_grid;
mod flag_row;
mod flag_sets;
mod flag_tables;
mod flow;
mod kind_pairs;
mod kind_set;
mod kind_table;
mod kind_tables;
mod section_costs;
mod text_len;
mod weights;

pub use cost_flow::PathCost;
pub use flag_row::{FlagFlow, FlagRow, FlagValue};
pub use flag_sets::{FlagSets, has_flag};
pub use flag_tables::{FlagTables, all_flag_tables, is_end};
pub use flow::Flow;
pub use kind_pairs::KindPairs;
pub use kind_set::{KIND_COUNT, KindSet, kind_index};
pub use kind_table::{KindFlow, KindPair, KindTable, declared_template, shown_by};
pub use kind_tables::{KindTables, all_kind_tables};
pub use section_costs::CostTables;
pub use weights::{Weights, call_cost};
