//! The command line: its options as rows of data, what a line asks for, and what help says.
//!
//! `read_request` reads a line, once. Each part of the [`Request`] that it answers is what the row of an option reads of the first word
//! that the line gives for it, or the row's default; else it answers the text of the first fault (`specs/Asking.antt`). Below it stand
//! `clap`, which splits a line into words of options, and `mc_settings`, for names and meetings. No crate above names `clap`.
#![tactic(auto)]

mod args;
mod decimal;
mod fault;
mod help;
mod help_line;
mod hints;
mod options;
mod question;
mod read;
mod read_campaign;
mod read_stress;
mod request;
mod rows;
mod subcommand;
mod value;

pub use args::{
    CampaignArgs, CheckArgs, ConvertArgs, DrawArgs, GREATEST_JOBS, GREATEST_WORKERS, JudgeArgs,
    Notation, Plan, RecordArgs, Repeat, RunArgs, Search, Seconds, ServeArgs, SoughtKey, StressArgs,
    StressPlan, TestArgs, Until, has_last,
};
pub use question::Question;
pub use request::{LineFault, Request, long_key_text, read_request, unknown_race_text};
pub use subcommand::VERSION;
