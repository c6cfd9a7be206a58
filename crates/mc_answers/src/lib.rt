//! Answers that the input alone gives: a history judged, a script or an image checked, a script assembled, or led through steps, reports
//! joined; and the script of a seed and a job.
//!
//! Below it stand the readers of histories, scripts, images and step lists, `mc_explain` and `mc_why`, which judge, `mc_core`, whose
//! worlds steps lead to, and `mc_generate`. `mc_hints` says why an input is refused, and `mc_cli` what a line asks. The crate above uses
//! `answer_question`, over any streams: what it writes is right for the input that it read, whatever that is, and so is the exit status
//! (`specs/Answers.antt`, and for each question the definitions that it names). `command` does that for a line of words.
#![tactic(auto)]

mod answer;
mod asm;
mod check;
mod convert;
mod draw;
mod drive;
mod generate;
mod in_json;
mod input;
mod join;
mod judge;
mod loading;
mod outcome;
mod program;
mod refusal;
mod status;
mod steps;
mod streams;
mod timeline;
mod timeline_why;
mod why;
mod writing;

pub use answer::Answer;
pub use generate::write_generated;
pub use input::{InputFault, read_text};
pub use loading::{load_sound, sound_code, verify_code};
pub use outcome::{endings_text, run_status, status_of_run, verdict_text};
pub use program::{answer_question, command, explain_fault, unread_line};
pub use refusal::Unanswered;
pub use status::Status;
pub use streams::{Broken, Reader, Sink, Source, Writer};
pub use why::{Counted, why_text};
pub use writing::{write_fault, write_text};
