//! The command `test`: it asks a server each verb alone, plays scripts of races and generated ones in turns, and tells a person what it
//! found, with evidence.
//!
//! Below it stand `mc_command`, whose `play_kept` plays a script and judges what came, and `mc_stress`, whose `play_rounds` does so with
//! many clients. The crate above uses `test_server`. A race that is told was a `Seen`: by its type, nothing explains its history; or a
//! `Clash`: by its type, nothing explains the requests on a key of its timeline. The replies of a correct server come from a `Shown`: by
//! its type, they would be explained.
#![tactic(auto)]

mod alone;
mod beside;
mod blame;
mod book;
mod clash;
mod clocked;
mod crowd;
mod desk;
mod end_text;
mod evidence;
mod finding;
mod folder;
mod found_text;
mod generated;
mod health;
mod junit;
mod list;
mod names;
mod numbers;
mod outcome;
mod player;
mod prepared;
mod progress;
mod race;
mod races;
mod report;
mod report_json;
mod rounds;
mod rounds_text;
mod second;
mod seen;
mod selection;
mod shortened;
mod tally;
mod target;
mod testing;
mod text;
mod told;
mod turns;
mod verbs;
mod version;
mod wide;

pub use list::{list_text, scripts_text};
pub use names::LONGEST_NAME;
pub use selection::unknown_race;
pub use testing::test_server;
