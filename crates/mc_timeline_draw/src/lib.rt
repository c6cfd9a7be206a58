//! Pictures of timelines: of the requests on one key, with a lane for each client.
//!
//! Below it stand `mc_timeline_text`, which reads the text of a timeline, `mc_linearize` and `mc_timeline_why`, which find out what
//! explains it, and `mc_picture`, which makes the picture. The crates above use `draw` and `draw_only`, which find a timeline in a text,
//! and `draw_key`, which draws the requests of a timeline on a key. A picture may show any words; of what it rests on, `find_out` says
//! that it is true of the timeline (`specs/Known.antt`).
#![tactic(auto)]

mod drawing;
mod known;
mod part;
mod picture;
mod rows;
mod sentences;
mod steps;
mod walk;

pub use drawing::{draw, draw_key, draw_only};
pub use known::{TimelineKnown, find_out};
pub use mc_picture::{Drawing, Form};
