//! Pictures of requests over time: for a terminal as text, and for a page as SVG.
//!
//! Below it stands `mc_model`, which prints the words of requests and replies. The crates above say what is to be shown: the rows, an
//! order, the reply that nothing explains, and what stands over them. That each call is safe and ends is all that is proved; what a
//! picture looks like is tested.
#![tactic(auto)]

mod bars;
mod forms;
mod lines;
mod overlaps;
mod picture;
mod rows;
mod sentences;
mod shapes;
mod style;
mod svg;
mod table;
mod text;
mod times;
mod words;

pub use forms::{Drawing, Form, render};
pub use lines::numbered_lines;
pub use picture::{Blame, Picture, Step};
pub use rows::{Answered, Row};
pub use sentences::{CLAIM_FAILS, PLACE_UNKNOWN, Verdict};
