//! Pictures of histories: for a terminal as text, and for a page as SVG.
//!
//! Below it stand `mc_history`, which reads the text of a history, `mc_explain` and `mc_why`, which find out what explains it, and
//! `mc_picture`, which makes the picture.
//! The crate above uses `draw`: it finds a history in a text, and answers its picture, or why the text has none. A picture may show any
//! words; of what it rests on, `find_out` says that it is true of the history (`specs/Known.antt`).
#![tactic(auto)]

mod drawing;
mod known;
mod picture;
mod rows;
mod sentences;

pub use drawing::draw;
pub use known::{Known, find_out};
pub use mc_picture::{Drawing, Form};
