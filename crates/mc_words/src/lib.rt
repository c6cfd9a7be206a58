//! The words of requests and replies, as histories, timelines and step lists have them: how they are read and printed.
//!
//! It uses `mc_protocol` and `mc_model`. The crates that use it rest on what words spell (`specs/Words.antt`), and on what
//! follows from it (`specs/WordLaws.antt`).
#![tactic(auto)]

mod body;
mod misread;
mod number;
mod print;
mod word_laws;
mod words;
mod words_fault;

pub use body::read_body;
pub use misread::{ExpectedWord, MisreadWord};
pub use number::read_number;
pub use print::{print_reply_words, print_request_words};
pub use word_laws::{
    joined_words_end_no_line, joined_words_fall_apart, spelled_replies_have_short_bodies,
    spelled_requests_have_words, what_is_printed_spells_the_reply,
    what_is_printed_spells_the_request, word_spells_one_body, word_spells_one_number,
    words_of_a_reply_are_whole, words_of_a_request_are_whole, words_spell_one_reply,
    words_spell_one_request,
};
pub use words::{read_reply_words, read_request_words};
pub use words_fault::{WordsFault, WordsKind};
