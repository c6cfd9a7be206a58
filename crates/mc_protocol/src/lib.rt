//! What every other crate speaks of: the sections of a run, their events and faults, requests and replies of memcached's
//! classic text protocol, how a text falls into lines and words, names and decimals, and the limits.
//!
//! Below it stands std alone, and `bstr` for the lines of a text. The crates above use its definitions: which
//! replies are legal and fit (`specs/Legal.antt`), what the lines and words of a text are (`specs/Lines.antt`), what
//! is a name (`specs/Names.antt`) and which number a word spells (`specs/Decimals.antt`), and what a merge of two lists
//! is (`specs/Merge.antt`, with lemmas in `proofs/Merges.antt`).
#![tactic(auto)]

mod actor;
mod bytes;
mod decimal;
mod event;
mod fault;
mod fault_kind;
mod legal_replies;
mod limits;
mod lines;
mod name_set;
mod names;
mod render;
mod reply;
mod request;
mod sections;
mod word_lines;

pub use actor::Actor;
pub use bytes::Bytes;
pub use decimal::{DecimalFault, has_digits_alone, is_digit, read_decimal, value_of_digits};
pub use event::Event;
pub use fault::Fault;
pub use fault_kind::{FaultKind, fault_of_input};
pub use legal_replies::{fits, legal, may_answer, shows_number};
pub use limits::{
    DIGITS_LIMIT, KEY_BYTES_LIMIT, KEYS_LIMIT, REPLY_BODY_LIMIT, REQUEST_BYTES_LIMIT,
    REQUESTS_LIMIT, SCRIPT_BODY_LIMIT,
};
pub use lines::{Line, Lines, Separator, words_in};
pub use name_set::NameSet;
pub use names::{index_of, is_key, is_name, is_new};
pub use render::{append_all, render_reply, render_request, render_value, request_len};
pub use reply::{Class, Reply};
pub use request::{Fields, Request, Verb};
pub use sections::Sections;
use std::alloc::AllocError;
pub use word_lines::{WordLine, WordLines, is_word};

/// The error of a call that found no memory. Nothing has changed then, unless the call says otherwise.
pub type OutOfMemory = AllocError;
