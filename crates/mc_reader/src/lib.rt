//! Readers of memcached's replies and of requests, which come in pieces of any length (`protocol.txt`, the classic text
//! protocol).
//!
//! Below it stand `mc_protocol`, and `memchr` for the search of a byte. What a reply is stands in `specs/Replies.antt`, by
//! cases on whole texts: the texts that spell a reply, and the shortest texts at which it fails; what a line says stands in
//! `specs/Lines.antt` and `specs/Words.antt`. What a request is stands in the same manner in `specs/AskEnds.antt`,
//! `specs/AskLines.antt` and `specs/AskWords.antt`. The laws of both: a text has one outcome and no proper prefix with one,
//! and what `mc_protocol` renders is read as what it was rendered for; and what is spelled as a reply fits its request.
//! The crates above use the contracts of [`ReplyReader::feed`] and [`RequestReader::feed`]: their answers rest on the joined
//! bytes that were fed, of one reply or since the last request, and not on how they were cut.
#![tactic(auto)]

mod ask;
mod ask_line;
mod ask_numbers;
mod ask_reader;
mod ask_said;
mod ask_stage;
mod ask_storage;
mod ask_words;
mod block;
mod fault;
mod gather;
mod item;
mod laws;
mod limits;
mod line;
mod number;
mod reader;
mod said;
mod shape;
mod stage;
mod step;
mod words;

pub use ask::{Ask, AskFault, Asked, Refuse};
pub use ask_reader::RequestReader;
pub use fault::{ErrorKind, ReadFault};
pub use laws::{one_ask, one_reply, spelled_replies_fit, written_is_asked, written_is_spelled};
pub use limits::{
    ANNOUNCED_LIMIT, LINE_LIMIT, NUMBER_SPACES_LIMIT, REQUEST_BODY_LIMIT, REQUEST_KEY_LIMIT,
};
pub use reader::{Fed, ReplyReader};
pub use shape::Shape;
