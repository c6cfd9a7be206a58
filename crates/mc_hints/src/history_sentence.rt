//! The sentences about a word of a history or of a step list that isn't what was expected in its place.

use crate::sentence::{END_OF_TEXT, KEY, KEY_BYTE, NO_LENGTH, before_faulty_byte, begins_faultily};
use crate::spot::Spot;
use mc_history::{Expected, ExpectedInTimeline};
use mc_protocol::{Verb, has_digits_alone, is_word};
use mc_words::ExpectedWord;

/// How many bytes of the word stand before what is at fault: the front of a key.
pub fn fault_start(expected: Expected, word: &[u8]) -> usize {
    match expected {
        Expected::Word(ExpectedWord::Key) if !is_word(word, b"->") => before_faulty_byte(word),
        _ => 0,
    }
}

/// What was expected at this place of a history or of a step list; and if the word there is the protocol's own, how it is written here:
/// the text of a sentence.
pub fn text_at(expected: Expected, spot: &Spot<'_>) -> &'static str {
    match expected {
        Expected::ReplyTo(_)
        | Expected::ReplyToLastRequest
        | Expected::Word(ExpectedWord::ReplyWord) => { sentence_of_reply(expected, spot.word()) }
        Expected::Word(word) => sentence_of_word(word, spot),
        Expected::HistoryHeader => "the first line is `history 1`, `history 2` or `history 3`",
        Expected::SectionOrEnd if is_word(spot.word(), b"start") =>
            "`start` stands only after `explain`: what P is answered shows what was there",
        Expected::SectionOrEnd => "a line begins with P, A or B, or is `explain` or `end` alone",
        Expected::Arrow if is_word(spot.word(), b"noreply") => NO_NOREPLY,
        Expected::Arrow => "expected `->` and the reply",
        Expected::BeginOrReply => "expected `begin` or `reply`",
        Expected::NewKey => "an earlier `start` line has this key",
        Expected::StartNumber => "expected the number of the key's version, a decimal",
        Expected::EndOfStart => "nothing may follow the number in a `start` line",
        Expected::MoveOrEnd => "a move begins with P, A or B; after the last stands `end` alone",
        Expected::MoveNumber => "expected the number of the version, a decimal",
        Expected::Marks => "only `pad`, `refuse` or `pad refuse` may follow the number",
        Expected::EndLine => "the text ends before the line `end`",
        Expected::EndOfText => END_OF_TEXT,
        Expected::RoomForRequest => "a section has at most 24 requests, and a history 8 keys",
        Expected::RequestInTurn => "P comes before A and B, and a section waits for each reply",
        Expected::AwaitedReply => "the section waits for no reply here",
        Expected::ClearedKey => "P must delete this key first, answered DELETED or NOT_FOUND",
        Expected::SeenUnique => "no `gets` of the key showed this number to the section or to P",
        Expected::StepsHeader => "a step list begins with the line `steps`",
        Expected::StepOrEnd => "a step begins with P, A or B; after the last stands `end` alone",
        Expected::Event => "expected `begin`, `reply` or `fail`",
        Expected::EndAfterBegin => "nothing may follow `begin`",
        Expected::FaultNumber => "expected the number of a fault, 1 to 8",
        Expected::EndAfterFault => "nothing may follow the number of a fault",
        Expected::RoomForStep => "a step list has at most 1000 steps",
        Expected::InTimeline(expected) => sentence_of_timeline(expected, spot.word()),
    }
}

fn sentence_of_timeline(expected: ExpectedInTimeline, word: &[u8]) -> &'static str {
    match expected {
        ExpectedInTimeline::Header => "a timeline begins with the line `history 3`",
        ExpectedInTimeline::NoteOrEnd if is_word(word, b"start") =>
            "lines with `start` come after the line `explain`",
        ExpectedInTimeline::NoteOrEnd =>
            "a line begins with a client's number, 0 to 63, or is `explain` or `end` alone",
        ExpectedInTimeline::MoveOrEnd =>
            "a move begins with a client's number, 0 to 63; after the last stands `end` alone",
        ExpectedInTimeline::Client => "a client's number has no leading zero",
        ExpectedInTimeline::SmallClient => "clients have the numbers 0 to 63",
        ExpectedInTimeline::RoomForRequest =>
            "a timeline has at most 100000 requests, and 1000 keys",
        ExpectedInTimeline::IdleClient => "the client waits for a reply here",
        ExpectedInTimeline::AwaitedReply => "the client waits for no reply here",
        ExpectedInTimeline::OpenedKey =>
            "a key begins with a delete or a set, and is used from its answer on",
        ExpectedInTimeline::SeenUnique =>
            "no reply to a `gets` of the key showed this number before",
        ExpectedInTimeline::FittingReply => "the client's request can't have this reply",
    }
}

const NO_NOREPLY: &str = "leave `noreply` out: each request gets its reply";

fn sentence_of_word(expected: ExpectedWord, spot: &Spot<'_>) -> &'static str {
    let word = spot.word();
    match expected {
        ExpectedWord::Verb if is_word(word, b"flush_all") =>
            "write a delete of each key in place of `flush_all`",
        ExpectedWord::Verb =>
            "a request is set, add, replace, append, prepend, cas, get, gets, incr, decr, delete or touch",
        ExpectedWord::Key if is_word(word, b"->") => "expected a key before `->`",
        ExpectedWord::Key if begins_faultily(spot.rest()) => KEY_BYTE,
        ExpectedWord::Key => KEY,
        ExpectedWord::Flags => "flags are a decimal below 2^32",
        ExpectedWord::Body if has_digits_alone(word) => NO_LENGTH,
        ExpectedWord::Body => "expected `=` and the bytes of the body",
        ExpectedWord::VisibleByte => "such a byte is written `%` and two hexadecimal digits",
        ExpectedWord::HexDigits => "expected two hexadecimal digits after `%`; `%25` is a `%`",
        ExpectedWord::ShortBody => "a body has at most 65536 bytes",
        ExpectedWord::Unique => "expected the cas unique of the `cas`, a decimal",
        ExpectedWord::Amount => "the amount is a decimal",
        ExpectedWord::ShownUnique => "expected the cas unique that the HIT shows, a decimal",
        ExpectedWord::NewValue => "expected the new value after NUMBER, a decimal",
        ExpectedWord::FlagsOf32Bits => "flags are below 2^32, in at most 20 digits",
        ExpectedWord::NumberOf64Bits => "a number is below 2^64, in at most 20 digits",
        ExpectedWord::EndAfterKey | ExpectedWord::EndAfterBody | ExpectedWord::EndAfterNumber
            if is_word(word, b"noreply") => NO_NOREPLY,
        ExpectedWord::EndAfterKey if has_digits_alone(word) =>
            "no expiry time is written after the key",
        ExpectedWord::EndAfterKey => "nothing may follow the key in this request",
        ExpectedWord::EndAfterBody => "nothing may follow the body in this request",
        ExpectedWord::EndAfterNumber => "nothing may follow the number",
        ExpectedWord::EndAfterReply => "nothing may follow this reply",
        ExpectedWord::ReplyWord => "another word must stand here",
    }
}

fn sentence_of_reply(expected: Expected, word: &[u8]) -> &'static str {
    match (expected, word) {
        (_, b"END") => "END of a get is written MISS here",
        (_, b"VALUE") => "VALUE is written HIT here",
        (_, b"CLIENT_ERROR") => "CLIENT_ERROR is written NOT_A_NUMBER here",
        (_, b"ERROR" | b"SERVER_ERROR") => "{word} is no reply that is recorded",
        _ if has_digits_alone(word) => "a number is written NUMBER n here",
        (Expected::ReplyTo(Verb::Get), _) => "a reply to `get` is HIT FLAGS BODY or MISS",
        (Expected::ReplyTo(Verb::Gets), _) => "a reply to `gets` is HIT FLAGS BODY CAS or MISS",
        (Expected::ReplyTo(Verb::Delete), _) => "a reply to `delete` is DELETED or NOT_FOUND",
        (Expected::ReplyTo(Verb::Touch), _) => "a reply to `touch` is TOUCHED or NOT_FOUND",
        (Expected::ReplyTo(Verb::Incr | Verb::Decr), _) =>
            "the reply here is NUMBER n, NOT_FOUND or NOT_A_NUMBER",
        (Expected::ReplyTo(_), _) => "the reply here is STORED, NOT_STORED, EXISTS or NOT_FOUND",
        (Expected::ReplyToLastRequest, _) => "the section's last request can't have this reply",
        _ =>
            "a reply is HIT, MISS, STORED, NOT_STORED, EXISTS, NOT_FOUND, DELETED, TOUCHED, NUMBER or NOT_A_NUMBER",
    }
}
