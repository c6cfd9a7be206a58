//! The sentences about a word of a script that isn't what was expected in its place, and about a script that is too large.

use crate::sentence::{END_OF_TEXT, KEY, KEY_BYTE, NO_LENGTH, before_faulty_byte, begins_faultily};
use crate::spot::Spot;
use mc_assembler::AsmFault;
use mc_protocol::{Actor, Verb, has_digits_alone, is_word};
use mc_script_text::{Expected, Sort};

// A word that was written with a space inside.
const PARTED_BEFORE: &str = "`{previous}` and `{word}` are one word: `{previous}{word}`";

const PARTED_AFTER: &str = "`{word}` and `{next}` are one word: `{word}{next}`";

/// How many bytes of the word stand before what is at fault: a mark of a flag or a variable, the class of a jump, or the front of a name.
pub fn fault_start(expected: Expected, word: &[u8]) -> usize {
    match (expected, word) {
        (Expected::Name(_), [name @ .., b':']) | (Expected::Name(_), name) => before_faulty_byte(
            name,
        ),
        (Expected::KnownName(Sort::Label) | Expected::LabelBelow, _) => {
            let colon = word.iter().position(|byte| *byte == b':');
            colon.map_or(0, |colon| colon.saturating_add(1))
        }
        (
            Expected::KnownName(Sort::Flag | Sort::Variable),
            [b'>' | b'$' | b'?' | b'!' | b'+' | b'-', ..],
        ) => 1,
        _ => 0,
    }
}

/// What was expected at this place of a script, and how it is written: the text of a sentence.
pub fn text_at(expected: Expected, spot: &Spot<'_>) -> &'static str {
    let (previous, word, next) = (spot.previous(), spot.word(), spot.next());
    match expected {
        Expected::Header => "a script begins with the line `script 1` or `script 2`",
        Expected::Version => "the version of a script is 1 or 2",
        Expected::Keys => "expected `keys` and the names of the keys",
        Expected::Budget(Actor::P) if previous.is_empty() =>
            "expected `flags`, `vars` or `budget P`, in this order (`flags` and `vars` are optional)",
        Expected::Budget(Actor::P) => "expected `budget P REQUESTS BYTES` before those of A and B",
        Expected::Budget(Actor::A) => "expected `budget A REQUESTS BYTES`",
        Expected::Budget(Actor::B) => "expected `budget B REQUESTS BYTES`",
        Expected::BudgetRequests if word.is_empty() =>
            "REQUESTS and BYTES are missing: `budget {second} REQUESTS BYTES`",
        Expected::BudgetRequests => "REQUESTS is a decimal, at most 24",
        Expected::BudgetBytes if word.is_empty() =>
            "BYTES is missing: `budget {second} REQUESTS BYTES`",
        Expected::BudgetBytes => "BYTES is a decimal, at most 8192",
        Expected::Section(Actor::P) => "expected P: write P, A and B even if a section is empty",
        Expected::Section(Actor::A) => "expected A: write P, A and B even if a section is empty",
        Expected::Section(Actor::B) => "expected B: write P, A and B even if a section is empty",
        Expected::End => "expected `end`, which ends section B",
        Expected::NothingAfterEnd => END_OF_TEXT,
        Expected::NoDeclaration => "names and budgets stand before the first section",
        Expected::FewerSteps => "a section has at most 64 steps (128 with `script 2`)",
        Expected::LineEnd => "nothing more may stand in this line",
        Expected::LabelAlone => "a label stands alone on its line",
        Expected::CommentAlone => "a comment has a line of its own, and `#` is its first byte",
        Expected::Step if is_word(next, b":") => PARTED_AFTER,
        Expected::Step if is_word(word, b"flush_all") =>
            "leave `flush_all` out: P deletes each key before its steps",
        Expected::Step =>
            "expected a request (set, add, replace, append, prepend, cas, get, gets, incr, decr, \
             delete or touch), `bind`, `goto`, `halt`, a label `NAME:` or the next section",
        Expected::Name(_) | Expected::NewName(_) | Expected::FewerNames(_) => {
            sentence_of_name(expected, spot)
        }
        Expected::KnownName(_) | Expected::LabelBelow => sentence_of_use(expected, spot),
        _ => sentence_of_request(expected, spot),
    }
}

// About a name where it is declared.
fn sentence_of_name(expected: Expected, spot: &Spot<'_>) -> &'static str {
    match expected {
        Expected::Name(Sort::Key) if begins_faultily(spot.rest()) => KEY_BYTE,
        Expected::Name(Sort::Key) => KEY,
        Expected::Name(_) if begins_faultily(spot.rest()) =>
            "`{byte}` can't stand in a name, which is 1 to 20 of a-z, 0-9 and `-`",
        Expected::NewName(Sort::Label) => "the section has this label already",
        Expected::NewName(_) => "`{name}` is declared already",
        Expected::FewerNames(Sort::Key) => "a script has at most 8 keys",
        Expected::FewerNames(Sort::Flag) => "a script has at most 32 flags (64 with `script 2`)",
        Expected::FewerNames(_) => "a script has at most 16 variables",
        _ => "a name is 1 to 20 of a-z, 0-9 and `-`",
    }
}

// About a name where it is used.
fn sentence_of_use(expected: Expected, spot: &Spot<'_>) -> &'static str {
    let is_missing = spot.rest().is_empty();
    match expected {
        Expected::KnownName(Sort::Flag | Sort::Variable) if is_missing && !spot.next().is_empty() =>
            PARTED_AFTER,
        Expected::KnownName(Sort::Key) if is_missing => "expected a key: `{form}`",
        Expected::KnownName(Sort::Flag) if is_missing => "expected the name of a flag",
        Expected::KnownName(Sort::Variable) if is_missing => "expected the name of a variable",
        Expected::KnownName(Sort::Key) => "`keys` doesn't declare `{name}`",
        Expected::KnownName(Sort::Flag) => "`flags` doesn't declare `{name}`",
        Expected::KnownName(Sort::Variable) => "`vars` doesn't declare `{name}`",
        _ if is_missing => "expected a label",
        Expected::KnownName(Sort::Label) => "this section has no line `{name}:` further down",
        _ => "a jump leads further down, and this label stands above: there are no loops",
    }
}

// About a word of a request after its key.
fn sentence_of_request(expected: Expected, spot: &Spot<'_>) -> &'static str {
    let (previous, word, verb) = (spot.previous(), spot.word(), spot.verb());
    match expected {
        Expected::Flags => "expected FLAGS, a decimal below 2^32: `{form}`",
        Expected::Body if has_digits_alone(word) => NO_LENGTH,
        Expected::Body => "expected `=` and at most 64 letters and digits: `{form}`",
        Expected::LettersAndDigits => "after `=` a body has only letters and digits, at most 64",
        Expected::NoExpiry if verb == Some(Verb::Touch) =>
            "a `touch` has only a key: its expiry time is always 0",
        Expected::NoExpiry => NO_LENGTH,
        Expected::Unique if has_digits_alone(word) =>
            "a cas unique is `$` and a variable, which has it by `gets KEY >VAR`",
        Expected::Unique if spot.next().starts_with(b"$") =>
            "a body has no spaces, and `$VAR` follows it: `{form}`",
        Expected::Unique => "expected `$` and a variable: `{form}`",
        Expected::Amount => "expected AMOUNT, a decimal below 2^64 or `$VAR`: `{form}`",
        Expected::Mark if is_word(previous, b"=") || previous.ends_with(b":") => PARTED_BEFORE,
        Expected::Mark if spot.next().starts_with(b":") => PARTED_AFTER,
        Expected::Mark if previous.starts_with(b"=") =>
            "a body has no spaces; after it stand only marks: `?FLAG`, `!FLAG`, `+FLAG`, `-FLAG`, \
             `CLASS:LABEL` or `>VAR`",
        Expected::Mark =>
            "only marks may stand here: `?FLAG`, `!FLAG`, `+FLAG`, `-FLAG`, `CLASS:LABEL` or `>VAR`",
        Expected::OneKey => "a request has one key: write one request for each",
        Expected::WithReply => "each request gets its reply: leave `noreply` out",
        Expected::OneBind => "a request has at most one `>VAR`",
        Expected::ReplyWithNumber if verb == Some(Verb::Get) =>
            "`get` shows no cas unique: write `gets`",
        Expected::ReplyWithNumber => "only the replies to `gets`, `incr` and `decr` show a number",
        Expected::OneMarkOfFlag =>
            "a request has at most one of `?` and `!` for a flag, and at most one of `+` and `-`",
        _ => sentence_of_jump(expected, word),
    }
}

// About a jump.
fn sentence_of_jump(expected: Expected, word: &[u8]) -> &'static str {
    match expected {
        Expected::NoJumpBesideBind => "with `>VAR` a hit or a number leads to the next step",
        Expected::OneJumpOnClass => "a request has at most one jump on a class",
        Expected::ReplyClass if word.starts_with(b"END:") => "END is `miss` here",
        Expected::ReplyClass if word.starts_with(b"VALUE:") => "VALUE is `hit` here",
        Expected::ReplyClass if word.starts_with(b"CLIENT_ERROR:") =>
            "CLIENT_ERROR is `notnumber` here",
        Expected::ReplyClass =>
            "a class is stored, notstored, exists, notfound, hit, miss, deleted, touched, number or notnumber",
        Expected::ReplyTo(Verb::Get | Verb::Gets) => "a reply to `{first}` is hit or miss",
        Expected::ReplyTo(Verb::Incr | Verb::Decr) =>
            "a reply to `{first}` is number, notfound or notnumber",
        Expected::ReplyTo(Verb::Delete) => "a reply to `{first}` is deleted or notfound",
        Expected::ReplyTo(Verb::Touch) => "a reply to `{first}` is touched or notfound",
        Expected::ReplyTo(_) => "a reply to `{first}` is stored, notstored, exists or notfound",
        _ => "another word must stand here",
    }
}

/// The sentence about a script that exceeds this limit, in lines.
pub fn size_sentence(fault: AsmFault) -> &'static str {
    match fault {
        AsmFault::TooManyTemplates =>
            "each key and each request takes a template, and there are at most 64\n",
        AsmFault::TooManyInstructions(_) =>
            "a section has at most 128 instructions: one for each step, one more for each\n\
             `>VAR`, one for its end, and in P one for each key\n",
        AsmFault::OutOfMemory => "",
    }
}
