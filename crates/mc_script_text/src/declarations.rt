//! Reads what stands before the sections: the header, the names that are declared, and the budgets.

ghost use Rattle.std.specs.Prelude.{◌≡◌, ◌≤◌, true, false, map, OnOk, OnErr, Option};
ghost use Rattle.std.specs.{List.list_any, Result.result_ok, Str.bytes_eq};
ghost use Rattle.mc_protocol.specs.Decimals as decimals;
ghost use Rattle.mc_script_text.specs.Reading as reading;

use crate::lines::{next_due, unexpected};
use crate::word_fault::WordFault;
use crate::words::read_number;
use crate::{Expected, ScriptFault, ScriptKind, Sort};
use mc_protocol::{
    Actor, Bytes, KEY_BYTES_LIMIT, KEYS_LIMIT, REQUEST_BYTES_LIMIT, REQUESTS_LIMIT, WordLine,
    WordLines, is_name, is_word,
};
use mc_script::{Budget, NAME_BYTES_LIMIT, Version};
use std::alloc::Global;

/// Reads the names of this sort after the first word of a line: at most `limit`, each of at most `bytes` bytes. The fault
/// is that of the first that can't be declared after those before it.
#[tactic(auto, unfolding(crate::specs::Reading::names_in))]
fn read_names(
    alloc: Global,
    sort: Sort,
    limit: usize,
    bytes: usize,
    words: &[&[u8]],
) -> Result<Vec<Bytes>, WordFault>
    ensures { reading.Shows (λ names. names.items) result (reading.names_in limit bytes (map (λ w. w.now) words.now)) }
{
    if words.is_empty() {
        return Err(WordFault::line(1, Expected::Name(sort)));
    }
    let mut names = Vec::new(alloc);
    'words: for word in words {
        check_name(sort, limit, bytes, &names, word)?;
        names.push(Bytes::new(Vec::from_slice(alloc, word)?))?;
    }
    Ok(names)
}

/// Checks that the word after these names of its line may be declared with them.
fn check_name(
    sort: Sort,
    limit: usize,
    bytes: usize,
    names: &[Bytes],
    word: &[u8],
) -> Result<(), WordFault>
    ensures ok { OnOk result (reading.may_follow_names limit bytes names.now word.now ≡ true) }
    ensures err { OnErr result (reading.may_follow_names limit bytes names.now word.now ≡ false) }
{
    let index = names.len().saturating_add(1);
    if !is_name(bytes, word) {
        let expected = Expected::Name(sort).unless_comment(word);
        return Err(WordFault::new(ScriptKind::Name, index, expected));
    }
    if has_name(names, word) {
        let expected = Expected::NewName(sort);
        return Err(WordFault::new(ScriptKind::Duplicate, index, expected));
    }
    if names.len() >= limit {
        let expected = Expected::FewerNames(sort);
        return Err(WordFault::new(ScriptKind::TooMany, index, expected));
    }
    Ok(())
}

fn has_name(names: &[Bytes], word: &[u8]) -> bool
    ensures { result ≡ list_any (bytes_eq word.now) names.now }
{
    names.iter().any(|name| is_word(word, name.as_slice()))
}

/// Takes the header: `script`, and the version.
pub(crate) fn take_header(alloc: Global, lines: &mut WordLines) -> Result<Version, ScriptFault>
    ensures { reading.Says (λ version. (version, lines.new.words)) result (reading.header_in lines.old.words) }
{
    match lines.next(alloc)? {
        Some(line) => match header_version(line.words()) {
            Ok(version) => Ok(version),
            Err(fault) => Err(fault.on(line.number())),
        },
        None => Err(no_header(0, Expected::Header).on(1)),
    }
}

/// The version of a header.
fn header_version(words: &[&[u8]]) -> Result<Version, WordFault>
    ensures { result_ok result ≡ reading.header_version (map (λ w. w.now) words.now) }
{
    let [word, others @ ..] = words else {
        return Err(no_header(0, Expected::Header));
    };
    if !is_word(word, b"script") {
        return Err(no_header(0, Expected::Header.unless_comment(word)));
    }
    let [number, others @ ..] = others else {
        return Err(no_header(1, Expected::Version));
    };
    let Some(version) = version_of_word(number) else {
        return Err(no_header(1, Expected::Version));
    };
    if let [other, ..] = others {
        return Err(no_header(2, Expected::LineEnd.unless_comment(other)));
    }
    Ok(version)
}

/// The fault of the word with this index where the header was due.
fn no_header(word: usize, expected: Expected) -> WordFault
    ensures { result.kind ≡ ScriptKind.Header }
{
    WordFault::new(ScriptKind::Header, word, expected)
}

/// The version with this word.
fn version_of_word(word: &[u8]) -> Option<Version>
    ensures { result ≡ reading.version_of_word word.now }
{
    match word {
        b"1" => Some(Version::One),
        b"2" => Some(Version::Two),
        _ => None,
    }
}

/// Takes the line that declares the keys.
pub(crate) fn take_keys(alloc: Global, lines: &mut WordLines) -> Result<Vec<Bytes>, ScriptFault>
    ensures { reading.Says (λ keys. (keys.items, lines.new.words)) result (reading.keys_in lines.old.words) }
{
    let line = next_due(alloc, lines, ScriptKind::Header, Expected::Keys)?;
    if !line.begins_with(b"keys") {
        return Err(unexpected(ScriptKind::Header, Expected::Keys, &line));
    }
    match read_names(alloc, Sort::Key, KEYS_LIMIT, KEY_BYTES_LIMIT, line.others()) {
        Ok(keys) => Ok(keys),
        Err(fault) => Err(fault.on(line.number())),
    }
}

/// Reads the names of this sort that this line declares, if it begins with the word, and then takes the line after it.
pub(crate) fn read_optional<'a>(
    alloc: Global,
    lines: &mut WordLines<'a>,
    sort: Sort,
    word: &[u8],
    limit: usize,
    line: WordLine<'a>,
) -> Result<(Vec<Bytes>, WordLine<'a>), ScriptFault>
    ensures { reading.Says (λ r. (r.0.items, r.1.words, lines.new.words)) result
        (reading.optional_in word.now limit line.entry.words lines.old.words) }
{
    if !line.begins_with(word) {
        return Ok((Vec::new(alloc), line));
    }
    match read_names(alloc, sort, limit, NAME_BYTES_LIMIT, line.others()) {
        Ok(names) => {
            let next = next_due(alloc, lines, ScriptKind::Header, Expected::Budget(Actor::P))?;
            Ok((names, next))
        }
        Err(fault) => Err(fault.on(line.number())),
    }
}

/// Reads the budget of a section.
pub(crate) fn read_budget(actor: Actor, line: &WordLine) -> Result<Budget, ScriptFault>
    ensures { reading.Says (λ budget. budget) result (reading.budget_in actor line.now.words) }
{
    match budget_of(actor, line.words()) {
        Ok(budget) => Ok(budget),
        Err(fault) => Err(fault.on(line.number())),
    }
}

#[tactic(auto, unfolding(crate::specs::Reading::budget_in))]
fn budget_of(actor: Actor, words: &[&[u8]]) -> Result<Budget, WordFault>
    ensures { result_ok result ≡ reading.budget_in actor (map (λ w. w.now) words.now) }
{
    let due = Expected::Budget(actor);
    let [word, others @ ..] = words else {
        return Err(WordFault::new(ScriptKind::Header, 0, due));
    };
    if !is_word(word, b"budget") {
        let expected = due.unless_comment(word);
        return Err(WordFault::new(ScriptKind::Header, 0, expected));
    }
    let [section, numbers @ ..] = others else {
        return Err(WordFault::line(1, due));
    };
    if !is_word(section, actor.word().as_bytes()) {
        return Err(WordFault::new(other_section(section), 1, due));
    }
    read_numbers(numbers)
}

/// The kind of the fault of a budget that is not the one that is due: it is out of its place, or of no section.
fn other_section(word: &[u8]) -> ScriptKind {
    match Actor::from_word(word) {
        Some(_) => ScriptKind::Header,
        None => ScriptKind::Line,
    }
}

/// Reads the words after the section, which stand third and fourth in their line.
fn read_numbers(words: &[&[u8]]) -> Result<Budget, WordFault>
    ensures { result_ok result ≡ reading.numbers_in (map (λ w. w.now) words.now) }
{
    let [requests, rest @ ..] = words else {
        return Err(WordFault::line(2, Expected::BudgetRequests));
    };
    let requests = read_limited_number(
        REQUESTS_LIMIT as u64,
        2,
        Expected::BudgetRequests,
        requests,
    )?;
    let [bytes, rest @ ..] = rest else {
        return Err(WordFault::line(3, Expected::BudgetBytes));
    };
    let bytes = read_limited_number(REQUEST_BYTES_LIMIT as u64, 3, Expected::BudgetBytes, bytes)?;
    if let [other, ..] = rest {
        return Err(WordFault::too_many(4, other));
    }
    Ok(Budget { requests, bytes })
}

/// Reads a number of a budget, the word with this index in its line.
#[tactic(auto, unfolding(mc_protocol::specs::Decimals::decimal_in))]
fn read_limited_number(
    limit: u64,
    index: usize,
    expected: Expected,
    word: &[u8],
) -> Result<u32, WordFault>
    requires { limit ≤ decimals.MAX_32 }
    ensures { result_ok result ≡ reading.number_in limit word.now }
{
    let Some(number) = read_number(u64::MAX, word) else {
        return Err(WordFault::new(ScriptKind::Number, index, expected));
    };
    if number > limit {
        return Err(WordFault::new(ScriptKind::Budget, index, expected));
    }
    Ok(number as u32)
}
