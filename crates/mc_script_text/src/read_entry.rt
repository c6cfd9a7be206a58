//! Reads the words of a line of a section.

ghost use Rattle.std.specs.Prelude.{◌≡◌, ◌∷◌, Some, None, map, drop, MatchOption, if◌then◌else◌};
ghost use Rattle.std.specs.Result.{result_ok};
ghost use Rattle.mc_protocol.specs.declared.request.Verb.{Verb};
ghost use Rattle.mc_script_text.specs.declared.read_entry.Keyword.TheVariants as keyword;
ghost use Rattle.mc_script.specs.ScriptWords as words;
ghost use Rattle.mc_script_text.specs.Reading as reading;

use crate::entry::Entry;
use crate::fields::{field_count, read_fields};
use crate::marks::read_marks;
use crate::word_fault::WordFault;
use crate::{Expected, ScriptKind, Sort};
use mc_protocol::{Actor, Bytes, Verb, is_name, is_word};
use mc_script::{NAME_BYTES_LIMIT, Names, Template};
use std::alloc::Global;

/// What the first word of a step says it is.
#[derive(Clone, Copy)]
pub(crate) enum Keyword {
    Bind,
    Goto,
    Halt,
    Request(Verb),
}

impl Keyword {
    /// The keyword with this word, which the others follow in a section that the word `stop` ends.
    fn from_word(word: &[u8], others: &[&[u8]], stop: &[u8]) -> Result<Keyword, WordFault>
        ensures { result_ok result ≡ reading.keyword_of word.now }
    {
        if is_word(word, b"bind") {
            return Ok(Keyword::Bind);
        }
        if is_word(word, b"goto") {
            return Ok(Keyword::Goto);
        }
        if is_word(word, b"halt") {
            return Ok(Keyword::Halt);
        }
        match Verb::from_word(word) {
            Some(verb) => Ok(Keyword::Request(verb)),
            None => Err(no_keyword(word, others, stop)),
        }
    }
}

/// The fault of a line whose first word is no keyword. A declaration is out of its place. A label, or the word that ends the
/// section, would be right if no other word followed it.
fn no_keyword(word: &[u8], others: &[&[u8]], stop: &[u8]) -> WordFault {
    if begins_declaration(word) {
        return WordFault::new(ScriptKind::Header, 0, Expected::NoDeclaration);
    }
    match others {
        [other, ..] if before_colon(word).is_some() => {
            WordFault::line(1, Expected::LabelAlone.unless_comment(other))
        }
        [other, ..] if is_word(word, stop) => WordFault::too_many(1, other),
        _ if is_section_line(word) => WordFault::line(0, due(stop)),
        _ => WordFault::line(0, Expected::Step.unless_comment(word)),
    }
}

fn is_section_line(word: &[u8]) -> bool {
    Actor::from_word(word).is_some() || is_word(word, b"end")
}

/// The line that is due where a section ends that this word ends.
pub(crate) fn due(stop: &[u8]) -> Expected {
    match Actor::from_word(stop) {
        Some(actor) => Expected::Section(actor),
        None => Expected::End,
    }
}

fn begins_declaration(word: &[u8]) -> bool {
    is_word(word, b"keys")
        || is_word(word, b"flags")
        || is_word(word, b"vars")
        || is_word(word, b"budget")
}

/// Reads the words of a line that is no label, in a section that the word `stop` ends. The fault is that of the leftmost
/// faulty word; that the section has no room for another step goes before those of the words after the first. A missing word
/// stands after the last.
#[tactic(auto, unfolding(crate::specs::Reading::entry_in))]
pub(crate) fn read_step(
    alloc: Global,
    names: &Names,
    has_room: bool,
    stop: &[u8],
    words: &[&[u8]],
) -> Result<Entry, WordFault>
    requires { reading.label_of (map (λ w. w.now) words.now) ≡ None }
    ensures { reading.Gives result (if has_room then reading.entry_in names.now (map (λ w. w.now) words.now) else None) }
{
    let [word, others @ ..] = words else {
        return Err(WordFault::line(0, Expected::Step));
    };
    let keyword = Keyword::from_word(word, others, stop)?;
    if !has_room {
        return Err(WordFault::new(ScriptKind::TooMany, 0, Expected::FewerSteps));
    }
    read_others(alloc, names, keyword, others)
}

/// Reads the words of a step after the first.
fn read_others(
    alloc: Global,
    names: &Names,
    keyword: Keyword,
    words: &[&[u8]],
) -> Result<Entry, WordFault>
    ensures { reading.Gives result (reading.step_words names.now keyword (map (λ w. w.now) words.now)) }
{
    match words {
        [] => match keyword {
            Keyword::Halt => Ok(Entry::Halt),
            Keyword::Bind => Err(WordFault::line(1, Expected::KnownName(Sort::Variable))),
            Keyword::Goto => Err(WordFault::line(1, Expected::LabelBelow)),
            Keyword::Request(_) => Err(WordFault::line(1, Expected::KnownName(Sort::Key))),
        },
        [word, others @ ..] => match keyword {
            Keyword::Bind => read_bind(names, word, others),
            Keyword::Goto => read_goto(alloc, word, others),
            Keyword::Halt => Err(WordFault::too_many(1, word)),
            Keyword::Request(verb) => read_request(alloc, names, verb, word, others),
        },
    }
}

/// Reads the name of a label.
pub(crate) fn read_label(alloc: Global, name: &[u8]) -> Result<Entry, WordFault>
    ensures { reading.Gives result (reading.label_named name.now) }
{
    if !is_name(NAME_BYTES_LIMIT, name) {
        let expected = Expected::Name(Sort::Label);
        return Err(WordFault::new(ScriptKind::Name, 0, expected));
    }
    Ok(Entry::Label(Bytes::new(Vec::from_slice(alloc, name)?)))
}

/// The bytes before the `:` at the end of a word.
pub(crate) fn before_colon<'a>(word: &'a [u8]) -> Option<&'a [u8]>
    ensures { MatchOption result (reading.before_colon word.now ≡ None) (λ name. reading.before_colon word.now ≡ Some name.now) }
{
    let [name @ .., last] = word else {
        return None;
    };
    if *last == b':' { Some(name) } else { None }
}

fn read_bind(names: &Names, name: &[u8], others: &[&[u8]]) -> Result<Entry, WordFault>
    ensures { result_ok result ≡ reading.step_words names.now keyword.Bind (name.now ∷ map (λ w. w.now) others.now) }
{
    let Some(variable) = names.variable(name) else {
        let expected = Expected::KnownName(Sort::Variable);
        return Err(WordFault::new(ScriptKind::UnknownVar, 1, expected));
    };
    if let [other, ..] = others {
        return Err(WordFault::too_many(2, other));
    }
    Ok(Entry::Bind(variable))
}

fn read_goto(alloc: Global, label: &[u8], others: &[&[u8]]) -> Result<Entry, WordFault>
    ensures { reading.Gives result (reading.goto_in label.now (map (λ w. w.now) others.now)) }
{
    if let [other, ..] = others {
        return Err(WordFault::too_many(2, other));
    }
    Ok(Entry::Goto(Bytes::new(Vec::from_slice(alloc, label)?)))
}

/// Reads the words after the verb.
fn read_request(
    alloc: Global,
    names: &Names,
    verb: Verb,
    key: &[u8],
    words: &[&[u8]],
) -> Result<Entry, WordFault>
    ensures { reading.Gives result (reading.request_in names.now verb key.now (map (λ w. w.now) words.now)) }
{
    let Some(key) = names.key(key) else {
        let expected = Expected::KnownName(Sort::Key);
        return Err(WordFault::new(ScriptKind::UnknownKey, 1, expected));
    };
    let parts = read_fields(alloc, names, verb.fields(), words)?;
    let marks = read_marks(
        alloc,
        names,
        verb,
        words_after(words, field_count(verb.fields())),
    )?;
    let template = Template {
        verb,
        key,
        flags: parts.flags,
        argument: parts.argument,
        body: parts.body,
        require_set: 0,
        require_clear: 0,
        sets: 0,
        clears: 0,
    };
    Ok(Entry::Send(template, marks))
}

/// The words after the first `count`; none where there are fewer.
fn words_after<'w, 'a>(words: &'w [&'a [u8]], count: usize) -> &'w [&'a [u8]]
    ensures { map (λ w. w.now) result.now ≡ drop count (map (λ w. w.now) words.now) }
{
    if count <= words.len() {
        &words[count..]
    } else {
        &[]
    }
}
