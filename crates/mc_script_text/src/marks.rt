//! Reads the marks of a request, and checks that they may be written together.

ghost use Rattle.std.specs.Prelude.{◌≡◌, ◌==◌, Bool, true, false, map, [], Option, OnOk, OnErr};
ghost use Rattle.std.specs.List.{list_any, position};
ghost use Rattle.mc_script.specs.WellFormed as formed;
ghost use Rattle.mc_script_text.specs.Marks as spec;
ghost use Rattle.mc_script_text.specs.Reading as reading;

use crate::entry::{Flag, Mark, Marks, Sign};
use crate::fields::{is_number, mark_word};
use crate::word_fault::WordFault;
use crate::{Expected, ScriptKind, Sort};
use mc_protocol::{Bytes, Class, Fields, Verb, is_word, legal};
use mc_script::Names;
use std::alloc::Global;

/// The byte before a flag.
pub(crate) fn sign_byte(sign: Sign) -> u8
    ensures { result ≡ spec.sign_byte sign }
{
    match sign {
        Sign::RequireSet => b'?',
        Sign::RequireClear => b'!',
        Sign::Sets => b'+',
        Sign::Clears => b'-',
    }
}

fn sign_of(byte: u8) -> Option<Sign>
    ensures { result ≡ reading.sign_of byte }
{
    match byte {
        b'?' => Some(Sign::RequireSet),
        b'!' => Some(Sign::RequireClear),
        b'+' => Some(Sign::Sets),
        b'-' => Some(Sign::Clears),
        _ => None,
    }
}

/// Reads a mark that is written after `marks`, on a line that binds a variable or not.
fn read_mark(
    alloc: Global,
    names: &Names,
    verb: Verb,
    bound: bool,
    marks: &[Mark],
    word: &[u8],
) -> Result<Mark, WordFault>
    ensures { reading.Gives result (reading.joining verb bound marks.now (reading.mark_in names.now word.now)) }
{
    let index = mark_word(verb.fields(), marks.len());
    match word {
        [b'>', name @ ..] => read_bind_mark(names, verb, index, marks, name),
        [first, name @ ..] => {
            let mark = read_flag_or_jump(alloc, names, verb, index, sign_of(*first), name, word)?;
            check_mark(verb, bound, index, marks, &mark)?;
            Ok(mark)
        }
        [] => Err(WordFault::line(index, Expected::Mark)),
    }
}

/// Reads the name in `>VAR`, the word with this index in its line. Where the verb shows no number, or the line binds a
/// variable already, that is the fault also of a name that isn't declared.
fn read_bind_mark(
    names: &Names,
    verb: Verb,
    index: usize,
    marks: &[Mark],
    name: &[u8],
) -> Result<Mark, WordFault>
    ensures { (bound : Bool) → reading.Gives result (reading.joining verb bound marks.now (reading.bind_mark_in names.now name.now)) }
{
    if !shows_numbers(verb) {
        return Err(WordFault::line(index, Expected::ReplyWithNumber));
    }
    if has_bind_mark(marks) {
        return Err(twin(index, Expected::OneBind));
    }
    match names.variable(name) {
        Some(variable) => Ok(Mark::Bind(variable)),
        None => {
            let expected = Expected::KnownName(Sort::Variable);
            Err(WordFault::new(ScriptKind::UnknownVar, index, expected))
        }
    }
}

/// The fault of a mark with this index in its line, of which another one says the same thing.
fn twin(index: usize, expected: Expected) -> WordFault
    ensures { result.kind ≡ ScriptKind.Duplicate }
{
    WordFault::new(ScriptKind::Duplicate, index, expected)
}

fn read_flag_or_jump(
    alloc: Global,
    names: &Names,
    verb: Verb,
    index: usize,
    sign: Option<Sign>,
    name: &[u8],
    word: &[u8],
) -> Result<Mark, WordFault>
    ensures { reading.Gives result (reading.flag_or_jump names.now sign name.now word.now) }
{
    match sign {
        Some(sign) => read_flag(names, index, sign, name),
        None => read_jump(alloc, names, verb, index, word),
    }
}

fn read_flag(names: &Names, index: usize, sign: Sign, name: &[u8]) -> Result<Mark, WordFault>
    ensures { reading.Gives result (reading.flag_in names.now sign name.now) }
{
    match names.flag(name) {
        Some(flag) => Ok(Mark::Flag(sign, Flag::new(flag))),
        None => {
            let expected = Expected::KnownName(Sort::Flag);
            Err(WordFault::new(ScriptKind::UnknownFlag, index, expected))
        }
    }
}

fn read_jump(
    alloc: Global,
    names: &Names,
    verb: Verb,
    index: usize,
    word: &[u8],
) -> Result<Mark, WordFault>
    ensures { reading.Gives result (reading.jump_in word.now) }
{
    let Some(colon) = colon_of(word) else {
        return Err(WordFault::line(index, instead_of_mark(names, verb, word)));
    };
    let Some(class) = Class::from_word(&word[..colon]) else {
        return Err(WordFault::line(index, Expected::ReplyClass.unless_comment(word)));
    };
    Ok(Mark::Jump(
        class,
        Bytes::new(Vec::from_slice(alloc, &word[colon + 1..])?),
    ))
}

/// What was expected where this word is no mark of a request: the protocol's own line may have it there.
fn instead_of_mark(names: &Names, verb: Verb, word: &[u8]) -> Expected {
    if is_word(word, b"noreply") {
        return Expected::WithReply;
    }
    match verb.fields() {
        Fields::Expiry if is_number(word) => Expected::NoExpiry,
        Fields::Expiry | Fields::KeyAlone if names.key(word).is_some() => Expected::OneKey,
        _ => Expected::Mark.unless_comment(word),
    }
}

/// Where the first `:` stands.
fn colon_of(word: &[u8]) -> Option<usize>
    ensures { result ≡ position (λ byte. byte == 58) word.now }
{
    word.iter().position(|byte| *byte == b':')
}

/// Reads the marks of a request. The fault is that of the leftmost faulty word.
pub(crate) fn read_marks(
    alloc: Global,
    names: &Names,
    verb: Verb,
    words: &[&[u8]],
) -> Result<Marks, WordFault>
    ensures { reading.Gives result
        (reading.marks_in names.now verb (list_any reading.binds (map (λ w. w.now) words.now)) [] (map (λ w. w.now) words.now)) }
{
    let bound = has_bind(words);
    let mut marks = Vec::new(alloc);
    'words: for word in words {
        let mark = read_mark(alloc, names, verb, bound, &marks, word)?;
        marks.push(mark)?;
    }
    Ok(Marks::new(marks))
}

fn has_bind(words: &[&[u8]]) -> bool
    ensures { result ≡ list_any reading.binds (map (λ w. w.now) words.now) }
{
    any_binds(words)
}

fn any_binds(words: &[&[u8]]) -> bool
    ensures { result ≡ list_any (λ w. reading.binds w.now) words.now }
{
    words.iter().any(|word| binds(word))
}

/// Whether the word begins with `>`.
fn binds(word: &[u8]) -> bool
    ensures { result ≡ reading.binds word.now }
{
    match word {
        [first, ..] => *first == b'>',
        [] => false,
    }
}

fn has_bind_mark(marks: &[Mark]) -> bool
    ensures { result ≡ list_any spec.is_bind marks.now }
{
    marks.iter().any(|mark| is_bind(mark))
}

fn is_bind(mark: &Mark) -> bool
    ensures { result ≡ spec.is_bind mark.now }
{
    match mark {
        Mark::Bind(_) => true,
        _ => false,
    }
}

/// Checks that the mark, the word with this index in its line, may be written after `marks`, on a line that binds a variable
/// or not.
fn check_mark(
    verb: Verb,
    bound: bool,
    index: usize,
    marks: &[Mark],
    mark: &Mark,
) -> Result<(), WordFault>
    ensures ok { OnOk result (reading.may_join verb bound marks.now mark.now ≡ true) }
    ensures err { OnErr result (reading.may_join verb bound marks.now mark.now ≡ false) }
{
    if !may_stand(verb, mark) {
        return Err(WordFault::line(index, Expected::ReplyTo(verb)));
    }
    if bound && is_number_jump(mark) {
        return Err(WordFault::line(index, Expected::NoJumpBesideBind));
    }
    if has_twin(marks, mark) {
        return Err(twin(index, no_twin(mark)));
    }
    Ok(())
}

/// What was expected where another mark says the same thing as this one.
fn no_twin(mark: &Mark) -> Expected {
    match mark {
        Mark::Flag(_, _) => Expected::OneMarkOfFlag,
        Mark::Jump(_, _) => Expected::OneJumpOnClass,
        Mark::Bind(_) => Expected::OneBind,
    }
}

fn may_stand(verb: Verb, mark: &Mark) -> bool
    ensures { result ≡ spec.may_stand verb mark.now }
{
    match mark {
        Mark::Flag(_, _) => true,
        Mark::Jump(class, _) => legal(verb, *class),
        Mark::Bind(_) => shows_numbers(verb),
    }
}

fn shows_numbers(verb: Verb) -> bool
    ensures { result ≡ formed.shows_numbers verb }
{
    matches!(verb, Verb::Gets | Verb::Incr | Verb::Decr)
}

fn is_number_jump(mark: &Mark) -> bool
    ensures { result ≡ spec.is_number_jump mark.now }
{
    match mark {
        Mark::Jump(Class::Hit, _) => true,
        Mark::Jump(Class::Number, _) => true,
        _ => false,
    }
}

fn has_twin(marks: &[Mark], mark: &Mark) -> bool
    ensures { result ≡ list_any (λ other. spec.are_twins other mark.now) marks.now }
{
    marks.iter().any(|other| are_twins(other, mark))
}

fn are_twins(mark: &Mark, other: &Mark) -> bool
    ensures { result ≡ spec.are_twins mark.now other.now }
{
    match (mark, other) {
        (Mark::Flag(sign, flag), Mark::Flag(other_sign, other_flag)) => {
            flag.index() == other_flag.index() && is_need(*sign) == is_need(*other_sign)
        }
        (Mark::Jump(class, _), Mark::Jump(other_class, _)) => class.index() == other_class.index(),
        (Mark::Bind(_), Mark::Bind(_)) => true,
        _ => false,
    }
}

fn is_need(sign: Sign) -> bool
    ensures { result ≡ spec.is_need sign }
{
    matches!(sign, Sign::RequireSet | Sign::RequireClear)
}
