//! How the words of requests and replies are read.
ghost use Rattle.std.specs.Prelude.{◌≡◌, ◌≢◌, ◌+◌, ◌≤◌, map, length, IfOk, IfErr};
ghost use Rattle.mc_protocol.specs.Decimals.{MAX_32};
ghost use Rattle.mc_words.specs.Words as spec;
ghost use Rattle.mc_words.specs.Reading as reading;
ghost use Rattle.mc_words.specs.Misreadings.{IsWithin};

use crate::{ExpectedWord, WordsFault, WordsKind, read_body, read_number};
use mc_protocol::{Bytes, Class, Fields, Reply, Request, Verb, is_key};
use std::alloc::Global;

/// Reads the words of a request: its verb, its key, and what the verb has after the key. The fault is that of the
/// leftmost faulty word, where a missing word comes after the last.
pub fn read_request_words(alloc: Global, words: &[&[u8]]) -> Result<Request, WordsFault>
    ensures found { IfOk result (spec.SpellsRequest (map (λ w. w.now) words.now)) }
    ensures none { IfErr result (λ fault. fault.kind ≢ WordsKind.OutOfMemory
        → (r : Request) → spec.SpellsRequest (map (λ w. w.now) words.now) r → ⊥) }
    ensures word { IfErr result (IsWithin (length words.now)) }
{
    request_in(alloc, words)
}

/// Reads a request. The public function adds to the contract what words spell.
#[tactic(auto, unfolding(crate::specs::Reading::request_in))]
fn request_in(alloc: Global, words: &[&[u8]]) -> Result<Request, WordsFault>
    ensures exact { reading.Gives (λ r. r) result (reading.request_in (map (λ w. w.now) words.now)) }
    ensures word { IfErr result (IsWithin (length words.now)) }
{
    let [verb, rest @ ..] = words else {
        return Err(WordsFault::form(0, ExpectedWord::Verb));
    };
    let Some(verb) = Verb::from_word(verb) else {
        return Err(WordsFault::form(0, ExpectedWord::Verb));
    };
    let [key, fields @ ..] = rest else {
        return Err(WordsFault::form(1, ExpectedWord::Key));
    };
    if !is_key(key) {
        return Err(WordsFault::form(1, ExpectedWord::Key));
    }
    let key = Bytes::new(Vec::from_slice(alloc, key)?);
    let (flags, body, number) = read_fields(alloc, verb.fields(), fields)?;
    Ok(Request {
        verb,
        key,
        flags,
        body,
        number,
    })
}

/// Reads what a request has after its key: flags, a body and a number. What a verb lacks of these is 0 or empty.
fn read_fields(
    alloc: Global,
    shape: Fields,
    words: &[&[u8]],
) -> Result<(u32, Bytes, u64), WordsFault>
    ensures exact { reading.Gives (λ x. x) result (reading.fields_in shape (map (λ w. w.now) words.now)) }
    ensures word { IfErr result (IsWithin (2 + length words.now)) }
{
    match shape {
        Fields::KeyAlone | Fields::Expiry => {
            end_of(words, 2, ExpectedWord::EndAfterKey)?;
            Ok((0, Bytes::new(Vec::new(alloc)), 0))
        }
        Fields::Item => {
            let (flags, body, others) = read_flags_and_body(alloc, words, 2)?;
            end_of(others, 4, ExpectedWord::EndAfterBody)?;
            Ok((flags, body, 0))
        }
        Fields::Swap => {
            let (flags, body, others) = read_flags_and_body(alloc, words, 2)?;
            let cas = read_last_number(others, 4, ExpectedWord::Unique)?;
            Ok((flags, body, cas))
        }
        Fields::Amount => {
            let amount = read_last_number(words, 2, ExpectedWord::Amount)?;
            Ok((0, Bytes::new(Vec::new(alloc)), amount))
        }
    }
}

/// Sees that no word is left. `first` is the index of the first of these words.
fn end_of(words: &[&[u8]], first: usize, expected: ExpectedWord) -> Result<(), WordsFault>
    ensures exact { reading.Gives (λ x. x) result (reading.at_end tt (map (λ w. w.now) words.now)) }
    ensures word { IfErr result (IsWithin (first + length words.now)) }
{
    if words.is_empty() {
        Ok(())
    } else {
        Err(WordsFault::form(first, expected))
    }
}

/// Reads a number of 64 bits, which is the last word. `first` is the index of the first of these words.
fn read_last_number(
    words: &[&[u8]],
    first: usize,
    expected: ExpectedWord,
) -> Result<u64, WordsFault>
    requires { first ≤ 4 }
    ensures exact { reading.Gives (λ x. x) result (reading.last_number_in (map (λ w. w.now) words.now)) }
    ensures word { IfErr result (IsWithin (first + length words.now)) }
{
    let [number, others @ ..] = words else {
        return Err(WordsFault::form(first, expected));
    };
    let number = match read_number(u64::MAX, number) {
        Ok(number) => number,
        Err(WordsKind::Number) => {
            return Err(WordsFault::at(WordsKind::Number, first, ExpectedWord::NumberOf64Bits));
        }
        Err(kind) => return Err(WordsFault::at(kind, first, expected)),
    };
    end_of(others, first + 1, ExpectedWord::EndAfterNumber)?;
    Ok(number)
}

/// Reads flags and a body, and gives the words after them. `first` is the index of the first of these words.
fn read_flags_and_body<'w, 'a>(
    alloc: Global,
    words: &'w [&'a [u8]],
    first: usize,
) -> Result<(u32, Bytes, &'w [&'a [u8]]), WordsFault>
    requires { first ≤ 2 }
    ensures exact { reading.Gives (λ x. (x.0, x.1, map (λ w. w.now) x.2.now)) result
        (reading.flags_and_body_in (map (λ w. w.now) words.entry.now)) }
    ensures others { IfOk result (λ x. length x.2.now + 2 ≡ length words.entry.now) }
    ensures word { IfErr result (IsWithin (first + length words.entry.now)) }
{
    let [flags, others @ ..] = words else {
        return Err(WordsFault::form(first, ExpectedWord::Flags));
    };
    let flags = read_flags(flags, first)?;
    let [body, others @ ..] = others else {
        return Err(WordsFault::form(first + 1, ExpectedWord::Body));
    };
    match read_body(alloc, body) {
        Ok(body) => Ok((flags, body, others)),
        Err(fault) => Err(fault.after(first + 1)),
    }
}

/// Reads the flags, a number of 32 bits. `index` is that of the word.
fn read_flags(word: &[u8], index: usize) -> Result<u32, WordsFault>
    ensures exact { reading.Gives (λ x. x) result (reading.number_in MAX_32 word.now) }
    ensures word { IfErr result (IsWithin index) }
{
    match read_number(u64::from(u32::MAX), word) {
        Ok(flags) => Ok(flags as u32),
        Err(WordsKind::Number) => {
            Err(WordsFault::at(WordsKind::Number, index, ExpectedWord::FlagsOf32Bits))
        }
        Err(kind) => Err(WordsFault::at(kind, index, ExpectedWord::Flags)),
    }
}

/// The word that a reply of the class begins with.
pub(crate) fn class_word(class: Class) -> &'static str
    ensures { result.now ≡ spec.class_word class }
{
    match class {
        Class::Stored => "STORED",
        Class::NotStored => "NOT_STORED",
        Class::Exists => "EXISTS",
        Class::NotFound => "NOT_FOUND",
        Class::Hit => "HIT",
        Class::Miss => "MISS",
        Class::Deleted => "DELETED",
        Class::Touched => "TOUCHED",
        Class::Number => "NUMBER",
        Class::NotNumber => "NOT_A_NUMBER",
    }
}

// The class with this word.
#[tactic(auto, unfolding(crate::specs::Reading::class_of_word))]
fn class_of_word(word: &[u8]) -> Option<Class>
    ensures { result ≡ reading.class_of_word word.now }
{
    Class::ALL
        .iter()
        .copied()
        .find(|class| class_word(*class).as_bytes() == word)
}

/// Reads the words of a reply, without looking at the request that it answers. The fault is that of the leftmost
/// faulty word, where a missing word comes after the last.
pub fn read_reply_words(alloc: Global, words: &[&[u8]]) -> Result<Reply, WordsFault>
    ensures found { IfOk result (spec.SpellsReply (map (λ w. w.now) words.now)) }
    ensures none { IfErr result (λ fault. fault.kind ≢ WordsKind.OutOfMemory
        → (r : Reply) → spec.SpellsReply (map (λ w. w.now) words.now) r → ⊥) }
    ensures word { IfErr result (IsWithin (length words.now)) }
{
    reply_in(alloc, words)
}

/// Reads a reply. The public function adds to the contract what words spell.
#[tactic(auto, unfolding(crate::specs::Reading::reply_in))]
fn reply_in(alloc: Global, words: &[&[u8]]) -> Result<Reply, WordsFault>
    ensures exact { reading.Gives (λ r. r) result (reading.reply_in (map (λ w. w.now) words.now)) }
    ensures word { IfErr result (IsWithin (length words.now)) }
{
    let [class, fields @ ..] = words else {
        return Err(WordsFault::form(0, ExpectedWord::ReplyWord));
    };
    let Some(class) = class_of_word(class) else {
        return Err(WordsFault::form(0, ExpectedWord::ReplyWord));
    };
    match class {
        Class::Stored => bare(Reply::Stored, fields),
        Class::NotStored => bare(Reply::NotStored, fields),
        Class::Exists => bare(Reply::Exists, fields),
        Class::NotFound => bare(Reply::NotFound, fields),
        Class::Hit => hit(alloc, fields),
        Class::Miss => bare(Reply::Miss, fields),
        Class::Deleted => bare(Reply::Deleted, fields),
        Class::Touched => bare(Reply::Touched, fields),
        Class::Number => {
            let number = read_last_number(fields, 1, ExpectedWord::NewValue)?;
            Ok(Reply::Number(number))
        }
        Class::NotNumber => bare(Reply::NotNumber, fields),
    }
}

/// A reply with nothing after its word.
fn bare(reply: Reply, fields: &[&[u8]]) -> Result<Reply, WordsFault>
    ensures exact { reading.Gives (λ x. x) result (reading.at_end reply (map (λ w. w.now) fields.now)) }
    ensures word { IfErr result (IsWithin (1 + length fields.now)) }
{
    end_of(fields, 1, ExpectedWord::EndAfterReply)?;
    Ok(reply)
}

/// A hit: flags, a body, and the cas number if one is shown.
fn hit(alloc: Global, fields: &[&[u8]]) -> Result<Reply, WordsFault>
    ensures exact { reading.Gives (λ r. r) result (reading.hit_in (map (λ w. w.now) fields.now)) }
    ensures word { IfErr result (IsWithin (1 + length fields.now)) }
{
    let (flags, body, others) = read_flags_and_body(alloc, fields, 1)?;
    let cas = read_shown_number(others, 3)?;
    Ok(Reply::Hit { flags, body, cas })
}

/// The cas number that the last word shows, if there is one. `first` is the index of the first of these words.
fn read_shown_number(words: &[&[u8]], first: usize) -> Result<Option<u64>, WordsFault>
    requires { first ≤ 4 }
    ensures exact { reading.Gives (λ x. x) result (reading.shown_number_in (map (λ w. w.now) words.now)) }
    ensures word { IfErr result (IsWithin (first + length words.now)) }
{
    if words.is_empty() {
        return Ok(None);
    }
    let number = read_last_number(words, first, ExpectedWord::ShownUnique)?;
    Ok(Some(number))
}
