//! The line that announces a hit: `VALUE <key> <flags> <bytes>[ <cas unique>]`.
ghost use Rattle.std.specs.Prelude.{◌≡◌, ◌∷◌, [], true, MatchOption};
ghost use Rattle.mc_reader.specs.Items as spec;
ghost use Rattle.mc_reader.specs.Words as words;

use crate::number::number_up_to;
use crate::said::{HitLine, Said};
use crate::words::{cut_word, next_word};
use crate::{ReadFault, Shape};
use mc_protocol::{REPLY_BODY_LIMIT, has_digits_alone, shows_number};

/// The words of a line that may announce a hit.
#[derive(Clone, Copy, Drop)]
pub(crate) struct ItemWords<'a> {
    pub(crate) value: &'a [u8],
    pub(crate) name: &'a [u8],
    pub(crate) flags: &'a [u8],
    pub(crate) body_len: &'a [u8],
    pub(crate) cas: Option<&'a [u8]>,
}

/// Reads a line that may announce a hit. Only `gets` shows the cas unique.
pub(crate) fn read_hit(shape: Shape<'_>, text: &[u8]) -> Result<Said, ReadFault>
    ensures { result ≡ words.hit_says shape.entry.verb shape.entry.key.now (words.words_of text.now) }
{
    let Some(item) = item_words(text) else {
        return Err(ReadFault::NotAReply);
    };
    if item.value != b"VALUE".as_slice() || item.cas.is_some() != shows_number(shape.verb) {
        return Err(ReadFault::NotAReply);
    }
    read_item(shape.key, item)
}

/// The words of the text, where they are four or five.
fn item_words(text: &[u8]) -> Option<ItemWords<'_>>
    ensures { MatchOption result (spec.IsNoItem (words.words_of text.now)) (λ item. words.words_of text.now ≡ spec.words_in item) }
{
    let (value, rest) = cut_word(text);
    let (name, rest) = next_word(rest)?;
    let (flags, rest) = next_word(rest)?;
    let (body_len, rest) = next_word(rest)?;
    let cas = match next_word(rest) {
        None => None,
        Some((cas, rest)) => match next_word(rest) {
            None => Some(cas),
            Some(_) => return None,
        },
    };
    Some(ItemWords {
        value,
        name,
        flags,
        body_len,
        cas,
    })
}

/// What the words after `VALUE` say of the item with this key.
#[tactic(auto, unfolding(crate::specs::Words::item_says))]
fn read_item(key: &[u8], item: ItemWords<'_>) -> Result<Said, ReadFault>
    ensures { result ≡ words.item_says key.now item.entry.name.now item.entry.flags.now item.entry.body_len.now (spec.cas_in item.entry) }
{
    if !are_item_words(item) {
        return Err(ReadFault::NotAReply);
    }
    if item.name != key {
        return Err(ReadFault::WrongKey);
    }
    let Some(flags) = number_up_to(u64::from(u32::MAX), item.flags) else {
        return Err(ReadFault::NumberTooLarge);
    };
    let Some(cas) = read_cas(item.cas) else {
        return Err(ReadFault::NumberTooLarge);
    };
    let Some(body_len) = number_up_to(REPLY_BODY_LIMIT as u64, item.body_len) else {
        return Err(ReadFault::DataTooLong);
    };
    Ok(Said::Hit(HitLine {
        flags: flags as u32,
        body_len: body_len as usize,
        cas,
    }))
}

/// Whether these may stand after `VALUE`: a key, and numbers.
fn are_item_words(item: ItemWords<'_>) -> bool
    ensures { result ≡ words.are_item_words item.entry.name.now item.entry.flags.now item.entry.body_len.now (spec.cas_in item.entry) }
{
    !item.name.is_empty()
        && has_digits_alone(item.flags)
        && has_digits_alone(item.body_len)
        && is_cas_word(item.cas)
}

/// Whether it is a number, where it stands on the line.
fn is_cas_word(cas: Option<&[u8]>) -> bool
    ensures { result ≡ words.is_cas_word (spec.shown cas.entry) }
{
    match cas {
        None => true,
        Some(digits) => has_digits_alone(digits),
    }
}

/// The cas unique where it stands on the line, and it is within 64 bits.
fn read_cas(cas: Option<&[u8]>) -> Option<Option<u64>>
    requires { words.is_cas_word (spec.shown cas) ≡ true }
    ensures { result ≡ spec.cas_of cas.entry }
{
    match cas {
        None => Some(None),
        Some(digits) => match number_up_to(u64::MAX, digits) {
            None => None,
            Some(number) => Some(Some(number)),
        },
    }
}
