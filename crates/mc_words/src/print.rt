//! The words of requests and replies as they are printed: numbers without leading zeros, and no byte of a body escaped
//! that may stand for itself.
ghost use Rattle.std.specs.Prelude.{◌≡◌, ◌++◌, ◌≤◌, true, map, IfSome, OnOk, OnErr};
ghost use Rattle.std.specs.List.{concat};
ghost use Rattle.mc_protocol.specs.{Words.verb_word, Decimals.MAX_32, Decimals.MAX_64};
ghost use Rattle.mc_words.specs.Words.{SpellsRequest, SpellsReply, join_words, request_words, reply_words};
ghost use Rattle.mc_model.specs.{History.has_words};
ghost use Rattle.mc_words.specs.{WordLaws.AreBytes, WordLaws.has_short_body, Printing.item_text, Printing.number_text};

use crate::body::append_body;
use crate::words::class_word;
use itoa::Buffer;
use mc_protocol::{Fields, OutOfMemory, Reply, Request, append_all};

/// Appends the words of a request, with one space between them. They spell the request if any words do: exactly then
/// `has_words` is true (`spelled_requests_have_words`). Want of memory leaves `out` as it was.
pub fn print_request_words(request: &Request, out: &mut Vec<u8>) -> Result<(), OutOfMemory>
    ensures ok { OnOk result (out.new.items ≡ out.old.items ++ join_words (request_words request.now)) }
    ensures spells { OnOk result (has_words request.now ≡ true → SpellsRequest (request_words request.now) request.now) }
    ensures err { OnErr result (out.new.items ≡ out.old.items) }
{
    print_request_as(request.verb.word().as_bytes(), request, out)
}

/// Appends the words of a request under the word of its verb.
fn print_request_as(verb: &[u8], request: &Request, out: &mut Vec<u8>) -> Result<(), OutOfMemory>
    requires { verb.now ≡ verb_word request.now.verb }
    ensures ok { OnOk result (out.new.items ≡ out.old.items ++ join_words (request_words request.now)) }
    ensures spells { OnOk result (has_words request.now ≡ true → SpellsRequest (request_words request.now) request.now) }
    ensures err { OnErr result (out.new.items ≡ out.old.items) }
{
    let key = request.key.as_slice();
    let body = request.body.as_slice();
    match request.verb.fields() {
        Fields::KeyAlone | Fields::Expiry => append_all(out, &[verb, b" ", key]),
        Fields::Item => append_item(out, &[verb, b" ", key], request.flags, body, None),
        Fields::Swap => {
            let cas = Some(request.number);
            append_item(out, &[verb, b" ", key], request.flags, body, cas)
        }
        Fields::Amount => {
            let mut number_text = Buffer::new();
            let number = number_text.format(request.number).as_bytes();
            append_all(out, &[verb, b" ", key, b" ", number])
        }
    }
}

/// Appends the words of a reply, with one space between them. They spell the reply if any words do: exactly then
/// `has_short_body` is true (`spelled_replies_have_short_bodies`). Want of memory leaves `out` as it was.
pub fn print_reply_words(reply: &Reply, out: &mut Vec<u8>) -> Result<(), OutOfMemory>
    ensures ok { OnOk result (out.new.items ≡ out.old.items ++ join_words (reply_words reply.now)) }
    ensures spells { OnOk result (has_short_body reply.now ≡ true → SpellsReply (reply_words reply.now) reply.now) }
    ensures err { OnErr result (out.new.items ≡ out.old.items) }
{
    let word = class_word(reply.class()).as_bytes();
    match reply {
        Reply::Hit { flags, body, cas } => {
            append_item(out, &[word], *flags, body.as_slice(), *cas)
        }
        Reply::Number(number) => {
            let mut number_text = Buffer::new();
            let number = number_text.format(*number).as_bytes();
            append_all(out, &[word, b" ", number])
        }
        _ => out.extend_from_slice(word),
    }
}

/// Appends the pieces, and after them the words for flags, a body and, if there is one, a number. Want of memory leaves
/// `out` as it was.
fn append_item(
    out: &mut Vec<u8>,
    pieces: &[&[u8]],
    flags: u32,
    body: &[u8],
    number: Option<u64>,
) -> Result<(), OutOfMemory>
    ensures ok { OnOk result (out.new.items ≡ out.old.items
        ++ (concat (map (λ p. p.now) pieces.now) ++ item_text flags body.now number)) }
    ensures fits { OnOk result ((flags ≤ MAX_32) × AreBytes body.now × IfSome number (λ n. n ≤ MAX_64)) }
    ensures err { OnErr result (out.new.items ≡ out.old.items) }
{
    let mut flags_text = Buffer::new();
    let flags = flags_text.format(flags).as_bytes();
    let mut words = Vec::new(*out.allocator());
    append_all(&mut words, pieces)?;
    append_all(&mut words, &[b" ", flags, b" "])?;
    append_body(&mut words, body)?;
    append_number(&mut words, number)?;
    out.extend_from_slice(words.as_slice())
}

/// Appends a space and the number, if there is one.
fn append_number(out: &mut Vec<u8>, number: Option<u64>) -> Result<(), OutOfMemory>
    ensures ok { OnOk result (out.new.items ≡ out.old.items ++ number_text number) }
    ensures fits { IfSome number (λ n. n ≤ MAX_64) }
{
    match number {
        None => Ok(()),
        Some(number) => {
            let mut number_text = Buffer::new();
            append_all(out, &[b" ", number_text.format(number).as_bytes()])
        }
    }
}
