//! The bytes of requests and replies as they go over the wire (`protocol.txt`).
ghost use Rattle.std.specs.Prelude.{◌≡◌, ◌++◌, ◌+◌, ◌^◌, ◌<◌, ◌≤◌, length, map, codes, decimal, take, vec_len, OnOk, OnErr};
ghost use Rattle.std.specs.List.{concat};
ghost use Rattle.mc_protocol.specs.Words.{verb_word};
ghost use Rattle.mc_protocol.specs.Texts as text;

use crate::{Fields, OutOfMemory, Reply, Request};
use itoa::Buffer;

/// Appends a request as it goes over the wire (`protocol.txt`), with the time of expiry 0. Want of memory leaves `out`
/// as it was.
pub fn render_request(request: &Request, out: &mut Vec<u8>) -> Result<(), OutOfMemory>
    ensures ok { OnOk result (out.new.items ≡ out.old.items ++ text.request_text request.now) }
    ensures err { OnErr result (out.new.items ≡ out.old.items) }
{
    render_as(request.verb.word().as_bytes(), request, out)
}

/// Appends a request under the word of its verb.
fn render_as(verb: &[u8], request: &Request, out: &mut Vec<u8>) -> Result<(), OutOfMemory>
    requires { verb.now ≡ verb_word request.now.verb }
    ensures ok { OnOk result (out.new.items ≡ out.old.items ++ text.request_text request.now) }
    ensures err { OnErr result (out.new.items ≡ out.old.items) }
{
    let key = request.key.as_slice();
    match request.verb.fields() {
        Fields::KeyAlone => append_all(out, &[verb, b" ", key, b"\r\n"]),
        Fields::Expiry => append_all(out, &[verb, b" ", key, b" 0", b"\r\n"]),
        Fields::Amount => {
            let mut number_text = Buffer::new();
            let number = number_text.format(request.number).as_bytes();
            append_all(out, &[verb, b" ", key, b" ", number, b"\r\n"])
        }
        Fields::Item => render_item(verb, request, out),
        Fields::Swap => render_swap(verb, request, out),
    }
}

/// Appends a request that stores an item under the verb's word: its line, and the data.
fn render_item(verb: &[u8], request: &Request, out: &mut Vec<u8>) -> Result<(), OutOfMemory>
    ensures ok { OnOk result (out.new.items ≡ out.old.items ++ text.text_as verb.now Fields.Item request.now) }
    ensures err { OnErr result (out.new.items ≡ out.old.items) }
{
    let key = request.key.as_slice();
    let body = request.body.as_slice();
    let mut flags_text = Buffer::new();
    let flags = flags_text.format(request.flags).as_bytes();
    let mut length_text = Buffer::new();
    let length = length_text.format(body.len()).as_bytes();
    append_all(
        out,
        &[
            verb, b" ", key, b" ", flags, b" 0 ", length, b"\r\n", body, b"\r\n",
        ],
    )
}

/// The same with the cas unique after the length of the data.
fn render_swap(verb: &[u8], request: &Request, out: &mut Vec<u8>) -> Result<(), OutOfMemory>
    ensures ok { OnOk result (out.new.items ≡ out.old.items ++ text.text_as verb.now Fields.Swap request.now) }
    ensures err { OnErr result (out.new.items ≡ out.old.items) }
{
    let key = request.key.as_slice();
    let body = request.body.as_slice();
    let mut flags_text = Buffer::new();
    let flags = flags_text.format(request.flags).as_bytes();
    let mut length_text = Buffer::new();
    let length = length_text.format(body.len()).as_bytes();
    let mut number_text = Buffer::new();
    let number = number_text.format(request.number).as_bytes();
    append_all(
        out,
        &[
            verb, b" ", key, b" ", flags, b" 0 ", length, b" ", number, b"\r\n", body, b"\r\n",
        ],
    )
}

/// Appends one VALUE block: its line, which has the cas unique if `cas` gives it, and its data. Want of memory leaves
/// `out` as it was.
pub fn render_value(
    key: &[u8],
    flags: u32,
    body: &[u8],
    cas: Option<u64>,
    out: &mut Vec<u8>,
) -> Result<(), OutOfMemory>
    ensures ok { OnOk result (out.new.items ≡ out.old.items ++ text.value_text key.now flags body.now cas) }
    ensures err { OnErr result (out.new.items ≡ out.old.items) }
{
    let mut flags_text = Buffer::new();
    let flags = flags_text.format(flags).as_bytes();
    let mut length_text = Buffer::new();
    let length = length_text.format(body.len()).as_bytes();
    match cas {
        None => append_all(
            out,
            &[
                b"VALUE ", key, b" ", flags, b" ", length, b"\r\n", body, b"\r\n",
            ],
        ),
        Some(number) => {
            let mut number_text = Buffer::new();
            let number = number_text.format(number).as_bytes();
            append_all(
                out,
                &[
                    b"VALUE ", key, b" ", flags, b" ", length, b" ", number, b"\r\n", body, b"\r\n",
                ],
            )
        }
    }
}

/// Appends a reply to a request of this key (`protocol.txt`). Want of memory leaves `out` as it was.
pub fn render_reply(key: &[u8], reply: &Reply, out: &mut Vec<u8>) -> Result<(), OutOfMemory>
    ensures ok { OnOk result (out.new.items ≡ out.old.items ++ text.reply_text key.now reply.now) }
    ensures err { OnErr result (out.new.items ≡ out.old.items) }
{
    match reply {
        Reply::Stored => out.extend_from_slice(b"STORED\r\n"),
        Reply::NotStored => out.extend_from_slice(b"NOT_STORED\r\n"),
        Reply::Exists => out.extend_from_slice(b"EXISTS\r\n"),
        Reply::NotFound => out.extend_from_slice(b"NOT_FOUND\r\n"),
        Reply::Hit { flags, body, cas } => render_hit(key, *flags, body.as_slice(), *cas, out),
        Reply::Miss => out.extend_from_slice(b"END\r\n"),
        Reply::Deleted => out.extend_from_slice(b"DELETED\r\n"),
        Reply::Touched => out.extend_from_slice(b"TOUCHED\r\n"),
        Reply::Number(number) => {
            let mut number_text = Buffer::new();
            let number = number_text.format(*number).as_bytes();
            append_all(out, &[number, b"\r\n"])
        }
        Reply::NotNumber => out.extend_from_slice(
            b"CLIENT_ERROR cannot increment or decrement non-numeric value\r\n",
        ),
    }
}

/// Appends what is answered where an item is found: its VALUE block, and the line that ends a retrieval.
fn render_hit(
    key: &[u8],
    flags: u32,
    body: &[u8],
    cas: Option<u64>,
    out: &mut Vec<u8>,
) -> Result<(), OutOfMemory>
    ensures ok { OnOk result (out.new.items ≡ out.old.items ++ (text.value_text key.now flags body.now cas ++ codes "END\r\n")) }
    ensures err { OnErr result (out.new.items ≡ out.old.items) }
{
    let mut text = Vec::new(*out.allocator());
    render_value(key, flags, body, cas, &mut text)?;
    text.extend_from_slice(b"END\r\n")?;
    out.extend_from_slice(text.as_slice())
}

/// Appends the pieces, one after the other. Want of memory leaves `out` as it was.
pub fn append_all(out: &mut Vec<u8>, pieces: &[&[u8]]) -> Result<(), OutOfMemory>
    ensures ok { OnOk result (out.new.items ≡ out.old.items ++ concat (map (λ p. p.now) pieces.now)) }
    ensures err { OnErr result (out.new.items ≡ out.old.items) }
{
    let before = out.len();
    let appended = append_each(out, pieces);
    if appended.is_err() {
        out.truncate(before);
    }
    appended
}

/// The same, but want of memory leaves in `out` the pieces for which there was room.
fn append_each(out: &mut Vec<u8>, pieces: &[&[u8]]) -> Result<(), OutOfMemory>
    ensures ok { OnOk result (out.new.items ≡ out.old.items ++ concat (map (λ p. p.now) pieces.now)) }
    ensures err { OnErr result (take (vec_len out.old) out.new.items ≡ out.old.items) }
{
    out.reserve(total_len(pieces))?;
    'pieces: for piece in pieces {
        out.extend_from_slice(piece)?;
    }
    Ok(())
}

/// How many bytes the pieces have.
fn total_len(pieces: &[&[u8]]) -> usize {
    let mut total = 0usize;
    'pieces: for piece in pieces {
        total = total.saturating_add(piece.len());
    }
    total
}

/// How many bytes the text of a request has. The key has at most 250 bytes.
pub fn request_len(request: &Request) -> usize
    requires { length request.now.key ≤ 250 }
    ensures { result ≡ length (text.request_text request.now) }
{
    let verb_and_key = request.verb.word().len() + 1 + request.key.as_slice().len();
    verb_and_key
        + match request.verb.fields() {
            Fields::KeyAlone => 2,
            Fields::Expiry => 4,
            Fields::Amount => 1 + decimal_len(request.number) + 2,
            Fields::Item => item_len(request),
            Fields::Swap => item_len(request) + 1 + decimal_len(request.number),
        }
}

/// How many bytes come after the key of a request that stores an item.
fn item_len(request: &Request) -> usize
    ensures len { result ≡ length (concat (text.after_key Fields.Item request.now)) }
    ensures small { result < 2 ^ 63 + 64 }
{
    let body = request.body.as_slice().len();
    1 + decimal_len(u64::from(request.flags)) + 3 + decimal_len(body as u64) + 2 + body + 2
}

/// How many digits a number has.
fn decimal_len(number: u64) -> usize
    ensures len { result ≡ length (decimal number) }
    ensures short { result ≤ 20 }
{
    Buffer::new().format(number).len()
}
