//! The lines of the text that is written.
use itoa::Buffer;
use mc_protocol::{Bytes, OutOfMemory, Reply, Request, append_all};
use mc_words::{print_reply_words, print_request_words};
use std::alloc::Global;

/// The digits of a byte in base 16.
static DIGITS: [u8; 16] = *b"0123456789abcdef";

/// How many bytes a name has at most.
const NAME_BYTES: usize = 21;

/// How many bytes a line has beside a body, mostly: room for more is made where it is needed.
const LINE_BYTES: usize = 64;

/// The name of a key in the text: `k` and a number.
pub(crate) fn key_name(alloc: Global, number: u64) -> Result<Bytes, OutOfMemory> {
    let mut digits = Buffer::new();
    let mut name = Vec::with_capacity(alloc, NAME_BYTES)?;
    append_all(
        &mut name,
        &[b"k".as_slice(), digits.format(number).as_bytes()],
    )?;
    Ok(Bytes::new(name))
}

/// The line of a request that begins.
pub(crate) fn begin_line(
    alloc: Global,
    client: u8,
    request: &Request,
) -> Result<Vec<u8>, OutOfMemory> {
    let mut digits = Buffer::new();
    let mut line = line_with(alloc, request.body.as_slice())?;
    append_all(
        &mut line,
        &[digits.format(u64::from(client)).as_bytes(), b" begin "],
    )?;
    print_request_words(request, &mut line)?;
    line.push(b'\n')?;
    Ok(line)
}

/// The line of a reply.
pub(crate) fn reply_line(alloc: Global, client: u8, reply: &Reply) -> Result<Vec<u8>, OutOfMemory> {
    let mut digits = Buffer::new();
    let body = match reply {
        Reply::Hit { body, .. } => body.as_slice(),
        _ => &[],
    };
    let mut line = line_with(alloc, body)?;
    append_all(
        &mut line,
        &[digits.format(u64::from(client)).as_bytes(), b" reply "],
    )?;
    print_reply_words(reply, &mut line)?;
    line.push(b'\n')?;
    Ok(line)
}

// Room for a line with the body.
fn line_with(alloc: Global, body: &[u8]) -> Result<Vec<u8>, OutOfMemory> {
    Ok(Vec::with_capacity(alloc, body.len().saturating_add(LINE_BYTES))?)
}

/// A comment that says which key a name stands for.
pub(crate) fn name_line(alloc: Global, name: &Bytes, key: &Bytes) -> Result<Vec<u8>, OutOfMemory> {
    let mut line = Vec::new(alloc);
    append_all(&mut line, &[b"# ".as_slice(), name.as_slice(), b" is \""])?;
    for byte in key.as_slice() {
        append_quoted(&mut line, *byte)?;
    }
    line.extend_from_slice(b"\"\n")?;
    Ok(line)
}

// Appends a byte of a key as it stands between quotes: as itself, after a backslash, or by its number in base 16.
fn append_quoted(line: &mut Vec<u8>, byte: u8) -> Result<(), OutOfMemory> {
    match byte {
        b'"' | b'\\' => line.extend_from_slice(&[b'\\', byte]),
        b'!'..=b'~' => line.extend_from_slice(&[byte]),
        _ => {
            let high = DIGITS[usize::from(byte / 16)];
            let low = DIGITS[usize::from(byte % 16)];
            line.extend_from_slice(&[b'\\', b'x', high, low])
        }
    }
}

/// A comment that says that a key's timeline ends, and why.
pub(crate) fn end_line(alloc: Global, name: &Bytes, why: &str) -> Result<Vec<u8>, OutOfMemory> {
    let mut line = Vec::new(alloc);
    append_all(
        &mut line,
        &[
            b"# ",
            name.as_slice(),
            b" ends here: ",
            why.as_bytes(),
            b"\n",
        ],
    )?;
    Ok(line)
}

/// A comment that says that all timelines end, and why; and whether none starts any more.
pub(crate) fn end_all_line(
    alloc: Global,
    why: &str,
    connection: u8,
    is_last: bool,
) -> Result<Vec<u8>, OutOfMemory> {
    let mut digits = Buffer::new();
    let mut line = Vec::new(alloc);
    let number = digits.format(u64::from(connection)).as_bytes();
    let more = if is_last {
        b", and none starts again".as_slice()
    } else {
        b"".as_slice()
    };
    append_all(
        &mut line,
        &[
            b"# ",
            why.as_bytes(),
            b" by ",
            number,
            b": every key ends here",
            more,
            b"\n",
        ],
    )?;
    Ok(line)
}
