//! Replies that show an item.
ghost use Rattle.std.specs.Prelude.{◌≡◌, ◌++◌, map, OnOk, OnErr};
ghost use Rattle.std.specs.List.{concat};
ghost use Rattle.mc_protocol.specs.Texts as text;

use itoa::Buffer;
use mc_protocol::{OutOfMemory, Reply, render_reply};

/// Room for the words and numbers of a VALUE block, and for the line after it.
const ROOM_OF_WORDS: usize = 80;

/// Appends a reply as `render_reply` does, but copies the body of an item that is found once alone. Want of memory leaves `out` as it
/// was.
pub(crate) fn append_reply(key: &[u8], reply: &Reply, out: &mut Vec<u8>) -> Result<(), OutOfMemory>
    ensures ok { OnOk result (out.new.items ≡ out.old.items ++ text.reply_text key.now reply.now) }
    ensures err { OnErr result (out.new.items ≡ out.old.items) }
{
    let Reply::Hit { flags, body, cas } = reply else {
        return render_reply(key, reply, out);
    };
    let before = out.len();
    append_block(key, *flags, body.as_slice(), *cas, out)?;
    if let Err(fault) = out.extend_from_slice(b"END\r\n") {
        out.truncate(before);
        return Err(fault);
    }
    Ok(())
}

/// Appends a VALUE block as `render_value` does, but copies the body once alone. Want of memory leaves `out` as it was.
pub(crate) fn append_block(
    key: &[u8],
    flags: u32,
    body: &[u8],
    cas: Option<u64>,
    out: &mut Vec<u8>,
) -> Result<(), OutOfMemory>
    ensures ok { OnOk result (out.new.items ≡ out.old.items ++ text.value_text key.now flags body.now cas) }
    ensures err { OnErr result (out.new.items ≡ out.old.items) }
{
    let mut flags_text = Buffer::new();
    let flags = flags_text.format(flags).as_bytes();
    let mut length_text = Buffer::new();
    let length = length_text.format(body.len()).as_bytes();
    // room for all of it, so that nothing is moved as it grows
    let words_and_key = key.len().saturating_add(ROOM_OF_WORDS);
    out.reserve(body.len().saturating_add(words_and_key))?;
    match cas {
        None => append_all(
            out,
            &[
                b"VALUE ", key, b" ", flags, b" ", length, b"\r\n", body, b"\r\n",
            ],
        ),
        Some(number) => {
            let mut number_text = Buffer::new();
            let number = number_text.format(number).as_bytes();
            append_all(
                out,
                &[
                    b"VALUE ", key, b" ", flags, b" ", length, b" ", number, b"\r\n", body, b"\r\n",
                ],
            )
        }
    }
}

/// Appends the pieces, one after the other. Want of memory leaves `out` as it was.
fn append_all(out: &mut Vec<u8>, pieces: &[&[u8]]) -> Result<(), OutOfMemory>
    ensures ok { OnOk result (out.new.items ≡ out.old.items ++ concat (map (λ p. p.now) pieces.now)) }
    ensures err { OnErr result (out.new.items ≡ out.old.items) }
{
    let before = out.len();
    'pieces: for piece in pieces {
        if let Err(fault) = out.extend_from_slice(piece) {
            out.truncate(before);
            return Err(fault);
        }
    }
    Ok(())
}
