//! A line for each thing that is asked.
use itoa::Buffer;
use mc_protocol::{Bytes, Request};
use mc_reader::{Ask, Refuse};
use std::alloc::AllocError;

fn push_number(number: u64, out: &mut Vec<u8>) -> Result<(), AllocError> {
    out.push(b' ')?;
    out.extend_from_slice(Buffer::new().format(number).as_bytes())
}

// The bytes after their number, so that no two lists of them are written alike.
fn push_bytes(bytes: &Bytes, out: &mut Vec<u8>) -> Result<(), AllocError> {
    push_number(bytes.as_slice().len() as u64, out)?;
    out.push(b' ')?;
    out.extend_from_slice(bytes.as_slice())
}

fn push_request(request: &Request, noreply: bool, out: &mut Vec<u8>) -> Result<(), AllocError> {
    out.extend_from_slice(request.verb.word().as_bytes())?;
    push_bytes(&request.key, out)?;
    push_number(u64::from(request.flags), out)?;
    push_number(request.number, out)?;
    push_bytes(&request.body, out)?;
    out.extend_from_slice(if noreply { b" silent" } else { b" answered" })
}

fn push_keys(with_cas: bool, keys: &[Bytes], out: &mut Vec<u8>) -> Result<(), AllocError> {
    out.extend_from_slice(if with_cas { b"many gets" } else { b"many get" })?;
    for key in keys {
        push_bytes(key, out)?;
    }
    Ok(())
}

fn name(refuse: Refuse) -> &'static [u8] {
    match refuse {
        Refuse::Unknown => b"unknown",
        Refuse::BadLine => b"bad line",
        Refuse::Expiry => b"expiry",
        Refuse::TooLarge => b"too large",
        Refuse::BadChunk => b"bad chunk",
        Refuse::LongLine => b"long line",
    }
}

/// Adds the line of what is asked, and how many bytes of the stream had been read at its end.
pub(crate) fn push_ask(ask: &Ask, end: usize, out: &mut Vec<u8>) -> Result<(), AllocError> {
    match ask {
        Ask::One { request, noreply } => push_request(request, *noreply, out)?,
        Ask::Many { with_cas, keys } => push_keys(*with_cas, keys.as_slice(), out)?,
        Ask::Quit => out.extend_from_slice(b"quit")?,
        Ask::Refused(refuse) => out.extend_from_slice(name(*refuse))?,
    }
    push_number(end as u64, out)?;
    out.push(b'\n')?;
    Ok(())
}
