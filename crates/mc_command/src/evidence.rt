//! What the program says of a run beside its answer: how a section failed, with what it had asked and what came, and what came after the
//! last reply.
use mc_cli::Seconds;
use mc_connect::{Connection, Socket, Waiting};
use mc_lane::{Lane, Stream};
use mc_model::{History, Sent};
use mc_protocol::{Actor, Fault, Request, Sections, render_request};
use mc_reader::{ReadFault, ReplyReader, Shape};
use mc_run::Lanes;
use std::alloc::{AllocError, Global};
use std::io;
use std::io::ErrorKind;

// At most this many bytes of a request, and of what came, are shown.
const MOST_SHOWN: usize = 200;

// What the system's own text of an error ends with, before its number.
const NUMBER: &str = " (os error ";

/// A remark on each section that failed, with what it had asked and what came; and on each that has all its replies and received more, or
/// for which more is there at once. What isn't printable ASCII is escaped.
pub fn evidence_of<S: Stream, C: Connection>(
    alloc: Global,
    history: &History,
    lanes: &Lanes<S>,
    sockets: &Sections<Option<Socket<C>>>,
    timeout: Option<Seconds<'_>>,
) -> Result<Vec<String>, AllocError> {
    let mut remarks = Vec::new(alloc);
    for section in [Actor::P, Actor::A, Actor::B] {
        let sent = history.sent(section);
        let lane = lanes.get(section);
        let socket = sockets.get(section);
        if let Some(said) = section_text(alloc, sent, lane, socket, timeout)? {
            remarks.push(format!(in alloc; "{}: {said}", section.word())?)?;
        }
    }
    Ok(remarks)
}

// What the program says of a section: how it failed, or what came after its last reply.
fn section_text<S: Stream, C: Connection>(
    alloc: Global,
    sent: &[Sent],
    lane: &Lane<S>,
    socket: &Option<Socket<C>>,
    timeout: Option<Seconds<'_>>,
) -> Result<Option<String>, AllocError> {
    let Some(socket) = socket else {
        return failure_text(alloc, sent, lane, None, timeout);
    };
    match (lane.fault(), sent.last()) {
        (None, Some(Sent { reply: Some(_), .. })) => {
            let mut all = Vec::from_slice(alloc, &lane.got()[lane.taken()..])?;
            all.extend_from_slice(Waiting::on(alloc, socket.connection()).bytes.as_slice())?;
            if all.is_empty() {
                return Ok(None);
            }
            Ok(Some(surplus_text(alloc, &all)?))
        }
        _ => failure_text(alloc, sent, lane, socket.error(), timeout),
    }
}

/// A remark on each section on whose connection more came, once its run was over.
pub fn later_evidence(alloc: Global, came: &[(Actor, Vec<u8>)]) -> Result<Vec<String>, AllocError> {
    let mut remarks = Vec::new(alloc);
    for (section, bytes) in came {
        let said = surplus_text(alloc, bytes.as_slice())?;
        remarks.push(format!(in alloc; "{}: {said}", section.word())?)?;
    }
    Ok(remarks)
}

/// What the program says of a section that failed: what it had asked, what came, and why no more did. `error` is why a call of its
/// connection failed, and `timeout` the longest that one might take. Of a section that has all its replies it says what came after the
/// last one, and else nothing.
pub fn failure_text<S: Stream>(
    alloc: Global,
    sent: &[Sent],
    lane: &Lane<S>,
    error: Option<io::Error>,
    timeout: Option<Seconds<'_>>,
) -> Result<Option<String>, AllocError> {
    let came = &lane.got()[lane.taken()..];
    let request = match sent.last() {
        Some(
            Sent {
                request,
                reply: None,
            },
        ) => request,
        Some(Sent { reply: Some(_), .. }) if lane.fault().is_none() && !came.is_empty() => {
            return Ok(Some(surplus_text(alloc, came)?));
        }
        _ => return Ok(None),
    };
    let text = match lane.fault() {
        Some(Fault::WriteFailed) => {
            let asked = asked_text(alloc, request)?;
            let why = error_text(alloc, error, timeout)?;
            format!(in alloc; "\"{asked}\" wasn't sent{why}")?
        }
        Some(Fault::ReadFailed) => {
            let why = error_text(alloc, error, timeout)?;
            no_reply_text(alloc, request, came, why.as_str())?
        }
        Some(Fault::Ended) => {
            no_reply_text(alloc, request, came, ": the server closed the connection")?
        }
        Some(Fault::TooMuch) => {
            let why = match lane.got().len() {
                // what a client of `stress` may receive in a round
                16_777_216 => "the connection has brought 16,777,216 bytes, the most that it may",
                _ => "the connection has brought 262,144 bytes, the most that it may",
            };
            came_text(alloc, request, came, Some(why))?
        }
        Some(Fault::BadReply | Fault::ErrorLine) => {
            came_text(alloc, request, came, reason(alloc, request, came))?
        }
        Some(Fault::Closed | Fault::Memory) | None => return Ok(None),
    };
    Ok(Some(text))
}

// Why a call failed, after what didn't come: within which time, or the system's reason, if it gave one.
fn error_text(
    alloc: Global,
    error: Option<io::Error>,
    timeout: Option<Seconds<'_>>,
) -> Result<String, AllocError> {
    match (error, timeout) {
        (None, _) => Ok(String::new(alloc)),
        (Some(error), Some(time)) if error.kind() == ErrorKind::WouldBlock => {
            format!(in alloc; " within {time}")
        }
        (Some(error), _) => {
            let whole = format!(in alloc; "{error}")?;
            let reason = whole
                .as_str()
                .rsplit_once(NUMBER)
                .map_or(whole.as_str(), |(text, _)| text);
            format!(in alloc; ": {reason}")
        }
    }
}

// To a request came no reply, or a part of one.
fn no_reply_text(
    alloc: Global,
    request: &Request,
    came: &[u8],
    why: &str,
) -> Result<String, AllocError> {
    let asked = asked_text(alloc, request)?;
    if came.is_empty() {
        return format!(in alloc; "no reply to \"{asked}\"{why}");
    }
    let shown = shown_part(came).escape_ascii();
    format!(in alloc; "no more than \"{shown}\" to \"{asked}\"{why}")
}

// The text of a request, without its end.
fn asked_text(alloc: Global, request: &Request) -> Result<String, AllocError> {
    let mut asked = Vec::new(alloc);
    render_request(request, &mut asked)?;
    let line = shown_part(asked.as_slice().strip_suffix(b"\r\n").unwrap_or(&[]));
    let asked = line.escape_ascii();
    format!(in alloc; "{asked}")
}

// What came to a request, and why that is no reply to it, if it isn't seen.
fn came_text(
    alloc: Global,
    request: &Request,
    came: &[u8],
    why: Option<&str>,
) -> Result<String, AllocError> {
    let asked = asked_text(alloc, request)?;
    let shown = shown_part(came).escape_ascii();
    match why {
        Some(why) => format!(in alloc; "to \"{asked}\" came \"{shown}\": {why}"),
        None => format!(in alloc; "to \"{asked}\" came \"{shown}\""),
    }
}

// More came than the replies.
fn surplus_text(alloc: Global, more: &[u8]) -> Result<String, AllocError> {
    let count = more.len();
    let shown = shown_part(more).escape_ascii();
    let bytes = if count == 1 { "byte" } else { "bytes" };
    format!(in alloc; "after its last reply came {count} {bytes} more: \"{shown}\"")
}

fn shown_part(bytes: &[u8]) -> &[u8] {
    &bytes[..bytes.len().min(MOST_SHOWN)]
}

// Why what came begins with no reply to the request, if that isn't seen from it.
fn reason(alloc: Global, request: &Request, came: &[u8]) -> Option<&'static str> {
    let shape = Shape {
        verb: request.verb,
        key: request.key.as_slice(),
    };
    match ReplyReader::new(alloc, shape).feed(came).err()? {
        ReadFault::LineTooLong => Some("a line has more than 2,048 bytes"),
        ReadFault::NotAReply if lacks_cr(came) => Some("the line ends without CR"),
        ReadFault::NotAReply => Some("it is no reply to this request"),
        ReadFault::WrongKey => Some("the key isn't the one asked for"),
        ReadFault::NumberTooLarge => Some("a number is too large"),
        ReadFault::DataTooLong => Some("data of more than 65,536 bytes is announced"),
        ReadFault::DataNotEnded => Some("CR LF doesn't follow the data: it has another length"),
        ReadFault::ErrorLine(_) | ReadFault::OutOfMemory | ReadFault::Failed => None,
    }
}

// The first line ends without CR.
fn lacks_cr(came: &[u8]) -> bool {
    match came.iter().position(|byte| *byte == b'\n') {
        Some(end) => !came[..end].ends_with(b"\r"),
        None => false,
    }
}
