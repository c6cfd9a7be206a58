//! Whether a section's requests, their replies and its fault are what its lane recorded.
ghost use Rattle.std.specs.Prelude.{◌≡◌, ◌↔◌, true, Some, IfOk};
ghost use Rattle.mc_lane.specs.Sending.{IsPrefix};
ghost use Rattle.mc_recorded.specs.Fronts as fronts;
ghost use Rattle.mc_recorded.specs.Recorded as spec;

use crate::front::{Front, bytes_after, count_replies, read_waiting};
use mc_lane::{Lane, Stream};
use mc_model::Sent;
use mc_protocol::{Fault, OutOfMemory, render_request};
use std::alloc::Global;

/// Whether the requests with their replies, and the fault that ended their section, are what the lane recorded.
pub fn is_recorded<S: Stream>(
    alloc: Global,
    requests: &[Sent],
    ended: Option<Fault>,
    lane: &Lane<S>,
) -> Result<bool, OutOfMemory>
    ensures { IfOk result (λ answer. (answer ≡ true) ↔ spec.IsRecordedBy requests.now ended lane.now) }
{
    if !were_sent(alloc, requests, ended, lane.sent())? {
        return Ok(false);
    }
    let got = lane.got();
    match count_replies(alloc, requests, got)? {
        Some(count) => faults_agree(
            alloc,
            requests,
            ended,
            bytes_after(got, count),
            lane.fault(),
        ),
        None => Ok(false),
    }
}

/// Whether the requests were sent: all of them, or less of the last one where a fault ended the section. Requests that were sent whole
/// are as long as what was sent, so that is the room that their texts take.
fn were_sent(
    alloc: Global,
    requests: &[Sent],
    ended: Option<Fault>,
    sent: &[u8],
) -> Result<bool, OutOfMemory>
    ensures { IfOk result (λ answer. (answer ≡ true) ↔ spec.WereSent requests.now ended sent.now) }
{
    let all = join_texts(alloc, requests, sent.len())?;
    match ended {
        None => Ok(sent == all.as_slice()),
        Some(_) => {
            let answered = join_answered(alloc, requests, sent.len())?;
            Ok(is_between(answered.as_slice(), sent, all.as_slice()))
        }
    }
}

/// Whether the bytes are a front of the longer text, and have the shorter one as their front.
fn is_between(shorter: &[u8], bytes: &[u8], longer: &[u8]) -> bool
    ensures { (result ≡ true) ↔ (IsPrefix bytes.now longer.now × IsPrefix shorter.now bytes.now) }
{
    is_prefix(bytes, longer) && is_prefix(shorter, bytes)
}

/// Whether these are the first bytes of the text, perhaps all of them.
fn is_prefix(bytes: &[u8], text: &[u8]) -> bool
    ensures { (result ≡ true) ↔ IsPrefix bytes.now text.now }
{
    text.starts_with(bytes)
}

/// The texts of the requests, one after the other, where `room` bytes are expected.
fn join_texts(alloc: Global, requests: &[Sent], room: usize) -> Result<Vec<u8>, OutOfMemory>
    ensures { IfOk result (λ text. text.items ≡ spec.joined_text requests.now) }
{
    let mut text = Vec::with_capacity(alloc, room)?;
    'joining: for sent in requests {
        render_request(&sent.request, &mut text)?;
    }
    Ok(text)
}

/// The same of the requests that have replies.
fn join_answered(alloc: Global, requests: &[Sent], room: usize) -> Result<Vec<u8>, OutOfMemory>
    ensures { IfOk result (λ text. text.items ≡ spec.joined_text (spec.answered_of requests.now)) }
{
    let mut text = Vec::with_capacity(alloc, room)?;
    'joining: for sent in requests {
        if sent.reply.is_some() {
            render_request(&sent.request, &mut text)?;
        }
    }
    Ok(text)
}

/// Whether the lane's fault ended the section, and the bytes after the replies show it.
fn faults_agree(
    alloc: Global,
    requests: &[Sent],
    ended: Option<Fault>,
    rest: &[u8],
    fault: Option<Fault>,
) -> Result<bool, OutOfMemory>
    ensures { IfOk result (λ answer. (answer ≡ true) ↔ spec.FaultsAgree requests.now ended rest.now fault) }
{
    match fault {
        None => Ok(matches!(ended, None | Some(Fault::Memory))),
        Some(fault) => {
            if is_ended_by(ended, fault) {
                is_shown(alloc, requests, rest, fault)
            } else {
                Ok(false)
            }
        }
    }
}

/// Whether this fault ended the section.
fn is_ended_by(ended: Option<Fault>, fault: Fault) -> bool
    ensures { (result ≡ true) ↔ (ended ≡ Some fault) }
{
    ended == Some(fault)
}

/// Whether the bytes show the fault to the request that waits, if it is one that bytes show.
fn is_shown(
    alloc: Global,
    requests: &[Sent],
    bytes: &[u8],
    fault: Fault,
) -> Result<bool, OutOfMemory>
    ensures { IfOk result (λ answer. (answer ≡ true) ↔ spec.IsShownBy requests.now bytes.now fault) }
{
    let front = read_waiting(alloc, requests, bytes)?;
    Ok(shows(&front, fault))
}

/// Whether what the bytes begin with shows the fault, if it is one that bytes show.
fn shows(front: &Option<Front>, fault: Fault) -> bool
    ensures { result ≡ fronts.shows fault front.now }
{
    match fault {
        Fault::BadReply => matches!(front, Some(Front::Malformed)),
        Fault::ErrorLine => matches!(front, Some(Front::ErrorLine)),
        _ => true,
    }
}
