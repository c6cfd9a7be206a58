//! Prints why nothing explains the requests on a key.
ghost use Rattle.std.specs.Prelude.{◌≡◌, ◌++◌, codes, decimal, slice_get, OnErr, OnOk};
ghost use Rattle.std.specs.List.{flat_map};
ghost use Rattle.mc_words.specs.Words.{join_words};
ghost use Rattle.mc_timeline.specs.TimelineText.{client_note_words};
ghost use Rattle.mc_timeline_why.specs.Fronts.{front};
ghost use Rattle.mc_timeline_why.specs.TimelineWhyText as texts;

use crate::cutting::cut_timeline;
use crate::order::print_explained;
use crate::{TimelineCause, TimelineFinding};
use itoa::Buffer;
use mc_model::Note;
use mc_protocol::{Bytes, OutOfMemory, append_all};
use mc_timeline::{Timeline, restrict};
use mc_words::{print_reply_words, print_request_words};

/// Appends what is found of the requests on the key: the line `why`; what was noted at the place, with the number of its line, which the
/// caller gives; what explains the requests before it; the numbers of the lines of `overlap`, which the caller gives; and `end`. Where a
/// search was left open, only the number stands between the first line and the last. Want of memory leaves `out` as it was.
pub fn print_timeline_why(
    finding: &TimelineFinding,
    timeline: &Timeline,
    key: &Bytes,
    line: u64,
    overlap: &[u64],
    out: &mut Vec<u8>,
) -> Result<(), OutOfMemory>
    ensures ok { OnOk result (out.new.items ≡ out.old.items
        ++ texts.why_text line overlap.now timeline.now key.now finding.now) }
    ensures err { OnErr result (out.new.items ≡ out.old.items) }
{
    let mut text = Vec::new(*out.allocator());
    match finding {
        TimelineFinding::Cause(cause) => {
            print_cause(cause, timeline, key, line, overlap, &mut text)?
        }
        TimelineFinding::Undecided(_) => print_undecided(line, &mut text)?,
    }
    out.extend_from_slice(text.as_slice())
}

fn print_cause(
    cause: &TimelineCause,
    timeline: &Timeline,
    key: &Bytes,
    line: u64,
    overlap: &[u64],
    out: &mut Vec<u8>,
) -> Result<(), OutOfMemory>
    ensures { OnOk result (out.new.items ≡ out.old.items
        ++ texts.why_text line overlap.now timeline.now key.now (TimelineFinding.Cause cause.now)) }
{
    out.extend_from_slice(b"why\n")?;
    print_place(timeline.notes(), cause.place, line, out)?;
    print_before(cause, timeline, key, out)?;
    print_overlap(overlap, out)?;
    out.extend_from_slice(b"end\n")
}

// Appends what explains the requests on the key before the place.
fn print_before(
    cause: &TimelineCause,
    timeline: &Timeline,
    key: &Bytes,
    out: &mut Vec<u8>,
) -> Result<(), OutOfMemory>
    ensures { OnOk result (out.new.items ≡ out.old.items
        ++ texts.explained_text (front key.now cause.now.place timeline.now) cause.now.explanation) }
{
    let cut = cut_timeline(*out.allocator(), timeline, cause.place)?;
    let before = restrict(*out.allocator(), &cut, key)?;
    print_explained(&before, &cause.explanation, out)
}

// Appends the number of the line, and what was noted at the place.
fn print_place(
    notes: &[(u8, Note)],
    place: usize,
    line: u64,
    out: &mut Vec<u8>,
) -> Result<(), OutOfMemory>
    ensures { OnOk result (out.new.items ≡ out.old.items ++ texts.place_text line (slice_get notes.now place)) }
{
    let mut number_text = Buffer::new();
    let number = number_text.format(line).as_bytes();
    append_all(out, &[b"line ", number, b" "])?;
    print_words_at(notes, place, out)?;
    out.extend_from_slice(b"\n")
}

// Appends the words of what was noted at the place.
fn print_words_at(notes: &[(u8, Note)], place: usize, out: &mut Vec<u8>) -> Result<(), OutOfMemory>
    ensures { OnOk result (out.new.items ≡ out.old.items ++ join_words (texts.words_at (slice_get notes.now place))) }
{
    match notes.get(place) {
        Some((client, note)) => print_note(*client, note, out),
        None => Ok(()),
    }
}

// Appends the words of a note.
fn print_note(client: u8, note: &Note, out: &mut Vec<u8>) -> Result<(), OutOfMemory>
    ensures { OnOk result (out.new.items ≡ out.old.items ++ join_words (client_note_words (client, note.now))) }
{
    let mut client_text = Buffer::new();
    let client = client_text.format(u64::from(client)).as_bytes();
    match note {
        Note::Begin(request) => {
            append_all(out, &[client, b" begin "])?;
            print_request_words(request, out)
        }
        Note::Reply(reply) => {
            append_all(out, &[client, b" reply "])?;
            print_reply_words(reply, out)
        }
    }
}

// Appends the line of the requests that overlap the place.
fn print_overlap(lines: &[u64], out: &mut Vec<u8>) -> Result<(), OutOfMemory>
    ensures { OnOk result (out.new.items ≡ out.old.items ++ texts.overlap_text lines.now) }
{
    out.extend_from_slice(b"overlap")?;
    print_numbers(lines, out)?;
    out.extend_from_slice(b"\n")
}

// Appends the numbers, each after a space.
fn print_numbers(lines: &[u64], out: &mut Vec<u8>) -> Result<(), OutOfMemory>
    ensures { OnOk result (out.new.items ≡ out.old.items ++ flat_map texts.number_text lines.now) }
{
    'lines: for line in lines {
        print_number(*line, out)?;
    }
    Ok(())
}

// Appends a number after a space.
fn print_number(line: u64, out: &mut Vec<u8>) -> Result<(), OutOfMemory>
    ensures { OnOk result (out.new.items ≡ out.old.items ++ texts.number_text line) }
{
    let mut number_text = Buffer::new();
    let number = number_text.format(line).as_bytes();
    append_all(out, &[b" ", number])
}

fn print_undecided(line: u64, out: &mut Vec<u8>) -> Result<(), OutOfMemory>
    ensures { OnOk result (out.new.items ≡ out.old.items ++ texts.undecided_text line) }
{
    let mut number_text = Buffer::new();
    let number = number_text.format(line).as_bytes();
    append_all(out, &[b"why\nundecided at line ", number, b"\nend\n"])
}
