//! Prints timelines.
ghost use Rattle.std.specs.Prelude.{◌≡◌, ◌<◌, ◌^◌, ◌++◌, OnOk, OnErr};
ghost use Rattle.std.specs.List.{All};
ghost use Rattle.mc_history.specs.{PrintedHistory.line_text, PrintedParts.MayBeNoted, PrintedParts.NoteSpellsItself};
ghost use Rattle.mc_timeline.specs.TimelineText as text;
ghost use Rattle.mc_timeline.specs.PrintedNotes as part;

use crate::timeline::Timeline;
use itoa::Buffer;
use mc_model::Note;
use mc_protocol::{OutOfMemory, append_all};
use mc_words::{print_reply_words, print_request_words};

/// Appends the text of a timeline: `history 3`, a line for each note, and `end`. Want of memory leaves `out` as it was.
pub fn print_timeline(timeline: &Timeline, out: &mut Vec<u8>) -> Result<(), OutOfMemory>
    ensures ok { OnOk result (out.new.items ≡ out.old.items ++ text.timeline_text timeline.now) }
    ensures spells { OnOk result (text.SpellsTimeline (text.timeline_text timeline.now) timeline.now) }
    ensures err { OnErr result (out.new.items ≡ out.old.items) }
{
    let mut text = Vec::new(*out.allocator());
    text.extend_from_slice(b"history 3\n")?;
    print_notes(timeline.notes(), &mut text)?;
    text.extend_from_slice(b"end\n")?;
    out.extend_from_slice(text.as_slice())
}

// Appends a line for each note.
fn print_notes(notes: &[(u8, Note)], out: &mut Vec<u8>) -> Result<(), OutOfMemory>
    ensures ok { OnOk result (out.new.items ≡ out.old.items ++ part.notes_text notes.now) }
    ensures spells { OnOk result (All part.MaySpellItself notes.now) }
{
    'noting: for (client, note) in notes {
        print_note(*client, note, out)?;
    }
    Ok(())
}

// Appends the line of a note.
fn print_note(client: u8, note: &Note, out: &mut Vec<u8>) -> Result<(), OutOfMemory>
    ensures ok { OnOk result (out.new.items ≡ out.old.items ++ line_text (text.client_note_words (client, note.now))) }
    ensures spells { OnOk result (MayBeNoted note.now → NoteSpellsItself note.now) }
    ensures fits { client < 2 ^ 64 }
{
    let mut number_text = Buffer::new();
    let number = number_text.format(u64::from(client)).as_bytes();
    match note {
        Note::Begin(request) => {
            append_all(out, &[number, b" begin "])?;
            print_request_words(request, out)?;
        }
        Note::Reply(reply) => {
            append_all(out, &[number, b" reply "])?;
            print_reply_words(reply, out)?;
        }
    }
    out.extend_from_slice(b"\n")
}
