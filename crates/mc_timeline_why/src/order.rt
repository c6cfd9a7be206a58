//! Prints what explains the requests on a key before a place, with the request and the reply of each move.
ghost use Rattle.std.specs.Prelude.{◌≡◌, ◌<◌, ◌++◌, drop, length, OnOk, IfSome, codes};
ghost use Rattle.std.specs.{List.flat_map, Option.option_copied};
ghost use Rattle.mc_words.specs.Words.{join_words};
ghost use Rattle.mc_history.specs.PrintedHistory.{answer_words};
ghost use Rattle.mc_timeline_why.specs.Cursors.{begins_for, places_in};
ghost use Rattle.mc_timeline_why.specs.TimelineWhyText as texts;

use itoa::Buffer;
use mc_history::marks_text;
use mc_linearize::{TimelineExplanation, TimelineMove};
use mc_model::Note;
use mc_protocol::{Bytes, OutOfMemory, Reply, Request, append_all, is_word};
use mc_timeline::Timeline;
use mc_words::{print_reply_words, print_request_words};

/// Appends the items at the start and the moves. `before` has the requests that they explain.
pub(crate) fn print_explained(
    before: &Timeline,
    explanation: &TimelineExplanation,
    out: &mut Vec<u8>,
) -> Result<(), OutOfMemory>
    ensures { OnOk result (out.new.items ≡ out.old.items ++ texts.explained_text before.now explanation.now) }
{
    print_parts(
        before,
        explanation.start.as_slice(),
        explanation.moves.as_slice(),
        out,
    )
}

// Appends these items at the start and these moves.
fn print_parts(
    before: &Timeline,
    starts: &[(Bytes, u64)],
    moves: &[TimelineMove],
    out: &mut Vec<u8>,
) -> Result<(), OutOfMemory>
    ensures { OnOk result (out.new.items ≡ out.old.items
        ++ (codes "explained before\n" ++ (flat_map texts.start_text starts.now ++ texts.order_text before.now (λ client. 0) moves.now))) }
{
    out.extend_from_slice(b"explained before\n")?;
    print_starts(starts, out)?;
    print_moves(before.notes(), moves, out)
}

fn print_starts(starts: &[(Bytes, u64)], out: &mut Vec<u8>) -> Result<(), OutOfMemory>
    ensures { OnOk result (out.new.items ≡ out.old.items ++ flat_map texts.start_text starts.now) }
{
    'starts: for (key, number) in starts {
        print_start(key.as_slice(), *number, out)?;
    }
    Ok(())
}

// Appends the line of an item at the start.
fn print_start(key: &[u8], number: u64, out: &mut Vec<u8>) -> Result<(), OutOfMemory>
    ensures { OnOk result (out.new.items ≡ out.old.items ++ texts.start_text (key.now, number)) }
{
    let mut number_text = Buffer::new();
    let number = number_text.format(number).as_bytes();
    append_all(
        out,
        &[b"start ", key, b" ", number, b"  ", key, b" held an item\n"],
    )
}

fn print_moves(
    notes: &[(u8, Note)],
    moves: &[TimelineMove],
    out: &mut Vec<u8>,
) -> Result<(), OutOfMemory>
    ensures { OnOk result (out.new.items ≡ out.old.items ++ texts.order_text notes.now (λ client. 0) moves.now) }
{
    let mut places = [0; 256];
    'moves: for by in moves {
        print_move(notes, &mut places, *by, out)?;
    }
    Ok(())
}

// Appends the line of a move, whose request is the next one of its client from its place on; the place is then the one after it.
fn print_move(
    notes: &[(u8, Note)],
    places: &mut [usize; 256],
    by: TimelineMove,
    out: &mut Vec<u8>,
) -> Result<(), OutOfMemory>
    ensures text { OnOk result (out.new.items ≡ out.old.items ++ texts.move_text notes.now (places_in places.old) by) }
    ensures places { OnOk result (places_in places.new ≡ texts.places_after (places_in places.old) by.client
        (texts.next_from notes.now (places_in places.old) by.client)) }
{
    let next = take_next(notes, places, by.client);
    print_words(by, out)?;
    print_beside(notes, next, out)?;
    out.extend_from_slice(b"\n")
}

// Where the client's next request begins; the next one is looked for after it.
fn take_next(notes: &[(u8, Note)], places: &mut [usize; 256], client: u8) -> Option<usize>
    ensures next { result ≡ texts.next_from notes.now (places_in places.old) client }
    ensures places { places_in places.new ≡ texts.places_after (places_in places.old) client result }
    ensures within { IfSome result (λ place. place < length notes.now) }
{
    match next_request(notes, places[client as usize], client) {
        Some(place) => {
            places[client as usize] = place + 1;
            Some(place)
        }
        None => None,
    }
}

// Where the client's next request begins, from a place on.
fn next_request(notes: &[(u8, Note)], from: usize, client: u8) -> Option<usize>
    ensures next { result ≡ texts.next_place client from (drop from notes.now) }
    ensures within { IfSome result (λ place. place < length notes.now) }
{
    let mut place = from;
    'places: while place < notes.len() {
        if begins_for(client, &notes[place]) {
            return Some(place);
        }
        place += 1;
    }
    None
}

// Whether a request of the client begins.
fn begins_for(client: u8, noted: &(u8, Note)) -> bool
    ensures { result ≡ begins_for client noted.now }
{
    match noted {
        (who, Note::Begin(_)) => *who == client,
        (_, Note::Reply(_)) => false,
    }
}

// Appends the words of a move.
fn print_words(by: TimelineMove, out: &mut Vec<u8>) -> Result<(), OutOfMemory>
    ensures { OnOk result (out.new.items ≡ out.old.items ++ join_words (texts.client_move_words by)) }
{
    let mut client_text = Buffer::new();
    let mut number_text = Buffer::new();
    let client = client_text.format(u64::from(by.client)).as_bytes();
    let number = number_text.format(by.number).as_bytes();
    append_all(out, &[client, b" ", number, marks_text(by.choice)])
}

// Appends what stands beside a move: the request that begins at the place, and its reply.
fn print_beside(
    notes: &[(u8, Note)],
    next: Option<usize>,
    out: &mut Vec<u8>,
) -> Result<(), OutOfMemory>
    requires { IfSome next (λ place. place < length notes.now) }
    ensures { OnOk result (out.new.items ≡ out.old.items ++ texts.beside_text notes.now next) }
{
    match next {
        Some(place) => print_begun(&notes[place..], out),
        None => Ok(()),
    }
}

// Appends the request that the first note begins, with its reply.
fn print_begun(notes: &[(u8, Note)], out: &mut Vec<u8>) -> Result<(), OutOfMemory>
    ensures { OnOk result (out.new.items ≡ out.old.items ++ texts.begun_text notes.now) }
{
    match notes {
        [(client, Note::Begin(request)), later @ ..] => {
            print_asked(request, first_reply(*client, later), out)
        }
        _ => Ok(()),
    }
}

// The first reply to the client.
fn first_reply<'a>(client: u8, notes: &'a [(u8, Note)]) -> Option<&'a Reply>
    ensures { option_copied result ≡ texts.first_reply client notes.entry.now }
{
    'notes: for (who, note) in notes {
        if let Note::Reply(reply) = note {
            if *who == client {
                return Some(reply);
            }
        }
    }
    None
}

// Appends a request and its reply, unless its key would be read as a mark of the move.
fn print_asked(
    request: &Request,
    reply: Option<&Reply>,
    out: &mut Vec<u8>,
) -> Result<(), OutOfMemory>
    ensures { OnOk result (out.new.items ≡ out.old.items ++ texts.asked_text request.now (option_copied reply.entry)) }
{
    let key = request.key.as_slice();
    if is_word(key, b"pad") || is_word(key, b"refuse") {
        return Ok(());
    }
    out.extend_from_slice(b"  ")?;
    print_request_words(request, out)?;
    print_received(reply, out)
}

// Appends what stands after a request: `->`, and the words of the reply, or `?` where none came.
fn print_received(reply: Option<&Reply>, out: &mut Vec<u8>) -> Result<(), OutOfMemory>
    ensures { OnOk result (out.new.items ≡ out.old.items ++ (codes " -> " ++ join_words (answer_words (option_copied reply.entry)))) }
{
    let Some(reply) = reply else {
        return out.extend_from_slice(b" -> ?");
    };
    out.extend_from_slice(b" -> ")?;
    print_reply_words(reply, out)
}
