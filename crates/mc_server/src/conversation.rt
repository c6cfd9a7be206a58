//! The conversation over one connection, piece by piece of what the client sends.
ghost use Rattle.std.specs.Prelude.{◌≡◌, ◌≢◌, ◌+◌, ◌^◌, ◌<◌, ◌≤◌, [], length, OnOk};
ghost use Rattle.mc_lane.specs.Streams.{CanFail};
ghost use Rattle.mc_reader.specs.{AskReading.InLine, Asks.ask_of};
ghost use Rattle.mc_server.specs.Asked as asked;
ghost use Rattle.mc_server.specs.Conversing as spec;
ghost use Rattle.mc_server.specs.declared.served.Why.TheVariants.{WriteFailed};

use crate::answer::answer;
use crate::outbox::{flush, write_all};
use crate::{Caller, Why};
use mc_lane::Stream;
use mc_reader::{Ask, AskFault, Asked, RequestReader};
use std::alloc::Global;
use std::sync::Wait;

/// What is kept of a connection between its pieces.
#[derive(Drop)]
pub(crate) struct Conversation {
    reader: RequestReader,
    /// The answers that aren't written yet: none between the pieces.
    held: Vec<u8>,
    /// How many requests were read.
    requests: u64,
}

impl Conversation {
    /// A conversation in which nothing was said. It allocates nothing.
    pub(crate) fn new(alloc: Global) -> Self
        ensures reader { result.reader ≡ InLine [] }
        ensures held { result.held.items ≡ [] }
        ensures requests { result.requests ≡ 0 }
    {
        Conversation {
            reader: RequestReader::new(alloc),
            held: Vec::new(alloc),
            requests: 0,
        }
    }

    /// How many requests were read.
    pub(crate) fn requests(&self) -> u64
        ensures { result ≡ self.now.requests }
    {
        self.requests
    }

    /// Answers all that a piece asks, and writes the answers. Where memory runs out, a line that says so is written last.
    ///
    /// # Errors
    ///
    /// Why nothing more is read.
    pub(crate) fn answer_piece<R: Wait, S: Stream, C: Caller>(
        &mut self,
        rt: &R,
        caller: &C,
        piece: &[u8],
        stream: &mut S,
    ) -> Result<(), Why>
        requires can_fail { CanFail (S.state stream.old) }
        requires read { spec.HasReadSome self.old.reader }
        requires held { self.old.held.items ≡ [] }
        requires few { self.old.requests + length piece.now < 2 ^ 64 }
        ensures answers { spec.AnswersPiece self.old.reader self.new.reader piece.now (S.state stream.old) (S.state stream.new)
            self.old.requests self.new.requests result }
        ensures held { OnOk result (self.new.held.items ≡ []) }
        ensures few { OnOk result (self.new.requests ≤ self.old.requests + length piece.now) }
    {
        match self.put_answers(rt, caller, piece, stream) {
            Ok(()) => flush(stream, &mut self.held),
            Err(why) => Err(self.finish(stream, why)),
        }
    }

    /// Writes what is held back, and a line where memory ran out, unless a write failed before. Answers why nothing more is read.
    pub(crate) fn finish<S: Stream>(&mut self, stream: &mut S, why: Why) -> Why
        requires { why ≢ WriteFailed → CanFail (S.state stream.old) }
        ensures finishes { spec.Finishes why self.old.held.items (S.state stream.old) (S.state stream.new) result }
        ensures same { (self.new.reader ≡ self.old.reader) × (self.new.requests ≡ self.old.requests) }
    {
        if why == Why::WriteFailed {
            return why;
        }
        if let Err(failed) = flush(stream, &mut self.held) {
            return failed;
        }
        if let Err(failed) = write_all(stream, last_line(why).as_bytes()) {
            return failed;
        }
        why
    }

    /// Puts the answers to all that a piece asks.
    fn put_answers<R: Wait, S: Stream, C: Caller>(
        &mut self,
        rt: &R,
        caller: &C,
        piece: &[u8],
        stream: &mut S,
    ) -> Result<(), Why>
        requires can_fail { CanFail (S.state stream.old) }
        requires read { spec.HasReadSome self.old.reader }
        requires few { self.old.requests + length piece.now < 2 ^ 64 }
        ensures answers { spec.PutsAnswers self.old.reader self.new.reader piece.now self.old.held.items self.new.held.items
            (S.state stream.old) (S.state stream.new) self.old.requests self.new.requests result }
        ensures few { OnOk result (self.new.requests ≤ self.old.requests + length piece.now) }
    {
        let mut unread = piece;
        'asks: loop {
            match self.answer_next(rt, caller, unread, stream) {
                Ok(Some(used)) => unread = &unread[used..],
                Ok(None) => return Ok(()),
                Err(why) => return Err(why),
            }
        }
    }

    /// Puts the answer to the next request, and answers how many of the unread bytes belong to it; or that it isn't whole.
    fn answer_next<R: Wait, S: Stream, C: Caller>(
        &mut self,
        rt: &R,
        caller: &C,
        unread: &[u8],
        stream: &mut S,
    ) -> Result<Option<usize>, Why>
        requires can_fail { CanFail (S.state stream.old) }
        requires read { spec.HasReadSome self.old.reader }
        requires few { self.old.requests + length unread.now < 2 ^ 64 }
        ensures { spec.AnswersNext self.old.reader self.new.reader unread.now self.old.held.items self.new.held.items
            (S.state stream.old) (S.state stream.new) self.old.requests self.new.requests result }
    {
        match self.reader.feed(unread) {
            Ok(Asked::More) => Ok(None),
            Ok(Asked::Done { ask, used }) => {
                let closed = why_closed(&ask);
                self.requests += count_one(&ask);
                if let Err(why) = answer(rt, caller, ask, stream, &mut self.held) {
                    return Err(why);
                }
                match closed {
                    None => Ok(Some(used)),
                    Some(why) => Err(why),
                }
            }
            Err(AskFault::OutOfMemory) => Err(Why::Memory),
            // nothing is read after what closes
            Err(AskFault::Failed) => unreachable!(),
        }
    }
}

/// Why nothing is read after what was asked.
fn why_closed(ask: &Ask) -> Option<Why>
    ensures { result ≡ spec.why_closed (ask_of ask.now) }
{
    match ask {
        Ask::One { .. } | Ask::Many { .. } => None,
        Ask::Quit => Some(Why::Quit),
        Ask::Refused(_) if ask.closes() => Some(Why::Refused),
        Ask::Refused(_) => None,
    }
}

/// How many requests it is.
fn count_one(ask: &Ask) -> u64
    ensures count { result ≡ asked.count_one (ask_of ask.now) }
    ensures one { result ≤ 1 }
{
    match ask {
        Ask::One { .. } | Ask::Many { .. } => 1,
        Ask::Quit | Ask::Refused(_) => 0,
    }
}

/// The line that is written last.
fn last_line(why: Why) -> &'static str
    ensures { result.now ≡ spec.last_line why }
{
    match why {
        Why::Memory => "SERVER_ERROR out of memory\r\n",
        _ => "",
    }
}
