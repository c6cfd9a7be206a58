//! What is noted of all connections.
use crate::asides::{Aside, Effect, read_aside};
use crate::awaited::{Awaited, Waiting};
use crate::frames::Frame;
use crate::judging::Count;
use crate::keys::Keys;
use crate::left_out::{LeftOut, Reason};
use crate::piece::Piece;
use mc_protocol::{Bytes, OutOfMemory, Reply, Request, Verb};
use mc_reader::{Ask, Refuse};
use std::alloc::Global;

/// How many connections there may be at once.
pub(crate) const CONNECTIONS_LIMIT: usize = 64;

/// What is noted of all connections. No call fails: if memory runs out, nothing is noted from then on.
#[derive(Drop)]
pub struct Notebook {
    alloc: Global,
    keys: Keys,
    // For each connection that there may be, what it waits for, if it is there.
    connections: Vec<Option<Waiting>>,
    // How many requests were sent before the reply to an earlier one of their connection had begun.
    pipelined: u64,
    // Whether nothing is noted any more.
    is_over: bool,
}

impl Notebook {
    /// A notebook in which nothing is noted. The timelines that end are kept only if they are to be judged.
    pub fn new(alloc: Global, judges: bool) -> Result<Self, OutOfMemory> {
        let mut connections = Vec::with_capacity(alloc, CONNECTIONS_LIMIT)?;
        for _ in 0..CONNECTIONS_LIMIT {
            connections.push(None)?;
        }
        Ok(Notebook {
            alloc,
            keys: Keys::new(alloc, judges)?,
            connections,
            pipelined: 0,
            is_over: false,
        })
    }

    /// The number of a new connection, or nothing if there are as many as there may be.
    pub fn open(&mut self) -> Option<u8> {
        let place = self.connections.iter().position(|found| found.is_none())?;
        let number = u8::try_from(place).ok()?;
        *self.connections.get_mut(place)? = Some(Waiting::new(self.alloc));
        Some(number)
    }

    /// A connection has ended. What it waits for may still act, at any time.
    pub fn close(&mut self, connection: u8) {
        self.keys.end_connection(connection);
        if let Some(found) = self.connections.get_mut(usize::from(connection)) {
            *found = None;
        }
    }

    /// The text since the last call.
    pub fn take_text(&mut self) -> Vec<u8> {
        self.keys.take_text()
    }

    /// A timeline that ended, if one is left.
    pub(crate) fn take_piece(&mut self) -> Option<Piece> {
        self.keys.take_piece()
    }

    /// How many timelines started, and how many requests they have.
    pub(crate) fn noted(&self) -> Count {
        self.keys.noted()
    }

    /// Whether memory ran out, so that nothing was noted from then on.
    pub(crate) fn is_short(&self) -> bool {
        self.keys.is_short()
    }

    /// The timelines that nobody judges, since too many waited.
    pub(crate) fn unjudged(&self) -> Count {
        self.keys.unjudged()
    }

    /// How many requests were sent before the reply to an earlier one of their connection had begun.
    pub(crate) fn pipelined(&self) -> u64 {
        self.pipelined
    }

    /// How many requests were left out, and why.
    pub(crate) fn left_out(&self) -> LeftOut {
        self.keys.left_out()
    }

    /// Nothing more comes: all timelines end, and the text does.
    pub fn finish(&mut self) {
        if self.keys.finish().is_err() {
            self.keys.give_up();
        }
        self.is_over = true;
    }

    /// The last byte of a request has come from the client, whose line is this. Answers how many bytes after it belong to it.
    pub(crate) fn ask(&mut self, connection: u8, ask: Ask, line: &[u8]) -> u64 {
        if self.is_over {
            return 0;
        }
        match self.note_ask(connection, ask, line) {
            Ok(block) => block,
            Err(_) => {
                self.give_up();
                0
            }
        }
    }

    /// Bytes of the connection aren't understood: nothing is noted from then on.
    pub(crate) fn misunderstand(&mut self, connection: u8) {
        if self.is_over {
            return;
        }
        if self
            .keys
            .end_all("bytes that aren't understood", connection, true)
            .is_err()
        {
            self.keys.give_up();
        }
        self.is_over = true;
    }

    /// What the server answers next on the connection. It has executed the requests before that have no reply.
    pub(crate) fn next_awaited(&mut self, connection: u8) -> Option<Awaited> {
        for _ in 0..usize::MAX {
            let awaited = self.pop(connection)?;
            if awaited.frame != Frame::Silent {
                return Some(awaited);
            }
            self.settle(&awaited);
        }
        None
    }

    /// The last byte of a reply has come from the server. There is no `reply` if a timeline has no words for it.
    pub(crate) fn answer(&mut self, awaited: Awaited, reply: Option<Reply>) {
        if self.is_over {
            return;
        }
        self.settle(&awaited);
        let (Some(noted), Some(key)) = (awaited.noted, awaited.keys.as_slice().first()) else {
            return;
        };
        if self.keys.answer(key, noted, reply).is_err() {
            self.give_up();
        }
    }

    // It was executed.
    fn settle(&mut self, awaited: &Awaited) {
        self.keys.rest(awaited.keys.as_slice());
        if awaited.flushes {
            self.keys.end_flush();
        }
    }

    // There was no memory: nothing is noted from then on.
    fn give_up(&mut self) {
        self.keys.give_up();
        self.is_over = true;
    }

    fn pop(&mut self, connection: u8) -> Option<Awaited> {
        let waiting = self.connections.get_mut(usize::from(connection))?;
        waiting.as_mut()?.pop()
    }

    // Keeps what the connection waits for.
    fn wait_for(&mut self, connection: u8, awaited: Awaited) -> Result<(), OutOfMemory> {
        if let Some(Some(waiting)) = self.connections.get_mut(usize::from(connection)) {
            if waiting.push(awaited)? {
                self.pipelined = self.pipelined.saturating_add(1);
            }
        }
        Ok(())
    }

    fn note_ask(&mut self, connection: u8, ask: Ask, line: &[u8]) -> Result<u64, OutOfMemory> {
        match ask {
            Ask::One { request, noreply } => {
                if noreply {
                    self.act_silently(connection, request)?;
                } else {
                    self.begin(connection, request)?;
                }
            }
            Ask::Many { keys: _keys, .. } => {
                self.keys.leave_out(Reason::SeveralKeys);
                self.wait_for(connection, Awaited::aside(self.alloc, Frame::Items))?;
            }
            Ask::Quit => {}
            Ask::Refused(refuse) => return self.note_refused(connection, refuse, line),
        }
        Ok(0)
    }

    // A request of one key that is answered.
    fn begin(&mut self, connection: u8, request: Request) -> Result<(), OutOfMemory> {
        let verb = request.verb;
        let key = request.key.copy(self.alloc)?;
        let noted = self.keys.begin(connection, request)?;
        self.keys.act(&key)?;
        let mut keys = Vec::with_capacity(self.alloc, 1)?;
        keys.push(key)?;
        self.wait_for(
            connection,
            Awaited {
                frame: frame_of(verb),
                keys,
                verb: Some(verb),
                noted,
                flushes: false,
            },
        )
    }

    // A request of one key that has no reply: nobody sees when it acts.
    fn act_silently(&mut self, connection: u8, request: Request) -> Result<(), OutOfMemory> {
        let Request { key, .. } = request;
        let mut keys = Vec::with_capacity(self.alloc, 1)?;
        keys.push(key)?;
        self.keys.leave_out(Reason::WithoutReply);
        self.end_keys(connection, keys, Frame::Silent, "a request has no reply")
    }

    // The timelines of the keys end, on which a request acts from now on.
    fn end_keys(
        &mut self,
        connection: u8,
        keys: Vec<Bytes>,
        frame: Frame,
        why: &str,
    ) -> Result<(), OutOfMemory> {
        for key in keys.as_slice() {
            self.keys.end(key, why)?;
            self.keys.act(key)?;
        }
        self.wait_for(
            connection,
            Awaited {
                frame,
                keys,
                verb: None,
                noted: None,
                flushes: false,
            },
        )
    }

    // What is no request of a timeline. Answers how many bytes after its line belong to it.
    fn note_refused(
        &mut self,
        connection: u8,
        refuse: Refuse,
        line: &[u8],
    ) -> Result<u64, OutOfMemory> {
        if matches!(
            refuse,
            Refuse::BadLine | Refuse::BadChunk | Refuse::LongLine
        ) {
            self.misunderstand(connection);
            return Ok(0);
        }
        let Aside {
            effect,
            frame,
            block,
        } = read_aside(self.alloc, line)?;
        self.keys.leave_out(Reason::Other);
        match effect {
            Effect::Nothing => {}
            Effect::EndsAll => {
                self.keys.end_all("flush_all", connection, false)?;
                self.keys.begin_flush();
                self.wait_for(connection, Awaited::flush(self.alloc, frame))?;
                return Ok(block);
            }
            Effect::Ends(keys) => {
                self.end_keys(
                    connection,
                    keys,
                    frame,
                    "a timeline has no words for a request",
                )?;
                return Ok(block);
            }
            Effect::Unknown => {
                self.misunderstand(connection);
                return Ok(0);
            }
        }
        self.wait_for(connection, Awaited::aside(self.alloc, frame))?;
        Ok(block)
    }
}

/// How the reply to a request of one key is made.
fn frame_of(verb: Verb) -> Frame {
    match verb {
        Verb::Get | Verb::Gets => Frame::Items,
        _ => Frame::Line,
    }
}
