//! The timelines of all keys, and the text of them.
ghost use Rattle.std.specs.Prelude.{◌≡◌, IfOk};

use crate::awaited::Noted;
use crate::judging::Count;
use crate::key_record::KeyRecord;
use crate::left_out::{LeftOut, Reason};
use crate::lines::{begin_line, end_all_line, end_line, key_name, name_line, reply_line};
use crate::numbers::Numbers;
use crate::piece::Piece;
use crate::reasons::reason_of;
use crate::text::Text;
use mc_protocol::{Bytes, OutOfMemory, Reply, Request};
use mc_timeline::Timeline;
use std::alloc::Global;
use std::collections::{HashMap, VecDeque};

/// How many timelines may wait to be judged; another one isn't judged.
const PIECES_LIMIT: usize = 65_536;

/// What is kept of a key, and its name in the text with the number of that.
#[derive(Drop)]
struct Named {
    name: u64,
    label: Bytes,
    record: KeyRecord,
}

/// The timelines of all keys, and the text of them.
#[derive(Drop)]
pub(crate) struct Keys {
    alloc: Global,
    text: Text,
    // A key that isn't there has no timeline, and nothing acts on it.
    named: HashMap<Bytes, Named>,
    numbers: Numbers,
    // How many names were given, and how many requests were noted.
    names: u64,
    requests: u64,
    // How many requests that remove all items may still do so.
    flushing: u64,
    // Timelines that ended; they are kept only if they are to be judged.
    pieces: VecDeque<Piece>,
    keeps_pieces: bool,
    // Timelines that weren't kept, since too many waited.
    unjudged: Count,
    left_out: LeftOut,
    // Whether memory ran out.
    is_short: bool,
}

impl Keys {
    /// No key has a timeline.
    pub(crate) fn new(alloc: Global, keeps_pieces: bool) -> Result<Self, OutOfMemory> {
        Ok(Keys {
            alloc,
            text: Text::new(alloc)?,
            named: HashMap::new(alloc),
            numbers: Numbers::new(),
            names: 0,
            requests: 0,
            flushing: 0,
            pieces: VecDeque::new(alloc),
            keeps_pieces,
            unjudged: Count::none(),
            left_out: LeftOut::none(),
            is_short: false,
        })
    }

    pub(crate) fn take_text(&mut self) -> Vec<u8> {
        self.text.take()
    }

    pub(crate) fn take_piece(&mut self) -> Option<Piece> {
        self.pieces.pop_front()
    }

    pub(crate) fn left_out(&self) -> LeftOut {
        self.left_out
    }

    /// How many timelines started, and how many requests they have.
    pub(crate) fn noted(&self) -> Count {
        Count {
            timelines: self.names,
            requests: self.requests,
        }
    }

    /// Whether memory ran out.
    pub(crate) fn is_short(&self) -> bool {
        self.is_short
    }

    /// The timelines that nobody judges, since too many waited.
    pub(crate) fn unjudged(&self) -> Count {
        self.unjudged
    }

    /// A request isn't noted.
    pub(crate) fn leave_out(&mut self, reason: Reason) {
        self.left_out.add(reason);
    }

    /// The connection has ended: its numbers are free that wait for nothing.
    pub(crate) fn end_connection(&mut self, connection: u8) {
        self.numbers.end(connection);
    }

    /// A request acts on the key from now on.
    pub(crate) fn act(&mut self, key: &Bytes) -> Result<(), OutOfMemory> {
        if let Some(named) = self.named.get_mut(key) {
            named.record.act();
            return Ok(());
        }
        self.keep(key)?;
        if let Some(named) = self.named.get_mut(key) {
            named.record.act();
        }
        Ok(())
    }

    /// A request doesn't act on the keys any more.
    pub(crate) fn rest(&mut self, keys: &[Bytes]) {
        for key in keys {
            if self.is_idle_after_rest(key) {
                let _ = self.named.remove(key);
            }
        }
    }

    // A request doesn't act on the key any more; whether nothing need be kept of it then.
    fn is_idle_after_rest(&mut self, key: &Bytes) -> bool {
        match self.named.get_mut(key) {
            Some(named) => {
                named.record.rest();
                named.record.is_idle()
            }
            None => false,
        }
    }

    /// Notes that a request begins, if its key has a timeline or it may start one.
    pub(crate) fn begin(
        &mut self,
        connection: u8,
        request: Request,
    ) -> Result<Option<Noted>, OutOfMemory> {
        self.keep(&request.key)?;
        let (may_start, is_started) = match self.named.get(&request.key) {
            Some(named) => (
                named.record.may_start(request.verb) && self.flushing == 0,
                named.record.is_started(),
            ),
            None => (false, false),
        };
        if !may_start && !is_started {
            self.left_out.add(Reason::NotStarted);
            return Ok(None);
        }
        let Some(client) = self.numbers.take(connection) else {
            self.left_out.add(Reason::WithoutNumber);
            self.end(&request.key, "no client's number is left")?;
            return Ok(None);
        };
        if may_start {
            self.start(client, request)
        } else {
            self.go_on(client, request)
        }
    }

    // Notes a request of a key that has a timeline.
    fn go_on(&mut self, client: u8, request: Request) -> Result<Option<Noted>, OutOfMemory> {
        let Some(named) = self.named.get_mut(&request.key) else {
            return Ok(None);
        };
        let name = named.name;
        let (key, request) = renamed(request, named.label.copy(self.alloc)?);
        let line = begin_line(self.alloc, client, &request)?;
        match named.record.begin(self.alloc, client, request) {
            Ok(()) => {
                self.requests = self.requests.saturating_add(1);
                self.text.begin(line.as_slice())?;
                Ok(Some(Noted { client, name }))
            }
            Err(kind) => {
                self.numbers.answer(client);
                self.left_out.add(Reason::AgainstRules);
                self.end(&key, reason_of(kind))?;
                Ok(None)
            }
        }
    }

    // Notes a request that starts a timeline.
    fn start(&mut self, client: u8, request: Request) -> Result<Option<Noted>, OutOfMemory> {
        let name = self.names.saturating_add(1);
        self.names = name;
        let Some(named) = self.named.get_mut(&request.key) else {
            return Ok(None);
        };
        named.name = name;
        named.label = key_name(self.alloc, name)?;
        let (key, request) = renamed(request, named.label.copy(self.alloc)?);
        let named_line = name_line(self.alloc, &request.key, &key)?;
        let line = begin_line(self.alloc, client, &request)?;
        if !has_started(self.alloc, &mut named.record, client, request) {
            self.numbers.answer(client);
            self.left_out.add(Reason::AgainstRules);
            return Ok(None);
        }
        self.requests = self.requests.saturating_add(1);
        self.text.start(named_line.as_slice(), line.as_slice())?;
        Ok(Some(Noted { client, name }))
    }

    /// Notes the reply to a request that was noted, if its timeline hasn't ended. There is no `reply` if a timeline has no words for it.
    pub(crate) fn answer(
        &mut self,
        key: &Bytes,
        noted: Noted,
        reply: Option<Reply>,
    ) -> Result<(), OutOfMemory> {
        let Some(named) = self.named.get_mut(key) else {
            return Ok(());
        };
        if named.name != noted.name || !named.record.is_started() {
            return Ok(());
        }
        let Some(reply) = reply else {
            return self.end(key, "a timeline has no words for the reply");
        };
        let line = reply_line(self.alloc, noted.client, &reply)?;
        match named.record.answer(self.alloc, noted.client, reply) {
            Ok(cut) => {
                self.numbers.answer(noted.client);
                self.text.add(line.as_slice())?;
                self.keep_piece(key, noted.name, cut)
            }
            Err(kind) => self.end(key, reason_of(kind)),
        }
    }

    /// The key's timeline ends, if it has one.
    pub(crate) fn end(&mut self, key: &Bytes, why: &str) -> Result<(), OutOfMemory> {
        let Some(named) = self.named.get_mut(key) else {
            return Ok(());
        };
        let name = named.name;
        let ended = named.record.end();
        if ended.is_none() {
            return Ok(());
        }
        let line = end_line(self.alloc, &key_name(self.alloc, name)?, why)?;
        self.text.add(line.as_slice())?;
        self.keep_piece(key, name, ended)
    }

    /// All timelines end.
    pub(crate) fn end_all(
        &mut self,
        why: &str,
        connection: u8,
        is_last: bool,
    ) -> Result<(), OutOfMemory> {
        let line = end_all_line(self.alloc, why, connection, is_last)?;
        self.text.add(line.as_slice())?;
        self.end_each()
    }

    /// A request removes all items from now on.
    pub(crate) fn begin_flush(&mut self) {
        self.flushing = self.flushing.saturating_add(1);
    }

    /// It doesn't any more.
    pub(crate) fn end_flush(&mut self) {
        self.flushing = self.flushing.saturating_sub(1);
    }

    /// All timelines end, and the text does.
    pub(crate) fn finish(&mut self) -> Result<(), OutOfMemory> {
        self.end_each()?;
        self.text.finish()
    }

    /// There was no memory: no timeline goes on, and none is judged any more that goes on now.
    pub(crate) fn give_up(&mut self) {
        self.is_short = true;
        self.named = HashMap::new(self.alloc);
        let _ = self.text.add(b"# out of memory: every key ends here, and none starts again\n");
    }

    fn end_each(&mut self) -> Result<(), OutOfMemory> {
        let mut ended = Vec::new(self.alloc);
        for (key, named) in self.named.iter_mut() {
            if let Some(timeline) = named.record.end() {
                ended.push(Piece {
                    name: named.name,
                    key: key.copy(self.alloc)?,
                    timeline,
                })?;
            }
        }
        for piece in ended {
            self.push_piece(piece)?;
        }
        Ok(())
    }

    // Keeps a timeline that ended, if one did.
    fn keep_piece(
        &mut self,
        key: &Bytes,
        name: u64,
        ended: Option<Timeline>,
    ) -> Result<(), OutOfMemory> {
        let Some(timeline) = ended else {
            return Ok(());
        };
        let key = key.copy(self.alloc)?;
        self.push_piece(Piece {
            name,
            key,
            timeline,
        })
    }

    // Keeps a timeline that is to be judged, if not too many wait.
    fn push_piece(&mut self, piece: Piece) -> Result<(), OutOfMemory> {
        if !self.keeps_pieces {
            return Ok(());
        }
        if self.pieces.len() >= PIECES_LIMIT {
            self.unjudged.add(piece.requests());
            return Ok(());
        }
        self.pieces.push_back(piece)?;
        Ok(())
    }

    // Makes room for what is known of the key.
    fn keep(&mut self, key: &Bytes) -> Result<(), OutOfMemory> {
        if self.named.contains_key(key) {
            return Ok(());
        }
        self.named.insert(
            key.copy(self.alloc)?,
            Named {
                name: 0,
                label: Bytes::new(Vec::new(self.alloc)),
                record: KeyRecord::new(),
            },
        )?;
        Ok(())
    }
}

// Whether a timeline starts with the request.
fn has_started(alloc: Global, record: &mut KeyRecord, client: u8, request: Request) -> bool {
    record.may_start(request.verb) && record.start(alloc, client, request).is_ok()
}

// The request under the name of its key in the text, and the key itself.
fn renamed(request: Request, label: Bytes) -> (Bytes, Request) {
    let Request {
        verb,
        key,
        flags,
        body,
        number,
    } = request;
    let renamed = Request {
        verb,
        key: label,
        flags,
        body,
        number,
    };
    (key, renamed)
}
