//! What is kept of a key.
ghost use Rattle.std.specs.Prelude.{◌≡◌, ◌<◌, None, Some, [], ◌∷◌, true, IfOk, IfSome, OnOk, OnErr};
ghost use Rattle.mc_model.specs.declared.note.Note.TheVariants as note;
ghost use Rattle.mc_record.specs.Recorded as spec;

use mc_model::{HistoryKind, Note, copy_reply};
use mc_protocol::{OutOfMemory, Reply, Request, Verb};
use mc_timeline::{Timeline, TimelineBuilder};
use std::alloc::Global;
use std::marker::Model;

/// How many requests a timeline has before it is cut at the next start.
const CUT_AFTER: u64 = 64;

/// What is kept of a key: how many of its requests may still act on it, as no reply to them has come; and the notes of its timeline,
/// if it has one.
#[derive(Drop)]
pub(crate) struct KeyRecord {
    acting: u64,
    timeline: Option<TimelineBuilder>,
    // How many requests began in the timeline.
    requests: u64,
    // The client whose request may start the next timeline, if its reply is the next note.
    starter: Option<u8>,
}

impl Model for KeyRecord {
    ghost use Rattle.mc_record.specs.Recorded.{Recorded};

    ghost Value = { Recorded };

    ghost view = { λ r. record { acting = r.acting; notes = r.timeline } };
}

impl KeyRecord {
    /// Nothing is known of the key.
    pub(crate) fn new() -> Self
        ensures { result ≡ record { acting = 0; notes = None } }
    {
        KeyRecord {
            acting: 0,
            timeline: None,
            requests: 0,
            starter: None,
        }
    }

    /// Whether it has a timeline.
    pub(crate) fn is_started(&self) -> bool {
        self.timeline.is_some()
    }

    /// Whether nothing need be kept of it.
    pub(crate) fn is_idle(&self) -> bool {
        self.timeline.is_none() && self.acting == 0
    }

    /// Whether a timeline may start with a request of this verb.
    pub(crate) fn may_start(&self, verb: Verb) -> bool
        ensures { result ≡ spec.may_start self.now verb }
    {
        self.timeline.is_none() && self.acting == 0 && is_start(verb)
    }

    /// A request begins.
    pub(crate) fn act(&mut self)
        ensures notes { self.new.notes ≡ self.old.notes }
        ensures acts { 0 < self.new.acting }
    {
        self.acting = self.acting.saturating_add(1);
    }

    /// The reply to a request has come, or it is known that one was executed that has none.
    pub(crate) fn rest(&mut self)
        ensures { self.new.notes ≡ self.old.notes }
    {
        self.acting = self.acting.saturating_sub(1);
    }

    /// The timeline starts with this request.
    pub(crate) fn start(
        &mut self,
        alloc: Global,
        client: u8,
        request: Request,
    ) -> Result<(), HistoryKind>
        requires { spec.may_start self.old request.verb ≡ true }
        ensures ok { OnOk result (self.new.notes ≡ Some ((client, note.Begin request) ∷ [])) }
        ensures err { OnErr result (self.new ≡ self.old) }
        ensures acting { self.new.acting ≡ self.old.acting }
    {
        let mut builder = TimelineBuilder::new(alloc);
        builder.push(alloc, client, Note::Begin(request))?;
        self.timeline = Some(builder);
        self.requests = 1;
        self.starter = None;
        Ok(())
    }

    /// Notes that a request begins, if there is a timeline, which it may not break. An `Err` changes nothing.
    pub(crate) fn begin(
        &mut self,
        alloc: Global,
        client: u8,
        request: Request,
    ) -> Result<(), HistoryKind>
        ensures ok { OnOk result (self.new.notes ≡ spec.grown self.old.notes (client, note.Begin request)) }
        ensures err { OnErr result (self.new ≡ self.old) }
        ensures acting { self.new.acting ≡ self.old.acting }
    {
        let may_start = self.acting == 0 && is_start(request.verb);
        let Some(builder) = &mut self.timeline else {
            return Ok(());
        };
        builder.push(alloc, client, Note::Begin(request))?;
        self.requests = self.requests.saturating_add(1);
        self.starter = if may_start { Some(client) } else { None };
        Ok(())
    }

    /// Notes a reply to the client, if there is a timeline, which it may not break. If its request is a start and the timeline is
    /// long, another one starts with the request, and the one that ends is the answer.
    pub(crate) fn answer(
        &mut self,
        alloc: Global,
        client: u8,
        reply: Reply,
    ) -> Result<Option<Timeline>, HistoryKind>
        ensures ok { IfOk result (spec.IsAnswered self.old.notes (client, note.Reply reply) self.new.notes) }
        ensures err { OnErr result (self.new ≡ self.old) }
        ensures acting { self.new.acting ≡ self.old.acting }
    {
        let Some(builder) = &mut self.timeline else {
            return Ok(None);
        };
        builder.push(alloc, client, Note::Reply(reply))?;
        let is_cut = self.starter == Some(client) && CUT_AFTER <= self.requests;
        self.starter = None;
        if is_cut {
            return Ok(self.cut(alloc));
        }
        Ok(None)
    }

    // Ends the timeline, and starts another one with the last two of its notes if they are a start.
    fn cut(&mut self, alloc: Global) -> Option<Timeline>
        ensures whole { result ≡ self.old.notes }
        ensures cut { spec.IsCut self.old.notes self.new.notes }
        ensures acting { self.new.acting ≡ self.old.acting }
    {
        let timeline = self.end()?;
        self.timeline = restart(alloc, &timeline);
        Some(timeline)
    }

    /// The timeline, if there is one, which ends.
    pub(crate) fn end(&mut self) -> Option<Timeline>
        ensures whole { result ≡ self.old.notes }
        ensures none { self.new.notes ≡ None }
        ensures acting { self.new.acting ≡ self.old.acting }
    {
        self.starter = None;
        self.requests = 1;
        let builder = self.timeline.take()?;
        Some(builder.finish())
    }
}

/// Whether a timeline may start with a request of this verb.
fn is_start(verb: Verb) -> bool
    ensures { result ≡ spec.is_start verb }
{
    matches!(verb, Verb::Delete | Verb::Set)
}

// A timeline of the last two notes, if they are a start: a request with its reply.
fn restart(alloc: Global, timeline: &Timeline) -> Option<TimelineBuilder>
    ensures { IfSome result (spec.IsLastStart timeline.now) }
{
    let notes = timeline.notes();
    let place = notes.len().checked_sub(2)?;
    let (_earlier, last) = notes.split_at(place);
    let (client, request, reply) = start_in(last)?;
    started_with(alloc, client, request, reply)
}

// The client, the request and the reply of these notes, if they are a start and no more.
fn start_in(notes: &[(u8, Note)]) -> Option<(u8, &Request, &Reply)>
    ensures starts { IfSome result (λ found. spec.is_start found.1.now.verb ≡ true) }
    ensures notes { IfSome result (λ found.
        notes.now ≡ (found.0, note.Begin found.1.now) ∷ (found.0, note.Reply found.2.now) ∷ []) }
{
    let [
        (client, Note::Begin(request)),
        (answered, Note::Reply(reply)),
    ] = notes
    else {
        return None;
    };
    if client == answered && is_start(request.verb) {
        Some((*client, request, reply))
    } else {
        None
    }
}

// A timeline of a request with its reply.
fn started_with(
    alloc: Global,
    client: u8,
    request: &Request,
    reply: &Reply,
) -> Option<TimelineBuilder>
    ensures { IfSome result (λ notes.
        notes ≡ (client, note.Begin request.now) ∷ (client, note.Reply reply.now) ∷ []) }
{
    let mut builder = TimelineBuilder::new(alloc);
    let begun = request.copy(alloc).ok()?;
    builder.push(alloc, client, Note::Begin(begun)).ok()?;
    let answer = copy_reply(reply, alloc).ok()?;
    builder.push(alloc, client, Note::Reply(answer)).ok()?;
    Some(builder)
}
