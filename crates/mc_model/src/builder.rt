//! How a history is made: request by request, each tested against the rules of `specs/History.antt` when it is added.
ghost use Rattle.std.specs.Prelude.{◌≡◌, ◌≢◌, true, Some, None, OnOk, OnErr, IfOk, IfErr};
ghost use Rattle.mc_model.specs.Sections as sections;
ghost use Rattle.mc_model.specs.History as rule;
ghost use Rattle.mc_model.specs.Next as next;
ghost use Rattle.mc_model.specs.Notes as recorded;

use crate::record::Record;
use crate::rules::{HistoryKind, are_answered, has_key, has_words, is_answered_rightly, is_seen};
use crate::{History, Sent};
use mc_protocol::{Actor, KEYS_LIMIT, REQUESTS_LIMIT, Reply, Verb, fits};
use std::alloc::Global;
use std::marker::Model;

/// A history that is made request by request, in the order in which a text has them. Contracts see the sections so
/// far, which are a history.
#[derive(Debug)]
pub struct HistoryBuilder {
    p: Vec<Sent>,
    a: Vec<Sent>,
    b: Vec<Sent>,
    /// How many keys the requests have.
    keys: usize,
}

// One call drops its parts. A derived `Drop` would write them out at each end of each function that holds one.
impl Drop for HistoryBuilder {
    fn drop(self) {
        let HistoryBuilder {
            p: _,
            a: _,
            b: _,
            keys: _,
        } = self;
    }
}

impl Model for HistoryBuilder {
    ghost use Rattle.mc_model.specs.Sections.{Sections};

    ghost Value = { Sections };

    ghost view = { λ h. record { p = h.p.items; a = h.a.items; b = h.b.items } };

    ghost use Rattle.std.specs.Prelude.{◌≡◌, true};
    ghost use Rattle.mc_model.specs.History.{is_history, key_count};

    ghost invariant = { λ h. (is_history (record { p = h.p.items; a = h.a.items; b = h.b.items }) ≡ true)
        × (h.keys ≡ key_count (record { p = h.p.items; a = h.a.items; b = h.b.items })) };
}

impl HistoryBuilder {
    /// A history with no request yet.
    pub fn new(alloc: Global) -> Self
        ensures { result ≡ sections.no_sections }
    {
        HistoryBuilder {
            p: Vec::new(alloc),
            a: Vec::new(alloc),
            b: Vec::new(alloc),
            keys: 0,
        }
    }

    /// Adds the next request of a section. Where the sections would be no history with it, or it is one of P after one
    /// of A or B, the fault is the first rule that is broken, in the order of `first_broken`. Want of memory comes only
    /// where no rule is broken. An `Err` changes nothing, and after each call the sections are a history.
    pub fn push(&mut self, actor: Actor, sent: Sent) -> Result<(), HistoryKind>
        ensures ok { OnOk result (self.new ≡ sections.with_sent self.old actor sent) }
        ensures history { OnOk result (rule.fault_at self.old actor sent ≡ None) }
        ensures fault { IfErr result (λ kind. kind ≢ HistoryKind.OutOfMemory → rule.fault_at self.old actor sent ≡ Some kind) }
        ensures memory { IfErr result (λ kind. kind ≡ HistoryKind.OutOfMemory → rule.fault_at self.old actor sent ≡ None) }
        ensures err { OnErr result (self.new ≡ self.old) }
        ensures keeps { rule.is_history self.new ≡ true }
    {
        self.check(actor, &sent)?;
        let keys = self.keys_with(&sent);
        match actor {
            Actor::P => self.p.push(sent)?,
            Actor::A => self.a.push(sent)?,
            Actor::B => self.b.push(sent)?,
        }
        self.keys = keys;
        Ok(())
    }

    /// Gives the last request of a section the reply for which it waits. The fault is Order where it waits for none, and
    /// WrongReply where the reply is none that the request may have. An `Err` changes nothing.
    pub(crate) fn answer(&mut self, actor: Actor, reply: Reply) -> Result<(), HistoryKind>
        ensures ok { OnOk result (self.new ≡ next.after_reply self.old actor reply) }
        ensures fits { IfOk result (λ _. next.reply_fault (next.last_of (sections.section_of self.old actor)) reply ≡ None) }
        ensures fault { IfErr result (λ kind. next.reply_fault (next.last_of (sections.section_of self.old actor)) reply ≡ Some kind) }
        ensures err { OnErr result (self.new ≡ self.old) }
        ensures keeps { rule.is_history self.new ≡ true }
    {
        match actor {
            Actor::P => answer_last(&mut self.p, reply),
            Actor::A => answer_last(&mut self.a, reply),
            Actor::B => answer_last(&mut self.b, reply),
        }
    }

    /// How many keys there are with the request. P has each key of a history, so its requests show whether this key is
    /// new.
    fn keys_with(&self, sent: &Sent) -> usize
        ensures { result ≡ next.keys_with self.now sent.now }
    {
        if has_key(self.p.as_slice(), sent.request.key.as_slice()) {
            self.keys
        } else {
            self.keys + 1
        }
    }

    /// Tests the request against the rules. The fault is the first rule that the sections break with it added.
    #[tactic(auto, using(crate::proofs::Faults::fault_by_tests))]
    fn check(&self, actor: Actor, sent: &Sent) -> Result<(), HistoryKind>
        ensures ok { IfOk result (λ _. rule.fault_at self.now actor sent.now ≡ None) }
        ensures fault { IfErr result (λ kind. rule.fault_at self.now actor sent.now ≡ Some kind) }
        ensures memory { IfErr result (λ kind. kind ≢ HistoryKind.OutOfMemory) }
    {
        let prefix = self.p.as_slice();
        if !has_words(&sent.request) {
            return Err(HistoryKind::Line);
        }
        if self.is_full(actor, sent) {
            return Err(HistoryKind::TooMany);
        }
        if !self.may_come(actor) {
            return Err(HistoryKind::Order);
        }
        if !self.is_cleared(actor, sent) {
            return Err(HistoryKind::NotCleared);
        }
        if !(is_seen(prefix, sent) || is_seen(self.section(actor), sent)) {
            return Err(HistoryKind::UnseenNumber);
        }
        if !is_answered_rightly(sent) {
            return Err(HistoryKind::WrongReply);
        }
        Ok(())
    }

    /// Whether the section has as many requests as it may have, or the history as many keys and this key is new.
    fn is_full(&self, actor: Actor, sent: &Sent) -> bool
        ensures { result ≡ next.is_full self.now actor sent.now }
    {
        self.section(actor).len() >= REQUESTS_LIMIT
            || (self.keys >= KEYS_LIMIT && !has_key(self.p.as_slice(), sent.request.key.as_slice()))
    }

    /// Whether the section may have one more request: all replies that it waits for came.
    fn may_come(&self, actor: Actor) -> bool
        ensures { result ≡ next.may_come self.now actor }
    {
        match actor {
            Actor::P => self.a.is_empty() && self.b.is_empty() && are_answered(self.p.as_slice()),
            Actor::A => are_answered(self.p.as_slice()) && are_answered(self.a.as_slice()),
            Actor::B => are_answered(self.p.as_slice()) && are_answered(self.b.as_slice()),
        }
    }

    /// Whether the request's key is cleared before it, or by it.
    fn is_cleared(&self, actor: Actor, sent: &Sent) -> bool
        ensures { result ≡ next.clears self.now actor sent.now }
    {
        has_key(self.p.as_slice(), sent.request.key.as_slice())
            || (actor == Actor::P && sent.request.verb == Verb::Delete)
    }

    /// The section's requests so far.
    fn section(&self, actor: Actor) -> &[Sent]
        ensures { result.now ≡ sections.section_of self.now actor }
    {
        match actor {
            Actor::P => self.p.as_slice(),
            Actor::A => self.a.as_slice(),
            Actor::B => self.b.as_slice(),
        }
    }

    /// The history of what was added.
    pub fn finish(self) -> History
        ensures same { result ≡ recorded.without_notes self }
        ensures history { rule.is_history result.sections ≡ true }
    {
        let HistoryBuilder { p, a, b, keys: _ } = self;
        History::from_sections(p, a, b, None)
    }

    /// The history of what was added, with the notes that spell it.
    pub(crate) fn finish_with(self, noted: Record) -> History
        requires { recorded.Keeps self (Some noted) }
        ensures { result ≡ recorded.with_notes noted }
    {
        let HistoryBuilder { p, a, b, keys: _ } = self;
        History::from_sections(p, a, b, Some(noted))
    }
}

/// Gives the section's last request its reply, if it waits for one that it may have.
fn answer_last(section: &mut Vec<Sent>, reply: Reply) -> Result<(), HistoryKind>
    ensures ok { OnOk result (section.new.items ≡ next.with_last_reply section.old.items reply) }
    ensures fits { IfOk result (λ _. next.reply_fault (next.last_of section.old.items) reply ≡ None) }
    ensures fault { IfErr result (λ kind. next.reply_fault (next.last_of section.old.items) reply ≡ Some kind) }
    ensures err { OnErr result (section.new.items ≡ section.old.items) }
{
    let Some(sent) = section.last_mut() else {
        return Err(HistoryKind::Order);
    };
    if sent.reply.is_some() {
        return Err(HistoryKind::Order);
    }
    if !fits(&sent.request, &reply) {
        return Err(HistoryKind::WrongReply);
    }
    sent.reply = Some(reply);
    Ok(())
}
