//! Histories: what three sections sent and received, if that keeps the rules of `specs/History.antt`.
ghost use Rattle.std.specs.Prelude.{◌≡◌, ◌≢◌, [], true, false, IfOk, OnOk, IfErr};
ghost use Rattle.std.specs.Option.{option_map};
ghost use Rattle.mc_model.specs.Sections as sections;
ghost use Rattle.mc_model.specs.History as rule;
ghost use Rattle.mc_model.specs.Next as next;
ghost use Rattle.mc_model.specs.Notes as recorded;

use crate::record::Record;
use crate::{HistoryBuilder, HistoryKind, Note, NotedBuilder, Sent};
use mc_protocol::Actor;
use std::alloc::Global;
use std::marker::Model;

/// What three sections sent and received, and where it was noted the order of all that. Contracts see the sections and the
/// notes, which keep the rules of a history.
#[derive(Debug)]
pub struct History {
    p: Vec<Sent>,
    a: Vec<Sent>,
    b: Vec<Sent>,
    noted: Option<Record>,
}

// One call drops its parts. A derived `Drop` would write them out at each end of each function that holds one.
impl Drop for History {
    fn drop(self) {
        let History {
            p: _,
            a: _,
            b: _,
            noted: _,
        } = self;
    }
}

impl Model for History {
    ghost use Rattle.std.specs.Option.{option_map};
    ghost use Rattle.mc_model.specs.Notes as recorded;

    ghost Value = { recorded.History };

    ghost view = { λ h. record { sections = record { p = h.p.items; a = h.a.items; b = h.b.items }; notes = h.noted } };

    ghost invariant = { λ h. recorded.IsHistory (record {
      sections = record { p = h.p.items; a = h.a.items; b = h.b.items };
      notes = h.noted;
    }) };
}

impl History {
    /// The history of three sections, if they keep its rules. Otherwise the fault is that of the first faulty request,
    /// in the order P, A, B: the rule that it breaks, its section, and its place there, counted from 0. Want of memory
    /// comes with P and 0.
    pub fn new(
        alloc: Global,
        p: Vec<Sent>,
        a: Vec<Sent>,
        b: Vec<Sent>,
    ) -> Result<History, (HistoryKind, Actor, usize)>
        ensures ok { IfOk result (λ h. h ≡ recorded.without_notes (record { p = p.items; a = a.items; b = b.items })) }
        ensures history { IfOk result recorded.IsHistory }
        ensures fault { IfErr result (λ fault. fault.0 ≢ HistoryKind.OutOfMemory
            → rule.IsFirstFault (record { p = p.items; a = a.items; b = b.items }) fault.0 fault.1 fault.2) }
        ensures none { IfErr result (λ fault. fault.0 ≢ HistoryKind.OutOfMemory
            → rule.is_history (record { p = p.items; a = a.items; b = b.items }) ≡ false) }
        ensures memory { IfErr result (λ fault. fault.0 ≡ HistoryKind.OutOfMemory
            → (fault.1 ≡ Actor.P) × (fault.2 ≡ 0)) }
    {
        let mut builder = HistoryBuilder::new(alloc);
        push_all(&mut builder, Actor::P, p)?;
        push_all(&mut builder, Actor::A, a)?;
        push_all(&mut builder, Actor::B, b)?;
        Ok(builder.finish())
    }

    /// The history of notes, if they make one: of what they note, in this order. Otherwise the fault is that of the first
    /// faulty note: the rule that it breaks, its section, and its place in the list, counted from 0. Want of memory comes
    /// with P and 0.
    pub fn noted(
        alloc: Global,
        notes: Vec<(Actor, Note)>,
    ) -> Result<History, (HistoryKind, Actor, usize)>
        ensures ok { IfOk result (λ h. h ≡ recorded.with_notes notes.items) }
        ensures history { IfOk result recorded.IsHistory }
        ensures fault { IfErr result (λ fault. fault.0 ≢ HistoryKind.OutOfMemory
            → recorded.IsFirstFaultOfNotes notes.items fault.0 fault.1 fault.2) }
        ensures none { IfErr result (λ fault. fault.0 ≢ HistoryKind.OutOfMemory
            → recorded.is_record notes.items ≡ false) }
        ensures memory { IfErr result (λ fault. fault.0 ≡ HistoryKind.OutOfMemory
            → (fault.1 ≡ Actor.P) × (fault.2 ≡ 0)) }
    {
        let mut builder = NotedBuilder::new(alloc);
        let mut place = 0;
        'noting: for (actor, note) in notes {
            if let Err(kind) = builder.push(actor, note) {
                return Err(fault_at(kind, actor, place));
            }
            place += 1;
        }
        match builder.finish() {
            Ok(history) => Ok(history),
            Err(_) => Err((HistoryKind::OutOfMemory, Actor::P, 0)),
        }
    }

    /// The history of sections that are known to keep its rules, with what was noted of them where that is known.
    pub(crate) fn from_sections(
        p: Vec<Sent>,
        a: Vec<Sent>,
        b: Vec<Sent>,
        noted: Option<Record>,
    ) -> History
        requires { recorded.IsHistory (record { sections = record { p = p.items; a = a.items; b = b.items }; notes = noted }) }
        ensures { result ≡ record { sections = record { p = p.items; a = a.items; b = b.items }; notes = noted } }
    {
        History { p, a, b, noted }
    }

    /// A section's requests with their replies, in order.
    pub fn sent(&self, actor: Actor) -> &[Sent]
        ensures sent { result.now ≡ sections.section_of self.now.sections actor }
        ensures history { recorded.IsHistory self.now }
    {
        match actor {
            Actor::P => self.p.as_slice(),
            Actor::A => self.a.as_slice(),
            Actor::B => self.b.as_slice(),
        }
    }

    /// What was noted, in order; `None` where the order of the sections' requests and replies isn't known.
    pub fn notes(&self) -> Option<&[(Actor, Note)]>
        ensures notes { option_map (λ r. r.now) result ≡ self.now.notes }
        ensures history { recorded.IsHistory self.now }
    {
        match &self.noted {
            Some(record) => Some(record.notes()),
            None => None,
        }
    }

    /// How many requests of the other branch were answered before the branch's request at this place began. It is 0 for
    /// P, where no notes are kept, and where there is no such request.
    pub fn answered_before(&self, actor: Actor, place: usize) -> usize
        ensures { result ≡ recorded.answered_before self.now.notes actor place }
    {
        match &self.noted {
            Some(record) => record.answered_before(actor, place),
            None => 0,
        }
    }
}

/// Adds a section's requests. The fault is that of the first faulty one, with its place.
fn push_all(
    builder: &mut HistoryBuilder,
    actor: Actor,
    section: Vec<Sent>,
) -> Result<(), (HistoryKind, Actor, usize)>
    requires { sections.section_of builder.old actor ≡ [] }
    ensures ok { OnOk result (builder.new ≡ next.with_section builder.old actor section.items) }
    ensures fault { IfErr result (λ fault. fault.0 ≢ HistoryKind.OutOfMemory
        → (fault.1 ≡ actor) × next.FailsAt builder.old actor section.items fault.0 fault.2) }
    ensures memory { IfErr result (λ fault. fault.0 ≡ HistoryKind.OutOfMemory
        → (fault.1 ≡ Actor.P) × (fault.2 ≡ 0)) }
{
    let mut place = 0;
    'requests: for sent in section {
        if let Err(kind) = builder.push(actor, sent) {
            return Err(fault_at(kind, actor, place));
        }
        place += 1;
    }
    Ok(())
}

/// A fault with its place. Want of memory has none, so it gets P and 0.
fn fault_at(kind: HistoryKind, actor: Actor, place: usize) -> (HistoryKind, Actor, usize)
    ensures kind { result.0 ≡ kind }
    ensures place { kind ≢ HistoryKind.OutOfMemory → (result.1 ≡ actor) × (result.2 ≡ place) }
    ensures memory { kind ≡ HistoryKind.OutOfMemory → (result.1 ≡ Actor.P) × (result.2 ≡ 0) }
{
    match kind {
        HistoryKind::OutOfMemory => (kind, Actor::P, 0),
        _ => (kind, actor, place),
    }
}
