//! A cache acts on a request: it decides what the request does, and does it.
ghost use Rattle.std.specs.Prelude.{◌≡◌, ℕ, IfOk, OnErr};
ghost use Rattle.std.specs.Option.{option_copied};
ghost use Rattle.std.specs.FinMap as finite_map;
ghost use Rattle.mc_model.specs.{Act.act, Act.effect_of, Act.with_change, Decide.answer_at, Decide.change_at, Decide.effect_at};

use crate::{Answer, Cache, Change, Decision, Item, make_version};
use mc_protocol::{OutOfMemory, Reply, Request};
use std::alloc::Global;

/// What `protocol.txt` leaves to the server in one act.
#[derive(Clone, Copy, Debug, PartialEq, Eq)]
pub struct Choice {
    /// Whether a decremented number that is shorter than the old body is followed by spaces to the old length.
    pub pad: bool,
    /// Whether a body that one server reads as a number and another refuses is read.
    pub read: bool,
}

impl Cache {
    /// Acts on a request as a server does: changes the cache and answers. If a version is made, it has this `number`.
    /// Want of memory leaves the cache as it was.
    pub fn act(
        &mut self,
        request: &Request,
        choice: Choice,
        number: u64,
    ) -> Result<Reply, OutOfMemory>
        ensures reply { IfOk result (λ reply. reply ≡ (act self.old request.now choice number).reply) }
        ensures contents { IfOk result (λ _. self.new ≡ (act self.old request.now choice number).contents) }
        ensures err { OnErr result (self.new ≡ self.old) }
    {
        let decision = self.decide(request, choice);
        self.apply(request, decision, choice.pad, number)
    }

    /// What the request does here.
    pub fn decide(&self, request: &Request, choice: Choice) -> Decision
        ensures { (number : ℕ) → effect_at request.now choice.pad number (finite_map.get self.now request.now.key) result
            ≡ effect_of self.now request.now choice number }
    {
        Decision::of(request, choice, self.find(request.key.as_slice()))
    }

    /// Does what was decided of the request, and answers. If a version is made, it has this `number`; `pad` says whether a count
    /// that is shorter than the old body is padded. Want of memory leaves the cache as it was.
    pub fn apply(
        &mut self,
        request: &Request,
        decision: Decision,
        pad: bool,
        number: u64,
    ) -> Result<Reply, OutOfMemory>
        ensures reply { IfOk result (λ reply. reply ≡ answer_at (finite_map.get self.old request.now.key) decision.answer) }
        ensures contents { IfOk result (λ _. self.new ≡ with_change self.old request.now.key
            (change_at request.now pad number (finite_map.get self.old request.now.key) decision.change)) }
        ensures err { OnErr result (self.new ≡ self.old) }
    {
        let alloc = self.allocator();
        let key = request.key.as_slice();
        let found = self.find(key);
        let reply = reply_with(alloc, decision.answer, found)?;
        let made = make_version(alloc, request, decision.change, pad, number, found)?;
        if let Some(item) = made {
            self.put(request.key.copy(alloc)?, item)?;
        } else if decision.change == Change::Removes {
            self.remove(key);
        }
        Ok(reply)
    }
}

/// The reply that was decided where this item is there, or nothing is.
///
/// # Errors
///
/// That memory ran out.
pub fn reply_with(alloc: Global, answer: Answer, found: Option<&Item>) -> Result<Reply, OutOfMemory>
    ensures { IfOk result (λ reply. reply ≡ answer_at (option_copied found.entry) answer) }
{
    match (answer, found) {
        (Answer::Reply(reply), _) => Ok(reply),
        (Answer::Shows, Some(item)) => hit(alloc, item, None),
        (Answer::ShowsNumber, Some(item)) => hit(alloc, item, Some(item.number)),
        (_, None) => Ok(Reply::Miss),
    }
}

/// The reply that shows an item, with its cas unique if that is given.
fn hit(alloc: Global, item: &Item, cas: Option<u64>) -> Result<Reply, OutOfMemory>
    ensures { IfOk result (λ reply. reply ≡ Reply.Hit item.now.flags item.now.body cas) }
{
    Ok(Reply::Hit {
        flags: item.flags,
        body: item.body.copy(alloc)?,
        cas,
    })
}
