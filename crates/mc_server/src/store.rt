//! A store: items, and the number of the next version.
ghost use Rattle.std.specs.Prelude.{◌≡◌, ◌<◌, Bool, false, IsTrue, ℕ, OnOk, OnErr};
ghost use Rattle.std.specs.Option.{option_copied};
ghost use Rattle.std.specs.FinMap as finite_map;
ghost use Rattle.mc_protocol.specs.{Decimals.MAX_64, declared.request.Request.Request};
ghost use Rattle.mc_model.specs.Decide.{change_at};
ghost use Rattle.mc_server.specs.Stores.{Calls, makes_version, with_change};

use crate::items::Items;
use mc_model::{Change, Choice, Decision, Item, reply_with};
use mc_protocol::{OutOfMemory, Reply, Request};
use std::alloc::{AllocError, Global};
use std::marker::Model;
use thiserror::Error;

/// Why a call was refused. Nothing has changed then.
#[derive(Clone, Copy, Debug, PartialEq, Eq, Error)]
pub enum StoreFault {
    /// Memory ran out.
    #[error("out of memory")]
    OutOfMemory,
    /// The call would make a version, and no number is left for it.
    #[error("the numbers are used up")]
    NumbersUsedUp,
}

impl From<AllocError> for StoreFault {
    ghost use Rattle.mc_server.specs.declared.store.StoreFault.TheVariants.{OutOfMemory};

    ghost from_gives = { λ _ fault. fault ≡ OutOfMemory };

    fn from(_: AllocError) -> StoreFault {
        StoreFault::OutOfMemory
    }
}

/// What this server chooses where a server may choose: it pads nothing, and reads what it may read as a number.
const PLAIN: Choice = Choice {
    pad: false,
    read: true,
};

/// Items, and a counter: the number of the next version. Every item's number is below it, so no number is given twice. Contracts see
/// the finite map of the items, and the counter.
#[derive(Drop)]
pub struct Store {
    alloc: Global,
    items: Items,
    next: u64,
}

impl Model for Store {
    ghost use Rattle.mc_server.specs.Stores.{Stored, AreBelow, coded_stored};

    ghost Value = { Stored };

    ghost coded = { coded_stored };

    ghost view = { λ s. record { contents = s.items; next = s.next } };

    ghost invariant = { λ s. AreBelow s.next s.items };
}

impl Store {
    /// A store that holds nothing and allocates where it grows. Its first version has the number 1. Nothing is allocated yet.
    pub fn new(alloc: Global) -> Self
        ensures { result ≡ record { contents = finite_map.empty; next = 1 } }
    {
        Store::starting(alloc, 1)
    }

    /// The same, but its first version has the number `next`. Where that is the greatest `u64`, it never makes one.
    pub fn starting(alloc: Global, next: u64) -> Self
        ensures { result ≡ record { contents = finite_map.empty; next = next } }
    {
        Store {
            alloc,
            items: Items::new(alloc),
            next,
        }
    }

    /// Acts on a request as a cache does, without padding, and reading where that is free. A version that it makes has the counter's
    /// number, and the counter then grows by one.
    ///
    /// # Errors
    ///
    /// `NumbersUsedUp` where it would make a version and the counter is the greatest `u64`; `OutOfMemory` where memory ran out. The
    /// store is then as it was.
    pub fn call(&mut self, request: &Request) -> Result<Reply, StoreFault>
        ensures { Calls self.old request.now self.new result }
    {
        let found = self.items.find(&request.key);
        let decision = Decision::of(request, PLAIN, found);
        let counts = makes_version(decision.change, found);
        if counts && self.next == u64::MAX {
            return Err(StoreFault::NumbersUsedUp);
        }
        let reply = reply_with(self.alloc, decision.answer, found)?;
        self.apply(request, decision.change, counts)?;
        Ok(reply)
    }

    /// Does what was decided of the request. `counts` says whether that makes a version, for which there is a number then.
    fn apply(&mut self, request: &Request, change: Change, counts: bool) -> Result<(), OutOfMemory>
        requires counts { makes_version (change_at request.now false self.old.next
            (finite_map.get self.old.contents request.now.key) change) ≡ counts }
        requires left { IsTrue counts → self.old.next < MAX_64 }
        ensures ok { OnOk result (self.new ≡ with_change self.old request.now.key
            (change_at request.now false self.old.next (finite_map.get self.old.contents request.now.key) change)) }
        ensures err { OnErr result (self.new ≡ self.old) }
    {
        let Store { alloc, items, next } = self;
        items.apply(*alloc, request, change, *next)?;
        if counts {
            *next += 1;
        }
        Ok(())
    }
}

/// Whether the change makes a version where this item is there, or nothing is.
fn makes_version(change: Change, found: Option<&Item>) -> bool
    ensures { (request : Request) (pad : Bool) (number : ℕ)
        → makes_version (change_at request pad number (option_copied found.entry) change) ≡ result }
{
    match change {
        Change::Stores => true,
        Change::Appends | Change::Prepends | Change::Counts(_) => found.is_some(),
        Change::Keeps | Change::Removes => false,
    }
}
