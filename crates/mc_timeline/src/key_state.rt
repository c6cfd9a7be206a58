//! What the rules need to know of a key.
ghost use Rattle.std.specs.Prelude.{◌≡◌, ◌||◌, ℕ, false, Some, OnOk, OnErr};
ghost use Rattle.std.specs.{Ordering.nat_cmp, BTreeSet.contains};
ghost use Rattle.mc_timeline.specs.RuleState.{is_shown, opener_after};

use mc_protocol::OutOfMemory;
use std::alloc::Global;
use std::collections::BTreeSet;

/// What the rules need to know of a key that has a request.
#[derive(Drop)]
pub(crate) struct KeyState {
    /// The client of the key's first request, while it waits for the reply.
    pub opener: Option<u8>,
    /// The numbers that answered `gets` of the key showed.
    pub shown: BTreeSet<u64>,
}

impl KeyState {
    /// After the first request of the key, which is this client's, began.
    pub fn opened(alloc: Global, client: u8) -> Self
        ensures opener { result.opener ≡ Some client }
        ensures shown { (number : ℕ) → contains nat_cmp result.shown number ≡ false }
    {
        KeyState {
            opener: Some(client),
            shown: BTreeSet::new(alloc),
        }
    }

    /// A request of this client was answered, and the reply showed this number, if any. Want of memory changes nothing.
    pub fn answer(&mut self, client: u8, shown: Option<u64>) -> Result<(), OutOfMemory>
        ensures opener { OnOk result (self.new.opener ≡ opener_after self.old.opener client) }
        ensures shown { OnOk result ((number : ℕ) → contains nat_cmp self.new.shown number
            ≡ (is_shown shown number || contains nat_cmp self.old.shown number)) }
        ensures err { OnErr result (self.new ≡ self.old) }
    {
        if let Some(number) = shown {
            self.shown.insert(number)?;
        }
        if let Some(opener) = self.opener {
            if opener == client {
                self.opener = None;
            }
        }
        Ok(())
    }
}
