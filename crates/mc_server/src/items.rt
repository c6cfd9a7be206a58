//! What a store holds: a finite map from keys to items, for millions of keys.
ghost use Rattle.std.specs.Prelude.{◌≡◌, false, OnOk, OnErr};
ghost use Rattle.std.specs.Option.{option_copied};
ghost use Rattle.std.specs.FinMap as finite_map;
ghost use Rattle.mc_model.specs.Act as act;
ghost use Rattle.mc_model.specs.Decide.{change_at, made_by};
ghost use Rattle.mc_server.specs.Made.{with_made};

use crate::version::renew;
use mc_model::{Change, Item, make_version};
use mc_protocol::{Bytes, OutOfMemory, Request};
use std::alloc::{AllocError, Global};
use std::collections::HashMap;
use std::marker::Model;

/// Items by their keys. A look-up takes the same time however many there are, unless the keys were chosen to have one hash: its seed
/// is fixed.
#[derive(Drop)]
pub(crate) struct Items {
    map: HashMap<Bytes, Item>,
}

impl Model for Items {
    ghost use Rattle.mc_model.specs.Contents.{Contents, coded_contents};

    ghost Value = { Contents };

    ghost coded = { coded_contents };

    ghost use Rattle.std.specs.FinMap as finite_map;

    ghost view = { λ i. finite_map.from_entries i.map.entries };
}

impl Items {
    /// No items. Nothing is allocated yet.
    pub fn new(alloc: Global) -> Self
        ensures { result ≡ finite_map.empty }
    {
        Items {
            map: HashMap::new(alloc),
        }
    }

    /// What is held at the key.
    pub fn find(&self, key: &Bytes) -> Option<&Item>
        ensures { option_copied result ≡ finite_map.get self.now key.now }
    {
        self.map.get(key)
    }

    /// Does what was decided of the request. A version that is made has this `number`. Want of memory leaves the items as they were.
    pub fn apply(
        &mut self,
        alloc: Global,
        request: &Request,
        change: Change,
        number: u64,
    ) -> Result<(), OutOfMemory>
        ensures ok { OnOk result (self.new ≡ act.with_change self.old request.now.key
            (change_at request.now false number (finite_map.get self.old request.now.key) change)) }
        ensures err { OnErr result (self.new ≡ self.old) }
    {
        if change == Change::Removes {
            self.remove(&request.key);
            return Ok(());
        }
        self.make(alloc, request, change, number)
    }

    /// Makes the version that the change makes, if it makes one.
    fn make(
        &mut self,
        alloc: Global,
        request: &Request,
        change: Change,
        number: u64,
    ) -> Result<(), OutOfMemory>
        ensures ok { OnOk result (self.new ≡ with_made self.old request.now.key
            (made_by (change_at request.now false number (finite_map.get self.old request.now.key) change))) }
        ensures err { OnErr result (self.new ≡ self.old) }
    {
        match self.map.get_mut(&request.key) {
            Some(item) => renew(alloc, item, request, change, number),
            None => match make_version(alloc, request, change, false, number, None)? {
                Some(item) => self.add(request.key.copy(alloc)?, item),
                None => Ok(()),
            },
        }
    }

    /// Puts an item at the key.
    fn add(&mut self, key: Bytes, item: Item) -> Result<(), OutOfMemory>
        ensures ok { OnOk result (self.new ≡ finite_map.insert self.old key item) }
        ensures err { OnErr result (self.new ≡ self.old) }
    {
        match self.map.insert(key, item) {
            Ok(_) => Ok(()),
            Err(_) => Err(AllocError),
        }
    }

    /// Removes what is held at the key.
    fn remove(&mut self, key: &Bytes)
        ensures { self.new ≡ finite_map.remove self.old key.now }
    {
        self.map.remove(key);
    }
}
