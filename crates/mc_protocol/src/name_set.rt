//! A set of names, which finds one that stood before.

ghost use Rattle.std.specs.Prelude.{◌≡◌, [], ◌∷◌, ◌++◌, OnOk, OnErr};
ghost use Rattle.std.specs.{List.list_any, Str.bytes_eq};

use crate::OutOfMemory;
use std::alloc::Global;
use std::collections::BTreeSet;
use std::marker::Model;

/// Names, one after another. Contracts see the list of them. A text may have very many, so a look-up doesn't go through
/// the list.
#[derive(Drop)]
pub struct NameSet<'a> {
    names: Vec<&'a [u8]>,
    // the same names
    set: BTreeSet<&'a [u8]>,
}

impl<'a> Model for NameSet<'a> {
    ghost use Rattle.std.specs.Prelude.{ℕ, List, map, ◌≡◌};
    ghost use Rattle.std.specs.List.{list_any};
    ghost use Rattle.std.specs.Str.{bytes_eq};
    ghost use Rattle.std.specs.Ordering.{nat_cmp};
    ghost use Rattle.std.specs.Cmp.Lexicographic.{slice_cmp};
    ghost use Rattle.std.specs.BTreeSet.{contains_by};

    ghost Value = { List (List ℕ) };

    ghost view = { λ l. map (λ w. w.now) l.names.items };

    ghost invariant = { λ l. (q : List ℕ)
        → contains_by (λ k. slice_cmp nat_cmp q k.now) l.set ≡ list_any (bytes_eq q) (map (λ w. w.now) l.names.items) };
}

impl<'a> NameSet<'a> {
    /// No names.
    pub fn new(alloc: Global) -> Self
        ensures { result ≡ [] }
    {
        NameSet {
            names: Vec::new(alloc),
            set: BTreeSet::new(alloc),
        }
    }

    /// Whether the name is among these.
    pub fn has(&self, name: &[u8]) -> bool
        ensures { result ≡ list_any (bytes_eq name.now) self.now }
    {
        self.set.contains(name)
    }

    /// Adds a name. Want of memory leaves the set as it was.
    pub fn push(&mut self, name: &'a [u8]) -> Result<(), OutOfMemory>
        ensures ok { OnOk result (self.new ≡ self.old ++ name.now ∷ []) }
        ensures err { OnErr result (self.new ≡ self.old) }
    {
        self.names.reserve(1)?;
        self.set.insert(name)?;
        self.names.push_reserved(name);
        Ok(())
    }
}
