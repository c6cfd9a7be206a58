//! The names that a script declares.

ghost use Rattle.std.specs.Prelude.{◌≡◌, ◌<◌, ◌≤◌, length};
ghost use Rattle.std.specs.Option.{MatchOption};
ghost use Rattle.mc_script.specs.declared.limits.TheConstants.{FLAGS_LIMIT};
ghost use Rattle.mc_script.specs.Script as spec;
ghost use Rattle.mc_protocol.specs.Names as names;

use crate::words::index_of;
use mc_protocol::Bytes;
use std::marker::Model;

/// The names that a script declares. Contracts see the three lists, which may be declared.
#[derive(Debug, Drop)]
pub struct Names {
    keys: Vec<Bytes>,
    flags: Vec<Bytes>,
    vars: Vec<Bytes>,
}

impl Model for Names {
    ghost use Rattle.mc_script.specs.Script as spec;

    ghost Value = { spec.Names };

    ghost view = { λ n. record { keys = n.keys.items; flags = n.flags.items; vars = n.vars.items } };

    ghost invariant = { λ n. spec.AreDeclared (record { keys = n.keys.items; flags = n.flags.items; vars = n.vars.items }) };
}

impl Names {
    /// These names, which may be declared.
    pub fn new(keys: Vec<Bytes>, flags: Vec<Bytes>, vars: Vec<Bytes>) -> Self
        requires { spec.AreDeclared (record { keys = keys.items; flags = flags.items; vars = vars.items }) }
        ensures { result ≡ record { keys = keys.items; flags = flags.items; vars = vars.items } }
    {
        Names { keys, flags, vars }
    }

    /// The keys, in the order of their declaration.
    pub fn keys(&self) -> &[Bytes]
        ensures names { result.now ≡ self.now.keys }
        ensures declared { spec.AreDeclared self.now }
    {
        self.keys.as_slice()
    }

    /// The names of the flags, in the order of their declaration.
    pub fn flags(&self) -> &[Bytes]
        ensures names { result.now ≡ self.now.flags }
        ensures few { length result.now ≤ FLAGS_LIMIT }
    {
        self.flags.as_slice()
    }

    /// The names of the variables, in the order of their declaration.
    pub fn vars(&self) -> &[Bytes]
        ensures { result.now ≡ self.now.vars }
    {
        self.vars.as_slice()
    }

    /// The index of the key.
    pub fn key(&self, name: &[u8]) -> Option<u8>
        ensures { result ≡ names.index_of self.now.keys name.now }
    {
        index_of(self.keys.as_slice(), name)
    }

    /// The index of the flag with this name, for which a mask has a bit.
    pub fn flag(&self, name: &[u8]) -> Option<u8>
        ensures flag { result ≡ names.index_of self.now.flags name.now }
        ensures below { MatchOption result (self.now ≡ self.now) (λ flag. flag < FLAGS_LIMIT) }
    {
        index_of(self.flags.as_slice(), name)
    }

    /// The index of the variable with this name.
    pub fn variable(&self, name: &[u8]) -> Option<u8>
        ensures { result ≡ names.index_of self.now.vars name.now }
    {
        index_of(self.vars.as_slice(), name)
    }
}
