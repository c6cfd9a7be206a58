//! The names that keys may be put under.
ghost use Rattle.std.specs.Prelude.{◌≡◌, false, true, IfNone, IfSome};
ghost use Rattle.std.specs.Option.{option_copied};
ghost use Rattle.mc_settings.specs.Namespaces.{is_namespace};

use mc_protocol::is_name;
use std::marker::Model;

/// The most bytes of a name that keys may be put under: a dash and a byte of a key have room after it.
pub const NAMESPACE_BYTES_LIMIT: usize = 38;

/// A name that keys may be put under: 1 to 38 bytes, each a lower case letter, a digit or a dash. Contracts see its bytes.
#[derive(Debug, Drop)]
pub struct Namespace<'a> {
    name: &'a [u8],
}

impl<'a> Model for Namespace<'a> {
    ghost use Rattle.std.specs.Prelude.{◌≡◌, ℕ, List, true};
    ghost use Rattle.mc_settings.specs.Namespaces.{is_namespace};

    ghost Value = { List ℕ };

    ghost view = { λ n. n.name.now };

    ghost invariant = { λ n. is_namespace n.name.now ≡ true };
}

impl<'a> Namespace<'a> {
    /// The bytes as such a name, if they are one.
    pub fn new(name: &'a [u8]) -> Option<Self>
        ensures found { IfSome result (λ found. (found ≡ name.entry.now) × (is_namespace name.entry.now ≡ true)) }
        ensures none { IfNone result (is_namespace name.entry.now ≡ false) }
    {
        if is_name(NAMESPACE_BYTES_LIMIT, name) {
            Some(Namespace { name })
        } else {
            None
        }
    }

    /// Its bytes.
    pub fn as_slice(&self) -> &'a [u8]
        ensures name { result.now ≡ self.now }
        ensures kept { is_namespace self.now ≡ true }
    {
        self.name
    }
}

/// Whether both are one name, or both are none.
pub fn is_same_name(one: Option<&Namespace<'_>>, other: Option<&Namespace<'_>>) -> bool
    ensures { result ≡ true → option_copied one.entry ≡ option_copied other.entry }
{
    match one {
        Some(one) => match other {
            Some(other) => one.as_slice() == other.as_slice(),
            None => false,
        },
        None => other.is_none(),
    }
}
