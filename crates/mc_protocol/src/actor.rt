//! The sections of a run.

ghost use Rattle.std.specs.Prelude.{◌≡◌};
ghost use Rattle.mc_protocol.specs.Words as spec;

/// A section of a run: the prefix, or one of the two branches that begin when the prefix is done. Each section is
/// one connection with at most one request outstanding.
#[derive(Clone, Copy, Debug, PartialEq, Eq)]
pub enum Actor {
    /// The prefix.
    P,
    /// The first branch.
    A,
    /// The second branch.
    B,
}

impl Actor {
    /// Its word in every text.
    pub fn word(self) -> &'static str
        ensures { result.now ≡ spec.actor_word self }
    {
        match self {
            Actor::P => "P",
            Actor::A => "A",
            Actor::B => "B",
        }
    }

    /// The section with this word.
    pub fn from_word(word: &[u8]) -> Option<Self>
        ensures { spec.IsOfWord spec.actor_word word.now result }
    {
        match word {
            b"P" => Some(Actor::P),
            b"A" => Some(Actor::A),
            b"B" => Some(Actor::B),
            _ => None,
        }
    }
}
