//! What a body says as a number to a server that counts.
ghost use Rattle.std.specs.Prelude.{◌≡◌};
ghost use Rattle.mc_model.specs.Numeral as spec;

use crate::Reading;

/// What a body says as a number.
#[derive(Clone, Copy, Debug, PartialEq, Eq)]
pub enum Numeral {
    /// It says no number.
    NoNumber,
    /// It says this number.
    Is(u64),
    /// It says this number to one server, and none to another.
    MayBe(u64),
}

impl Numeral {
    /// The number that is read. `read` chooses where one server reads a number and another doesn't.
    pub fn read_as(self, read: bool) -> Option<u64>
        ensures { result ≡ spec.read_as read self }
    {
        match self {
            Numeral::NoNumber => None,
            Numeral::Is(number) => Some(number),
            Numeral::MayBe(number) => read.then_some(number),
        }
    }
}

/// What `incr` and `decr` make of a body: the number that its leading digits say, if 64 bits hold it and after them the
/// body ends or has a space.
#[tactic(auto, using(crate::proofs::ReadOn::read_whole))]
pub fn numeral_of(body: &[u8]) -> Numeral
    ensures { result ≡ spec.numeral_of body.now }
{
    Reading::start().with_bytes(body).numeral()
}
