//! Kinds of numbers.
/// What kind of number a variable has. A number may be sent only where a number of its kind is asked for.
#[derive(Clone, Copy, Debug, PartialEq, Eq)]
pub enum Kind {
    /// No number.
    Unbound,
    /// The cas unique of the key with this index, as a `gets` showed it.
    Cas(u8),
    /// A value, as an `incr` or a `decr` showed it.
    Num,
}
