//! Which verbs the clients of a round send.

/// The verbs that clients send in rounds of many clients.
#[derive(Clone, Copy, Debug, PartialEq, Eq)]
pub enum Mix {
    /// All twelve.
    All,
    /// set, incr, decr, gets and cas.
    Counters,
    /// gets, cas and set.
    Cas,
    /// append, prepend, set and get.
    Bodies,
    /// add, delete, replace, get and touch.
    Presence,
}
