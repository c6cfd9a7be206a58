//! Gates: where the threads of a run can be held.

use mc_protocol::Actor;

/// What each call of a run passes on its way. A test holds threads in it so that their calls meet as it wants.
///
/// The book isn't locked while a thread is in a gate. The calls of a section are counted from 0.
pub trait Gate: Sync {
    /// The call was noted to begin, and no byte of it is written yet.
    fn before(&self, actor: Actor, call: u32);

    /// The reply to the call was noted, or the fault that ended its section.
    fn after(&self, actor: Actor, call: u32);
}

/// The gate that holds nobody.
#[derive(Clone, Copy, Debug, Default)]
pub struct FreeGate;

impl Gate for FreeGate {
    fn before(&self, _actor: Actor, _call: u32) {}

    fn after(&self, _actor: Actor, _call: u32) {}
}
