//! Why code is refused.
ghost use Rattle.std.specs.Prelude.{◌≡◌};
ghost use Rattle.mc_verify.specs.Refusals as refusals;

use mc_protocol::{Actor, Class};
use mc_sound::{CodeFault, RefusalKind};
use std::alloc::Global;
use std::marker::Model;

/// The fault for which code is refused, where it stands, and a counterexample. Contracts see the vector as a list.
#[derive(Debug, Drop)]
pub struct Refusal {
    /// What is wrong.
    pub kind: RefusalKind,
    /// The section in which it is wrong; P where memory ran out.
    pub actor: Actor,
    /// The instruction at which it is wrong, counted from the section's first, which is 0; 0 where memory ran out.
    pub place: u8,
    /// The requests before the fault, in order: of each the section that makes it, and the class of its reply. Along them P
    /// comes to a fault of P. To a fault of a branch P comes to its end, and then the branch comes to the fault; where a flag
    /// is wrong the requests of the other branch may stand between. Empty for the kinds that are seen at an instruction by
    /// itself, from `BadTarget` to `NotCleared`, and where memory ran out.
    pub shown: Vec<(Actor, Class)>,
}

impl Model for Refusal {
    ghost use Rattle.mc_verify.specs.Refusals as spec;

    ghost Value = { spec.Refusal };

    ghost view = { λ r. record { kind = r.kind; actor = r.actor; place = r.place; shown = r.shown.items } };
}

impl Refusal {
    /// The refusal of code for this fault, which these replies show.
    pub(crate) fn new(fault: CodeFault, shown: Vec<(Actor, Class)>) -> Self
        ensures fault { refusals.fault_of result ≡ fault }
        ensures shown { result.shown ≡ shown.items }
    {
        Refusal {
            kind: fault.kind,
            actor: fault.actor,
            place: fault.place,
            shown,
        }
    }

    /// The refusal that memory ran out. It takes none.
    pub(crate) fn out_of_memory(alloc: Global) -> Self
        ensures { result ≡ refusals.out_of_memory }
    {
        Refusal {
            kind: RefusalKind::OutOfMemory,
            actor: Actor::P,
            place: 0,
            shown: Vec::new(alloc),
        }
    }
}
