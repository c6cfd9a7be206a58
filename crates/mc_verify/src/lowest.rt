//! The first fault of a kind, which is the least fault of several kinds where those before it have none.
//!
//! A search for the faults of several kinds tries them in their order, `check_kind(..)?` for each: what the one ensures is
//! what the next requires. `lowest` may be a function, or a closure that looks the section up in a table.
ghost use Rattle.std.specs.Prelude.{◌≡◌, ◌+◌, IfErr, IfOk};
ghost use Rattle.mc_protocol.specs.declared.actor.Actor as actor;
ghost use Rattle.mc_verify.specs.Lowest as lowest_faults;
ghost use Rattle.mc_sound.specs.LeastFaults as least_faults;

use mc_code::Code;
use mc_protocol::Actor;
use mc_sound::{CodeFault, RefusalKind};

/// Checks that no section has a fault of the kind, where `lowest` answers the lowest place of a section that has one. The
/// error is the fault at that place of the first such section.
#[tactic(auto, using(crate::proofs::Leasts::least_at, crate::proofs::Leasts::none_more))]
pub(crate) fn check_kind<F: Fn(&Code, Actor) -> Option<u8>>(
    code: &Code,
    kind: RefusalKind,
    lowest: F,
) -> Result<(), CodeFault>
    requires callable { (actor : actor.Actor) → F.pre lowest code actor }
    requires finds { lowest_faults.FindsLowest code.now kind (F.post lowest code) }
    requires free { lowest_faults.IsFreeOf code.now (lowest_faults.first_number kind) (least_faults.kind_number kind) }
    ensures least { IfErr result (least_faults.IsLeastFrom code.now (lowest_faults.first_number kind)) }
    ensures kind { IfErr result (λ fault. fault.kind ≡ kind) }
    ensures none { IfOk result (λ _.
        lowest_faults.IsFreeOf code.now (lowest_faults.first_number kind) (least_faults.kind_number kind + 1)) }
{
    'sections: for actor in [Actor::P, Actor::A, Actor::B] {
        if let Some(place) = lowest(code, actor) {
            return Err(CodeFault { kind, actor, place });
        }
    }
    Ok(())
}
