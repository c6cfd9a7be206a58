//! Whether a run shows the fault of a refusal.
ghost use Rattle.std.specs.Prelude.{◌≡◌, ◌↔◌, true};
ghost use Rattle.mc_sound.specs.LeastFaults.{HasNoneFrom};
ghost use Rattle.mc_verify.specs.Shown.{IsShownBy};

use crate::cost_replay::shows_excess;
use crate::flag_replay::shows_lack;
use crate::kind_replay::shows_fail;
use mc_code::Code;
use mc_sound::{Measure, RefusalKind};
use mc_verify::Refusal;

/// Whether the replies that the refusal shows, each with its section, are those of a run that shows its fault: of P alone
/// where the refusal names P; else of P to its end and then, for a fault of flags, of both branches in some order, and for
/// the others of the named branch. After them the section comes to its place without a further reply, and the fault is met
/// there. No run shows a fault of structure, or that memory ran out.
///
/// The code must have no fault of structure, as that of any other refusal has none.
#[tactic(auto, using(mc_verify::proofs::Leasts::free_structured))]
pub fn shows(code: &Code, refusal: &Refusal) -> bool
    requires { HasNoneFrom code.now 1 5 }
    ensures { (result ≡ true) ↔ IsShownBy code.now refusal.now.kind refusal.now.actor refusal.now.place refusal.now.shown }
{
    let place = refusal.place;
    let shown = refusal.shown.as_slice();
    match refusal.kind {
        RefusalKind::Unbound => shows_fail(code, RefusalKind::Unbound, refusal.actor, place, shown),
        RefusalKind::WrongKind => shows_fail(
            code,
            RefusalKind::WrongKind,
            refusal.actor,
            place,
            shown,
        ),
        RefusalKind::NothingToBind => {
            shows_fail(
                code,
                RefusalKind::NothingToBind,
                refusal.actor,
                place,
                shown,
            )
        }
        RefusalKind::FlagMayBeClear => shows_lack(code, true, refusal.actor, place, shown),
        RefusalKind::FlagMayBeSet => shows_lack(code, false, refusal.actor, place, shown),
        RefusalKind::TooManyRequests => {
            shows_excess(code, Measure::Requests, refusal.actor, place, shown)
        }
        RefusalKind::TooManyBytes => shows_excess(
            code,
            Measure::Bytes,
            refusal.actor,
            place,
            shown,
        ),
        RefusalKind::BadTarget
        | RefusalKind::BadIndex
        | RefusalKind::NoHalt
        | RefusalKind::NotCleared
        | RefusalKind::OutOfMemory => false,
    }
}
