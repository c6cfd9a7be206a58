//! Who holds the code of a run.
ghost use Rattle.std.specs.Prelude.{◌≡◌, IfSome};
ghost use Rattle.std.specs.Arc.{arc_value};
ghost use Rattle.mc_run.specs.Holders.{held_by};

use mc_sound::Checked;
use std::alloc::Global;
use std::sync::Arc;

/// The sound code of a run: lent by the caller, or held by all that share it. What a thread that outlives the run has of it, it shares.
#[derive(Debug, Drop)]
pub(crate) enum Holder<'c> {
    Lent(&'c Checked),
    Shared(Arc<Checked, Global>),
}

impl<'c> Holder<'c> {
    /// The code.
    pub(crate) fn checked(&self) -> &Checked
        ensures { result.now ≡ held_by self.now }
    {
        match self {
            Holder::Lent(checked) => checked,
            Holder::Shared(checked) => checked,
        }
    }

    /// The same code once more, unless all that could be counted share it.
    pub(crate) fn again(&self) -> Option<Holder<'c>>
        ensures { IfSome result (λ again. held_by again ≡ held_by self.now) }
    {
        match self {
            Holder::Lent(checked) => Some(Holder::Lent(checked)),
            Holder::Shared(checked) => share(checked),
        }
    }
}

/// The code, shared once more.
fn share<'c>(checked: &Arc<Checked, Global>) -> Option<Holder<'c>>
    ensures { IfSome result (λ again. held_by again ≡ arc_value checked.now) }
{
    let shared = Arc::try_clone(checked).ok()?;
    Some(Holder::Shared(shared))
}
