//! What may be wrong with code.
use mc_protocol::FaultKind;
use thiserror::Error;

/// What is wrong with code that is refused, in the order in which the kinds are looked for.
#[derive(Clone, Copy, Debug, Drop, PartialEq, Eq, Error)]
pub enum RefusalKind {
    /// A `goto`, or an entry of a class that the request may be answered with, doesn't lead to a later place of its
    /// section; or another class has an entry.
    #[error("expected a later place of the section, and no entry for a class that the request is never answered with")]
    BadTarget,
    /// A send's template or a bind's variable doesn't exist.
    #[error("expected a template or a variable that exists")]
    BadIndex,
    /// The section's last instruction isn't a halt. The place is 0 where the section is empty.
    #[error("expected a halt at the end of the section")]
    NoHalt,
    /// P doesn't begin with a delete of each key, in the order of the keys.
    #[error("expected the delete of the key with the number of the place")]
    NotCleared,
    /// On some path a request's variable has no number. A branch begins with the variables of any end of P.
    #[error("expected a number in the request's variable on every path")]
    Unbound,
    /// On some path the variable of a `cas` has no cas unique of its key, or that of an `incr` or `decr` has no value.
    #[error("expected a number of the kind that the request takes on every path")]
    WrongKind,
    /// On some path no reply of the section comes before a bind, or the last one showed no number.
    #[error("expected a reply that shows a number before the bind on every path")]
    NothingToBind,
    /// After some path of P, or after P in some merge of paths of A and B, a flag is clear that the request requires.
    #[error("expected the flags that the request requires to be set, whichever branch goes first")]
    FlagMayBeClear,
    /// In the same way, a flag is set that the request forbids.
    #[error("expected the flags that the request forbids to be clear, whichever branch goes first")]
    FlagMayBeSet,
    /// On some path the section sends more requests than its budget allows.
    #[error("expected no more requests than the section's budget")]
    TooManyRequests,
    /// On some path its requests have more bytes than its budget allows, where a variable counts as 20 digits.
    #[error("expected no more bytes than the section's budget")]
    TooManyBytes,
    /// Memory ran out, which is no fault of the code.
    #[error("out of memory")]
    OutOfMemory,
}

impl FaultKind for RefusalKind {
    ghost use Rattle.mc_sound.specs.LeastFaults as least_faults;
    ghost use Rattle.mc_sound.specs.declared.refusal_kind.RefusalKind.TheVariants.{OutOfMemory};

    ghost kind_number = { least_faults.kind_number };

    ghost kind_name = { least_faults.kind_name };

    ghost OutOfMemory = { OutOfMemory };

    fn number_and_name(self) -> (u32, &'static str) {
        match self {
            RefusalKind::BadTarget => (1, "BadTarget"),
            RefusalKind::BadIndex => (2, "BadIndex"),
            RefusalKind::NoHalt => (3, "NoHalt"),
            RefusalKind::NotCleared => (4, "NotCleared"),
            RefusalKind::Unbound => (5, "Unbound"),
            RefusalKind::WrongKind => (6, "WrongKind"),
            RefusalKind::NothingToBind => (7, "NothingToBind"),
            RefusalKind::FlagMayBeClear => (8, "FlagMayBeClear"),
            RefusalKind::FlagMayBeSet => (9, "FlagMayBeSet"),
            RefusalKind::TooManyRequests => (10, "TooManyRequests"),
            RefusalKind::TooManyBytes => (11, "TooManyBytes"),
            RefusalKind::OutOfMemory => (12, "OutOfMemory"),
        }
    }

    fn is_out_of_memory(self) -> bool {
        self == RefusalKind::OutOfMemory
    }
}
