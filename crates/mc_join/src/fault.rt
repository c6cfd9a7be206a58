//! What is wrong with the reports.
ghost use Rattle.std.specs.Prelude.{◌≡◌, string_bytes, IfOk};
ghost use Rattle.mc_join.specs.Refusals as spec;

use mc_protocol::OutOfMemory;
use std::alloc::{AllocError, Global};

/// Why reports make no whole.
#[derive(Clone, Copy, Debug, Drop, PartialEq, Eq)]
pub enum ReportKind {
    /// A line, or a word of it, that can't stand there.
    Line,
    /// A line of JSON in a text, or one of text in JSON.
    Mixed,
    /// The totals aren't those of the lines above them.
    Totals,
    /// A part has another seed or another name than the first one.
    Campaign,
    /// Jobs before this one are missing.
    Missing,
    /// The job stood before.
    Doubled,
    /// There is no report, or the last one isn't whole.
    Unended,
}

impl ReportKind {
    // Its number in what is printed.
    fn number(self) -> u8
        ensures { result ≡ spec.kind_number self }
    {
        match self {
            ReportKind::Line => 1,
            ReportKind::Mixed => 2,
            ReportKind::Totals => 3,
            ReportKind::Campaign => 4,
            ReportKind::Missing => 5,
            ReportKind::Doubled => 6,
            ReportKind::Unended => 7,
        }
    }

    fn name(self) -> &'static str
        ensures { result.now ≡ spec.kind_name self }
    {
        match self {
            ReportKind::Line => "Line",
            ReportKind::Mixed => "Mixed",
            ReportKind::Totals => "Totals",
            ReportKind::Campaign => "Campaign",
            ReportKind::Missing => "Missing",
            ReportKind::Doubled => "Doubled",
            ReportKind::Unended => "Unended",
        }
    }
}

/// The first thing that is wrong.
#[derive(Clone, Copy, Debug, Drop, PartialEq, Eq)]
pub struct ReportFault {
    pub kind: ReportKind,
    /// The line where it is, counted from 1.
    pub line: u32,
}

impl ReportFault {
    /// The line that says so.
    ///
    /// # Errors
    ///
    /// That memory ran out.
    pub fn text(self, alloc: Global) -> Result<String, OutOfMemory>
        ensures { IfOk result (λ text. string_bytes text ≡ spec.refusal_text self.kind self.line) }
    {
        let number = self.kind.number();
        let name = self.kind.name();
        let line = self.line;
        format!(in alloc; "refused report {number} {name} line {line}\n")
    }
}

/// Why parts aren't read or joined.
#[derive(Clone, Copy, Debug, Drop, PartialEq, Eq)]
pub enum Stop {
    Refused(ReportFault),
    OutOfMemory,
}

impl Stop {
    /// A fault of this kind in this line.
    pub fn at(kind: ReportKind, line: u32) -> Stop {
        Stop::Refused(ReportFault { kind, line })
    }
}

impl From<AllocError> for Stop {
    ghost use Rattle.std.specs.Prelude.{◌≡◌};
    ghost use Rattle.mc_join.specs.declared.fault.Stop.TheVariants.{OutOfMemory};

    ghost from_gives = { λ _ e. e ≡ OutOfMemory };

    fn from(_e: AllocError) -> Stop {
        Stop::OutOfMemory
    }
}

impl From<ReportFault> for Stop {
    ghost use Rattle.std.specs.Prelude.{◌≡◌};
    ghost use Rattle.mc_join.specs.declared.fault.Stop.TheVariants.{Refused};

    ghost from_gives = { λ fault s. s ≡ Refused fault };

    fn from(fault: ReportFault) -> Stop {
        Stop::Refused(fault)
    }
}
