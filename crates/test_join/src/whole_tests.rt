//! Parts, and the whole of them.

use mc_join::{Part, ReportFault, ReportKind, Span, Totals, Whole, whole_of};
use std::test::Fail;

const NONE: Span = Span { start: 0, end: 0 };

// As many explained jobs from the first one on.
fn part(first: u64, jobs: u64) -> Part {
    Part {
        first,
        totals: explained(jobs),
        line: 9,
        jobs: NONE,
        after: NONE,
    }
}

fn explained(jobs: u64) -> Totals {
    Totals {
        jobs,
        explained: jobs,
        unexplained: 0,
        other: 0,
    }
}

fn refused(kind: ReportKind) -> Result<Whole, ReportFault> {
    Err(ReportFault { kind, line: 9 })
}

#[test]
fn sums_parts(rt: HostRuntime) -> Result<(), Fail> {
    let whole = whole_of(&[part(5, 2), part(7, 1), part(8, 3)]);
    assert_eq!(rt;
        whole,
        Ok(Whole {
            first: 5,
            totals: explained(6)
        })
    );
    Ok(())
}

#[test]
fn finds_gaps(rt: HostRuntime) -> Result<(), Fail> {
    assert_eq!(rt;
        whole_of(&[part(5, 2), part(8, 1)]),
        refused(ReportKind::Missing)
    );
    assert_eq!(rt;
        whole_of(&[part(5, 2), part(6, 1)]),
        refused(ReportKind::Doubled)
    );
    Ok(())
}

#[test]
fn finds_what_64_bits_do_not_hold(rt: HostRuntime) -> Result<(), Fail> {
    assert_eq!(rt;
        whole_of(&[part(1, u64::MAX), part(0, 1)]),
        refused(ReportKind::Doubled)
    );
    assert_eq!(rt;
        whole_of(&[part(0, u64::MAX), part(u64::MAX, 1)]),
        refused(ReportKind::Totals)
    );
    Ok(())
}
