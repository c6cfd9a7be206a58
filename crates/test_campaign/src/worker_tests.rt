//! That two workers run two jobs at once, and the branches of each at once.

use crate::connectors::{Meeting, Signals};
use crate::texts::report_text;
use mc_campaign::run_campaign;
use mc_run::FreeGate;
use mc_server::Shared;
use std::test::Fail;

#[test]
fn two_workers_run_two_jobs_at_once(rt: HostRuntime) -> Result<(), Fail> {
    let store = Shared::new(rt.alloc())?;
    let signals = Signals::new();
    let connector = Meeting {
        rt: &rt,
        alloc: rt.alloc(),
        store: &store,
        signals: &signals,
    };
    let report = run_campaign(&rt, rt.alloc(), 1, 2, 2, 1_000_000, &connector, &FreeGate)?;
    let text = report_text(rt.alloc(), &report);
    drop(report);
    assert_eq!(rt;
        text?.as_slice(),
        b"0 explained\n1 explained\n\
        jobs 2 explained 2 unexplained 0 other 0\n"
            .as_slice()
    );
    assert!(rt; !signals.missed.is_raised());
    Ok(())
}
