//! Observers of the runs of a script: one that does nothing, and one that tells of the runs on standard error and counts what they came to.
ghost use Rattle.std.specs.Prelude.{◌≡◌, is_some};

use crate::progress::{Progress, lead};
use crate::run::{Played, Remarks};
use crate::statistics::Statistics;
use crate::totals::{RunClass, class_of};
use mc_cli::RunArgs;
use mc_connect::{Unconnected, Unreached};
use std::alloc::Global;
use std::io::Eprint;
use std::rt::Clock;

// At most this many remarks are written to standard error on runs that aren't handed out.
const MOST_REMARKS: u32 = 10;

/// An observer of the runs of a script. No answer rests on what it does.
pub trait RunObserver {
    /// Runs begin, where a script is run repeatedly: this many, if that is known.
    fn begin(&mut self, times: Option<u64>);

    /// One run more has ended.
    fn add(&mut self, played: &Played);

    /// The run with this number isn't handed out, and this was remarked on it.
    fn pass_over(&mut self, number: u64, remarks: &Remarks);

    /// The run that is handed out was written, others follow, and this was remarked on it.
    fn find(&mut self, remarks: &Remarks);

    /// No run follows the one with this number, since the server may still act on a request of it, and no other keys can be had.
    fn stop(&mut self, number: u64);

    /// Something is written to standard output next.
    fn give_way(&mut self);
}

/// An observer that does nothing.
#[derive(Clone, Copy, Drop)]
pub struct Unobserved;

impl RunObserver for Unobserved {
    fn begin(&mut self, _times: Option<u64>) {}

    fn add(&mut self, _played: &Played) {}

    fn pass_over(&mut self, _number: u64, _remarks: &Remarks) {}

    fn find(&mut self, _remarks: &Remarks) {}

    fn stop(&mut self, _number: u64) {}

    fn give_way(&mut self) {}
}

/// Says on standard error what was remarked on runs, and on a terminal how many there were; and counts what they came to.
#[derive(Drop)]
pub struct RunTeller<'a, R> {
    rt: &'a R,
    alloc: Global,
    target: &'a RunArgs<'a>,
    columns: Option<usize>,
    remarks: u32,
    progress: Option<Progress<'a, R>>,
    /// What the runs came to, where they are counted.
    pub statistics: Option<Statistics>,
}

impl<'a, R: Eprint + Clock> RunTeller<'a, R> {
    /// Of the target's runs, which will be. How many there were stands in a line of `columns` columns, if there are any. They are counted
    /// where the target asks for statistics.
    pub fn new(rt: &'a R, alloc: Global, target: &'a RunArgs<'a>, columns: Option<usize>) -> Self
        ensures { is_some result.statistics ≡ target.entry.now.stats }
    {
        let statistics = if target.stats {
            Some(Statistics::new())
        } else {
            None
        };
        RunTeller {
            rt,
            alloc,
            target,
            columns: if target.quiet { None } else { columns },
            remarks: 0,
            progress: None,
            statistics,
        }
    }

    /// Says on standard error what was remarked on the run that is handed out.
    pub fn tell(&self, remarks: &Remarks) {
        // There is nowhere else to say that one of these could not be said.
        match remarks {
            Remarks::None => {}
            Remarks::NoConnection(Unconnected { section, error }) => {
                let unreached = Unreached {
                    server: self.target.server_of(*section),
                    error: *error,
                };
                let _ = eprintln!(self.rt; "mcrace: {unreached}");
            }
            Remarks::WrongLine(lines) => {
                let _ = eprint!(self.rt; "{lines}");
            }
            Remarks::Evidence(remarks) => {
                for remark in remarks {
                    let _ = eprintln!(self.rt; "mcrace: {remark}");
                }
            }
        }
    }
}

impl<'a, R: Eprint + Clock> RunObserver for RunTeller<'a, R> {
    fn begin(&mut self, times: Option<u64>) {
        if let Some(columns) = self.columns {
            let progress = Progress::new(self.rt, self.alloc, columns, "runs", times);
            self.progress = Some(progress);
        }
    }

    fn add(&mut self, played: &Played) {
        if let Some(progress) = &mut self.progress {
            progress.add(class_of(played) == RunClass::Unexplained);
        }
        if let Some(statistics) = &mut self.statistics {
            statistics.add_played(played);
        }
    }

    fn pass_over(&mut self, number: u64, remarks: &Remarks) {
        let Remarks::Evidence(remarks) = remarks else {
            return;
        };
        for remark in remarks {
            if self.remarks < MOST_REMARKS {
                self.remarks += 1;
                let lead = lead(self.columns);
                // There is nowhere else to say that this could not be said.
                let _ = eprintln!(self.rt; "{lead}mcrace: run {number}: {remark}");
            }
        }
    }

    fn find(&mut self, remarks: &Remarks) {
        self.tell(remarks);
    }

    fn stop(&mut self, number: u64) {
        let lead = lead(self.columns);
        // There is nowhere else to say that this could not be said.
        let _ = eprintln!(self.rt;
            "{lead}mcrace: no run follows run {number}: the server may still act on a request of it, and no new name fits its keys"
        );
    }

    fn give_way(&mut self) {
        if let Some(progress) = &self.progress {
            progress.clear();
        }
    }
}
