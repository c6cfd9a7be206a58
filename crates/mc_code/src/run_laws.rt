//! What follows from the definitions of paths and runs, whatever the code is.
ghost use Rattle.mc_code.specs.RunLaws.{CompletePathsEnd, EndsAreComplete, PathsAreRuns, PathsSplit, RunsArePaths, StopsOnce};

/// A path of two parts goes by a place in between, and two paths that meet at a place are one.
pub fn paths_split()
    ensures { PathsSplit }
{}

/// The requests of a run of code, with the classes of their replies, are a path of the code.
pub fn runs_are_paths()
    ensures { RunsArePaths }
{}

/// Each path of code is the requests of some run, with the classes of their replies.
pub fn paths_are_runs()
    ensures { PathsAreRuns }
{}

/// The requests of a section that is done, with the classes of their replies, are a complete path.
pub fn ends_are_complete()
    ensures { EndsAreComplete }
{}

/// Each complete path is that of a section that is done.
pub fn complete_paths_end()
    ensures { CompletePathsEnd }
{}

/// After the same exchanges a section of code stops at the same outcome: where it is about to send, is done, or is wrong.
pub fn sections_stop_once()
    ensures { StopsOnce }
{}
