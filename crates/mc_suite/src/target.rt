//! How a test plays its scripts.

use mc_cli::{Repeat, RunArgs, Seconds, TestArgs};
use mc_settings::Namespace;

// The longest that a connect, a read or a write may take, if the line doesn't say.
const TIMEOUT: Seconds<'static> = Seconds {
    word: "5",
    milliseconds: 5_000,
};

// The maximum delay of a branch after the branches met, in microseconds.
const SPREAD: u16 = 64;

/// How the scripts are run: over connections that are kept, and with 5 seconds for a reply if the line doesn't say.
pub(crate) fn target_of<'a>(args: &TestArgs<'a>) -> RunArgs<'a> {
    let run = &args.run;
    RunArgs {
        a: run.a,
        b: run.b,
        name: run
            .name
            .as_ref()
            .and_then(|name| Namespace::new(name.as_slice())),
        timeout: Some(run.timeout.unwrap_or(TIMEOUT)),
        wait: run.wait,
        repeat: Some(Repeat {
            times: None,
            time: None,
            keep_going: true,
        }),
        spread: SPREAD,
        ..RunArgs::at(run.server, run.how)
    }
}
