//! What help says of the subcommand `convert`.
use crate::help::Help;

pub const CONVERT: Help = Help {
    name: "convert",
    usage: "mcrace convert --to json|edn [--job N] < FILE",
    about: "Writes the history on standard input for other programs",
    long_about: "Writes the history on standard input in a notation that other programs read.
What stands before and after the history is skipped, so `run` and `campaign
--show` can be piped in:

  mcrace run HOST:PORT < FILE | mcrace convert --to edn > race.edn

`--to json` writes JSON, `--to edn` what Jepsen's programs read.",
    short_statuses: "Exit status: 0 converted, 2 wrong line, 3 refused, 4 otherwise.
Read on: mcrace convert --help, mcrace help history",
    statuses: "Exit status:
  0  converted, whatever the verdict is
  2  the command line is wrong
  3  refused: the input has no history, or is too long
  4  out of memory; or input or output failed",
};
