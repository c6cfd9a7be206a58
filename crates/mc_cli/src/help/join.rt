//! What help says of the subcommand `join`.
use crate::help::Help;

pub const JOIN: Help = Help {
    name: "join",
    usage: "mcrace join < FILE",
    about: "Joins the reports of a campaign that ran in parts",
    long_about: "Joins the reports on standard input, one after another, to that of the whole
campaign. `--from` and `--jobs` of `mcrace campaign` play a part:

  mcrace campaign HOST:PORT --seed 1 --from 0 --jobs 500 --json > part-1.json
  mcrace campaign HOST:PORT --seed 1 --from 500 --jobs 500 --json > part-2.json
  cat part-*.json | mcrace join

Parts may stand in any order. No job between the first and the last may be
missing or stand twice. Either all parts are JSON, of the same seed and name, or
all are text; text doesn't say its seed, so that isn't checked. A report of
`--brief` lacks lines, and is refused.

What is printed can be joined again. It has the first ten histories, and the
smaller script of the first part that has one.",
    short_statuses: "Exit status: 0 all explained, 1 a job is unexplained, 2 wrong line,
3 refused, 4 otherwise.
Read on: mcrace join --help, mcrace campaign --help",
    statuses: "Exit status:
  0  all jobs are explained, with all sections done
  1  a job is unexplained, or a section of one failed by BadReply
  2  the command line is wrong
  3  refused: the reports don't make a whole, or the input has more than
     1,048,576 bytes
  4  a job is undecided, didn't run, or has a section that failed; or out of
     memory; or input or output failed",
};
