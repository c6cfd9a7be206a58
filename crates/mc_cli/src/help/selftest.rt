//! What help says of the subcommand `selftest`.
use crate::help::Help;

pub const SELFTEST: Help = Help {
    name: "selftest",
    usage: "mcrace selftest",
    about: "Tests mcrace itself, with servers of its own",
    long_about: "Tests whether mcrace works on this machine. It needs no server, and only free
ports of 127.0.0.1.

First it starts a correct server in this process and runs 20 jobs of seed 1
against it, as `mcrace campaign` does. All must be explained. Then it runs a
script of two increments against a server with a race, which holds an increment
until the other one has read. It must be unexplained. If both are so, the
output is:

  honest jobs 20 explained 20 unexplained 0 other 0
  racy unexplained
  ok

Else it is `failed`, also if this machine lacks memory, threads or ports for
the two. It takes less than a second.",
    short_statuses: "Exit status: 0 ok, 1 failed, 2 wrong line, 4 otherwise.
Read on: mcrace selftest --help",
    statuses: "Exit status:
  0  ok
  1  failed
  2  the command line is wrong
  4  out of memory before it began; or output failed",
};
