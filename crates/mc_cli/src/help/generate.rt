//! What help says of the subcommand `generate`.
use crate::help::Help;

pub const GENERATE: Help = Help {
    name: "generate",
    usage: "mcrace generate [--seed N] [--job N] > FILE",
    about: "Prints a generated script",
    long_about: "Prints a generated script. A seed and a job always give the same script.

This is the script of seed 1 and job 0:

  script 1
  keys r0-0 r0-1
  flags f
  vars v
  budget P 24 8192
  budget A 24 8192
  budget B 24 8192
  P
  set r0-0 0 =37 +f
  set r0-1 0 =1
  A
  get r0-0 ?f
  B
  set r0-1 0 =6
  set r0-0 0 =40
  append r0-0 0 =0
  end

Scripts of one seed differ by their job, and no two jobs share a key. What is
random:
  the keys     rJOB-0 and rJOB-1: few, so that the branches meet at one key
  P            stores the first key and sets the flag `f`; in one script of two
               it stores the second key too, so that in the others the branches
               find a key that isn't there
  A and B      each has one to three pieces, drawn evenly from eight: set, add,
               append, incr, decr, delete, get, and gets followed by cas
  get          needs the flag `f`, which P set
  gets, cas    the number that `gets` shows is bound to the variable `v`, and
               `cas` sends it; if `gets` misses, `cas` is left out

Standard input isn't read. To run one:
  mcrace generate --seed 1 --job 17 | mcrace run HOST:PORT",
    short_statuses: "Exit status: 0 printed, 2 wrong line, 4 otherwise.
Read on: mcrace generate --help, mcrace help script",
    statuses: "Exit status:
  0  printed
  2  the command line is wrong
  4  out of memory; or output failed",
};
