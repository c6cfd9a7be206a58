//! What help says of the subcommand `draw`.
use crate::help::Help;

pub const DRAW: Help = Help {
    name: "draw",
    usage: "mcrace draw [--text [--lines]] [--job N] [--key KEY] [--limit N] < FILE",
    about: "Draws the history on standard input",
    long_about: "Draws the history on standard input, as SVG or as text. What stands before and
after the history is skipped, so `run` and `campaign --show` can be piped in:

  mcrace run HOST:PORT < FILE | mcrace draw > race.svg

In an SVG time goes from left to right, and each section has a lane. A bar goes
from the begin of a request to its reply; without a reply it has no end. A
numbered mark stands where the request takes effect, in an order that explains
the replies. If no order does, the bar of the first reply that nothing explains
is dashed and ends with a cross, below it stands what a correct server answers,
and the marks are an order for what came before.

Of a `history 3` one key is drawn: that of `--key`; or the first unexplained
one, else the first undecided one, else the first.

With `--text` a row is a request, in the order in which they began, with the
rows that it overlaps and its reply; the order stands below.

A `history 1` has no times: its bars have one width, and its rows are P's, then
A's, then B's.",
    short_statuses: "Exit status: 0 drawn, 2 wrong line, 3 refused, 4 otherwise.
Read on: mcrace draw --help, mcrace help history",
    statuses: "Exit status:
  0  drawn, whatever the verdict is
  2  the command line is wrong
  3  refused: the input has no history, or no such key, or is too long
  4  out of memory; or input or output failed",
};
