//! What help says of the subcommand `judge`.
use crate::help::Help;

pub const JUDGE: Help = Help {
    name: "judge",
    usage: "mcrace judge [OPTIONS] < FILE",
    about: "Judges the history on standard input",
    long_about: "Judges the history on standard input: whether one cache can have given every
reply in it, that is, whether it is linearizable (`history 2` and `history 3`)
or sequentially consistent (`history 1`).

  history 2
  P begin delete a
  P reply NOT_FOUND
  A begin set a 0 =1
  A reply STORED
  B begin get a
  B reply HIT 0 =1
  end

P runs alone first, then A and B run at once. A `history 3` has many clients,
and up to 67,108,864 bytes. `mcrace help history` describes the formats, the
lines of an explanation, and why a text is refused.

The answer:
  explained    an explanation was found; its lines follow, and `end`
  unexplained  there is none: the search was complete
  undecided    the search used up its turns before either was known
If the history claims an explanation, the answer is `confirmed` or `not
confirmed`.

A `history 3` is judged key by key. After `unexplained` or `undecided` stands
the first such key, as `key KEY`. `--key KEY` judges this key alone. `--limit`
holds for each key; without it the limit is 100 turns for each request of the
key, if that is more than the default.

A turn tries one request at one place of the order. The search remembers its
dead ends in up to 256 MiB; beyond that it may need more turns.

`--run` passes over what `run` or `campaign` printed before the history, and
takes the first history. `--job N` takes that of job N, of what `campaign
--show` printed:

  mcrace run HOST:PORT < FILE | mcrace judge --run
  mcrace campaign HOST:PORT --show | mcrace judge --job 31

`--json` answers in JSON.

With `--why`, `unexplained` is followed by the first line that no order can
explain, an order for everything before it, and what a correct cache answers
there, or for a `history 3` the lines of the requests that overlap it; and a
refusal by the line at fault.",
    short_statuses: "Exit status: 0 explained, 1 unexplained, 2 wrong line, 3 refused, 4 otherwise.
Read on: mcrace judge --help, mcrace help history",
    statuses: "Exit status:
  0  explained, or confirmed
  1  unexplained, or not confirmed
  2  the command line is wrong
  3  refused: the input is no history, or too long, or has no such key
  4  undecided; out of memory; or input or output failed",
};
