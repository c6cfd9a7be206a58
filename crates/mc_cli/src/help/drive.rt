//! What help says of the subcommand `drive`.
use crate::help::Help;

pub const DRIVE: Help = Help {
    name: "drive",
    usage: "mcrace drive [--limit N] [--why] < FILE",
    about: "Replays a script under a given schedule, without a server",
    long_about: "Replays a script under a schedule that you write: who sends next, what is
answered, which connection fails. No server is needed. The answer is how each
section ends, and whether one cache can have given every reply.

The input is a script, and after its line `end` a step list. `mcrace help
script` and `mcrace help steps` describe both; the latter also the answer.

The script is checked first, as by `mcrace check`: whatever the steps are, it
keeps its flags, its variables and its budgets.

The verdict comes last. The order of the steps counts: a request that was
answered before another one began also acts before it.
  explained    an explanation was found; its lines follow, and `end`
  unexplained  there is none: the search was complete
  undecided    the search used up its turns before either was known

With `--why`, `unexplained` is followed by the step that no order can explain,
by the number of its line in the input; `mcrace help history` describes these
lines. Here the last reply to B is 8:

  unexplained
  why
  line 24 B reply NUMBER 8
  explained before
  P 0  delete a -> NOT_FOUND
  P 1  set a 0 =5 -> STORED
  next A incr a 1 answers NUMBER 6
  next B incr a 1 answers NUMBER 6
  end

A text is refused for the first of these reasons: it doesn't begin with a script
or the script is too large (as by `asm`); the script has a fault (as by
`check`); or no step list follows it. With `--why` the input's line follows,
with a caret under the word or the step at fault and what was expected there.",
    short_statuses: "Exit status: 0 explained, 1 unexplained, 2 wrong line, 3 refused, 4 otherwise.
Read on: mcrace drive --help, mcrace help script, mcrace help steps",
    statuses: "Exit status:
  0  explained, and all sections are done
  1  unexplained; or a section failed by BadReply
  2  the command line is wrong
  3  refused: the input is no script with a step list after it, a script that is
     too large, or one with a fault; or has more than 1,048,576 bytes
  4  otherwise: a section isn't done; undecided; out of memory; or input or
     output failed",
};
