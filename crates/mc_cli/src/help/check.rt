//! What help says of the subcommand `check`.
use crate::help::Help;

pub const CHECK: Help = Help {
    name: "check",
    usage: "mcrace check [--why] [--json] < FILE",
    about: "Checks the script or the image on standard input",
    long_about: "Checks the script or the image on standard input: whether it keeps its flags,
its variables and its budgets, whatever the server replies and whichever of A
and B is faster. `mcrace help script` describes scripts. An input that begins
with `MCR` is read as an image: see `mcrace help image`.

All replies and all orders are followed: after a request, each class of reply
that the protocol has for it; after P, each order in which the requests of A
and B may be sent. The script is accepted if, in all of these,
  each request finds its `?` flags set and its `!` flags clear,
  each `$VAR` and each `bind` finds a number of the right kind,
  and no section sends more than its budget.
Flags are clear before P. A request sets its `+` flags and clears its `-` flags
when it is sent, whatever its reply. A and B begin with the flags and variables
that P leaves. They share the flags; each has variables of its own.

Here a flag has a race:

  script 1
  keys item
  flags ready
  budget P 2 100
  budget A 1 100
  budget B 1 100
  P
  set item 0 =1
  A
  set item 0 =5 +ready
  B
  get item ?ready
  end

The script is refused:

  refused verify 8 FlagMayBeClear B 0
  P notfound
  P stored
  end

B's request at place 0, its `get`, needs a flag that may be clear: A's `set`
sets `ready`, but B may be faster. The other lines show this by a run:
P was answered NOT_FOUND, then STORED; B's first request finds `ready` clear.
With `set item 0 =1 +ready` in P, the script would be accepted:

  accepted
  P 2 32
  A 1 19
  B 1 10

Each line has the most requests and the most bytes that its section sends,
perhaps after different replies. A variable counts as 20 digits. These are the
smallest budgets with which the script is accepted.

Of several faults the first is named: by its kind in the order of these
numbers, then by its section, then by its place (`mcrace help image` describes
places).
  5 Unbound           the request has `$VAR`, and VAR may have no number yet
  6 WrongKind         VAR may have a number of another kind: `cas` takes what a
                      `gets` of its key showed; incr and decr take what an incr
                      or a decr showed
  7 NothingToBind     the section's last reply before the `bind` may have shown
                      no number, or there may be none; a hit of `gets` shows
                      one, and so do incr and decr
  8 FlagMayBeClear    the request has `?FLAG`, and FLAG may be clear
  9 FlagMayBeSet      the request has `!FLAG`, and FLAG may be set
  10 TooManyRequests  with this request there may be more than the budget allows
  11 TooManyBytes     with this request there may be more bytes than it allows
The lines up to `end` show the fault by a run: one line for each reply before
it, with the section and the class of the reply. Before a fault of P they are
replies to P. Before one of a branch, P's come first, until P has ended, and
then the branch's; for the kinds 8 and 9 those of the other branch may stand
among these. After them the section comes to the place without a reply, and
meets the fault there. `end` alone means that no reply comes before the fault.

`--json` answers in JSON.

With `--why` the refusal of a script is followed by the input's line, with a
caret under the word or the step at fault and what is wrong with it; and the
run has a line for each reply to a step:

  line 10: gets k >u was answered miss: `u` has no number
  11 | cas k 0 =6 $u
     |            ^ `u` may have no number here, since any reply may come
     | write miss:LABEL on line 10, and a line `LABEL:` further down",
    short_statuses: "Exit status: 0 accepted, 2 wrong line, 3 refused, 4 otherwise.
Read on: mcrace check --help, mcrace help script, mcrace help image",
    statuses: "Exit status:
  0  accepted
  2  the command line is wrong
  3  refused: the input is no script or no image, a script that is too large, or
     code with a fault; or has more than 1,048,576 bytes
  4  out of memory; or input or output failed",
};
