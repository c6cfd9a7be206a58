//! What help says of the subcommand `run`.
use crate::help::Help;

pub const RUN: Help = Help {
    name: "run",
    usage: "mcrace run HOST:PORT [OPTIONS] < FILE",
    about: "Runs a script against a server, and looks for a race",
    long_about: "Runs the script on standard input against a server that speaks memcached's text
protocol, over three connections, and answers whether one cache can have given
every reply, whichever of A and B was faster. `mcrace help script` describes
scripts.

The script is checked first, as by `mcrace check`; if it is refused, nothing is
connected. Then P, A and B connect, in this order. P runs first. When it is
done, A and B run at once, each on its connection, one request after another.

Give a run keys of its own: other clients must not use them, and P deletes them
at the start. `--name` puts a name and a dash before each key, so that several
runs on one server leave each other alone; without it, six runs of one script
on a correct server gave three false `unexplained`. A key may have 40 bytes
with the name. Each section may send the added bytes times its budget of
requests more, up to 8,192 in all.

`--a` and `--b` name other servers for A and B, which may be two proxies before
one cluster, or a primary and its replica. P runs against the first address.

`--timeout` is the longest that a connect, a read or a write may take; a section
whose read takes longer fails with ReadFailed. `--wait` is how long each server
is tried until it takes a connection. Without `--timeout` a run waits for the
server as long as it takes; Ctrl-C ends it. A time is up to 24 hours, as
`500ms`, `2s`, `10m` or `2h`, or in seconds with at most three places, as `0.5`.

A race only shows when requests overlap, so A and B may wait for each other
before they send. `--meet` says when:
  each   before the first request until both are ready, and before each later
         one for at most 50 microseconds or so
  first  before the first request only
  never  not at all: one branch goes ahead
  drawn  like `each` in three runs of four, else like `never`, at random: a
         meeting hides some faults in the order of replies (default)
Some races open a while after a request. With `--spread MICROS`, half of the
runs that meet delay one branch after its first meeting, by 1 to MICROS
microseconds; short delays are as likely as delays twice as long. 0 disables
this.

One run proves little about a server. `--times` runs the script up to N times,
`--for` for a time; with both, whichever ends first. A run that has begun is
not cut off. mcrace stops at the first run whose exit status isn't 0, and
prints it after two lines; if there is none, it prints the last run:

  run 7 of 1000
  runs 7 explained 5 unexplained 1 other 0 overlapped 5 failed 1

Here the seventh run failed. With `--for` alone the line is `run 7`. In five
runs a request of A and one of B were outstanding at once. Each run counts once:
as unexplained; else as failed, if a section failed; else as explained; else as
other, which is undecided or without a verdict. With `--keep-going` all runs are
made and counted. The first whose exit status isn't 0 is printed at once, and
the totals at the end. A refused script is refused
without these lines. On a terminal, standard error shows how many runs there
were; `--quiet` turns that off. Runs share their connections as long as all
goes well; `--reconnect` opens new ones for each run: use it to exercise
servers that pin a connection to a thread.

With `--stats`, standard error ends with how many runs have a history, in how
many of them requests of A and B overlapped, in how many of those with a reply
to both A was answered first, and how the requests of each verb were answered.
A script whose reads all miss proves nothing:

  mcrace: 7 runs, 5 overlapped, A's first reply first in 4 of 7
  mcrace: set: 7 stored
  mcrace: incr: 14 number
  mcrace: delete: 1 notfound, 6 deleted

An example:

  script 1
  keys a
  budget P 2 26
  budget A 1 10
  budget B 1 10
  P
  set a 0 =5
  A
  incr a 1
  B
  incr a 1
  end

A server that loses one of the two updates answers 6 to both. The output:

  P done
  A done
  B done
  unexplained
  history 2
  P begin delete a
  P reply NOT_FOUND
  P begin set a 0 =5
  P reply STORED
  A begin incr a 1
  B begin incr a 1
  A reply NUMBER 6
  B reply NUMBER 6
  end

First comes a line for each section:
  done       its code has ended, and each of its requests has a reply
  failed     with the number and the name of the fault
  not begun  P isn't done
The faults:
  1 WriteFailed  a request could not be sent
  2 ReadFailed   a reply could not be received
  3 Ended        the server ended the connection where a reply was due
  4 BadReply     what came is no reply that the request may have
  5 ErrorLine    the server answered with a line that reports an error
  6 TooMuch      more came than 262,144 bytes
  8 Memory       there was no memory

Then comes the verdict, and the run's history in the order in which requests
began and were answered. `mcrace help history` describes both; `mcrace judge`
finds the same verdict.
  explained    an explanation was found; its lines follow, and `end`
  unexplained  there is none: the search was complete
  undecided    the search used up its turns before either was known

With `--why`, `unexplained` is followed by the first line of the history that
no order can explain (`history 2` is line 1), an order for everything before
it, and what a correct server answers there:

  unexplained
  why
  line 9 B reply NUMBER 6
  explained before
  P 0  delete a -> NOT_FOUND
  P 1  set a 0 =5 -> STORED
  A 2  incr a 1 -> NUMBER 6
  next B incr a 1 answers NUMBER 7
  end

The refusal of a script is followed by the input's line, with a caret under the
word or the step at fault and what was expected there.

If a section fails with BadReply or ErrorLine, standard error shows the request
and the bytes received, at most 200, and what is wrong with them. Surplus bytes
after the last reply are shown too:

  mcrace: A: to \"incr a 1\" came \"6\\n\": the line ends without CR

With `--json`, the output is JSON.

If a section gets no connection, this is all of the output, and standard error
says why:

  no connection A

If there is no thread for a branch, it is `not run`.",
    short_statuses: "Exit status: 0 explained, 1 unexplained, 2 wrong line, 3 refused, 4 otherwise.
Read on: mcrace run --help, mcrace help script, mcrace help history",
    statuses: "Exit status:
  0  explained, and all sections are done
  1  unexplained; or a section failed by BadReply
  2  the command line is wrong
  3  refused: the input is no script, a script that is too large, or one with a
     fault; or has more than 1,048,576 bytes
  4  otherwise: a section isn't done; no connection; not run; undecided; out of
     memory; or input or output failed",
};
