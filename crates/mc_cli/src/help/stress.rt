//! What help says of the subcommand `stress`.
use crate::help::Help;

pub const STRESS: Help = Help {
    name: "stress",
    usage: "mcrace stress HOST:PORT [OPTIONS]",
    about: "Has many clients send at once, and judges what they were answered",
    long_about: "Has many clients send requests to a server that speaks memcached's text protocol,
all at once and on the same few keys, and judges whether one cache can have
given every reply. Races that two short branches don't show, as in a hash table
that grows, show so.

A round begins with the first client, which deletes the round's keys and, in
half of the rounds, sets each. Then all clients send their requests, each over
its connection, one after another as replies come. What a client sends is drawn
from the seed, the round and the client: a verb of `--mix` on one of the keys. A
cas takes the number that this client saw last.

  all       all twelve verbs (default)
  counters  set, incr, decr, gets and cas
  cas       gets, cas and set
  bodies    append, prepend, set and get
  presence  add, delete, replace, get and touch

Each key of a round is judged by itself while the next round runs. The first
round that is unexplained, or in which a client fails, ends the command and is
shown. An undecided round doesn't end it, and is shown if no other one does.
With `--keep-going` all rounds are made and counted. The first unexplained one
is shown as soon as it is known; if there is none, another that isn't explained
and done is shown at the end.

  round 17 of 100
  rounds 17 explained 16 unexplained 1 other 0 failed 0
  unexplained
  key k1
  history 3
  0 begin delete k1
  0 reply NOT_FOUND
  3 begin incr k1 1
  ..
  end

The history is that of the one key: `mcrace help history` describes it, and
`mcrace judge --why` reads it. `--whole` shows all keys of the round. Otherwise
`--smallest` leaves out requests that changed nothing, as their replies say, if
what is left is unexplained too. With `--why`, the first line that no order can
explain comes before it. A client that failed has a line with its fault, as a
section of `mcrace run` has; then the history ends there. Each round counts
once: as unexplained; else as failed, if a client failed; else as explained;
else as other, which is undecided.

The keys are k1, k2 and so on. Nobody else may use them meanwhile: `--name` puts
a name and a dash before each. After a round with a request without reply they
get another name, and the clients new connections.

`--for` begins rounds for a time. `mcrace run --help` says how times are
written, and what `--timeout` and `--wait` do. On a terminal standard error
shows how many rounds there were; `--quiet` turns that off. Without `--limit` a
search has 1,000,000 turns, or 100 for each request of the key if those are
more. With `--stats`, standard error ends with how many requests the rounds had,
in how many seconds, and for each verb how they were answered. With `--json`,
the output is JSON, once all rounds are over. Ctrl-C ends it.

An example:

  mcrace stress 127.0.0.1:11211 --clients 16 --mix cas --for 1m --why",
    short_statuses: "Exit status: 0 all explained, 1 unexplained, 2 wrong line, 4 otherwise.
Read on: mcrace stress --help, mcrace help history",
    statuses: "Exit status:
  0  all rounds are explained, and all their clients done
  1  a round is unexplained, or a client failed by BadReply
  2  the command line is wrong
  4  otherwise: a client isn't done; no connection; not run; undecided; out of
     memory; or output failed",
};
