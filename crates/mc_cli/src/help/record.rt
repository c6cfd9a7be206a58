//! What help says of the subcommand `record`.
use crate::help::Help;

pub const RECORD: Help = Help {
    name: "record",
    usage: "mcrace record LISTEN_PORT HOST:PORT [OPTIONS]",
    about: "Records what your own clients and a server say",
    long_about: "Records what your own clients and a server say to each other, as a `history 3`
that `mcrace judge` reads. It listens on 127.0.0.1 and connects to the server
for each client that comes. It passes bytes on both ways, unchanged and at once,
whatever they are. At most 64 clients are connected at once; one more is closed.

Once it listens, standard error has its port, also if LISTEN_PORT is 0:

  mcrace: listening 127.0.0.1:11311

The recording goes to standard output, or into the file that `--out` names, at
least each second. Each connection has client numbers of its own, and requests
that it pipelines have different ones. Keys are k1, k2 and so on:

  history 3
  # k1 is \"user:17\"
  0 begin set k1 0 =5
  0 reply STORED

A key is noted from a set or delete on that was answered before any other
request of the key began. These end it until the next such start:
  - a request with noreply or an expiry, gat and gats, and meta commands;
  - a body above 65,536 bytes, and an error as its reply;
  - a cas by a number that no gets showed since the start;
  - flush_all, which ends every key.
Lines that begin with # say so. An unknown command, a line above 2,048 bytes and
bytes that aren't understood end every key, and nothing is noted after them. A
get of several keys, stats, version and verbosity are left out and end nothing.

Other clients of these keys must come through it too: what they change, or what
the server evicts, looks like a fault. A recording has at most 100,000 requests
and 1,000 starts of keys; `--judge` goes on after them.

With `--judge` keys are judged while clients go on. Standard error tells the
first key that no order explains at once, with the shortest part of it that none
explains.

`--for` ends it after a time and closes what is open; `--connections` ends it
when as many have come and are closed. Standard error then says how many
requests were noted and left out, and why, and how many were `pipelined`: sent
while their connection waited for a reply. A client that means to wait for each
reply has a fault then. Ctrl-C ends it at any time. With `--out`, what the file
has by then can be judged; without, the output lacks its last line, `end`.

An example:

  mcrace record 11311 127.0.0.1:11211 --for 30s --judge --out my.history
  mcrace judge --why < my.history",
    short_statuses: "Exit status: 0 ended, 1 a key is unexplained, 2 wrong line, 4 otherwise.
Read on: mcrace record --help, mcrace help history",
    statuses: "Exit status:
  0  it ended; with --judge, no key is unexplained
  1  with --judge, a key is unexplained
  2  the command line is wrong
  4  no listener; out of memory; or output failed",
};
