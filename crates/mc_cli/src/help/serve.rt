//! What help says of the subcommand `serve`.
use crate::help::Help;

pub const SERVE: Help = Help {
    name: "serve",
    usage: "mcrace serve PORT [OPTIONS]",
    about: "Serves memcached's text protocol on 127.0.0.1",
    long_about: "Serves memcached's text protocol on 127.0.0.1: a cache with which other servers
and client libraries can be compared. Once it listens, it prints its port, also
if PORT is 0:

  listening 127.0.0.1:11211

It has set, add, replace, append, prepend, cas, get, gets, incr, decr, delete,
touch and quit, and noreply. It answers ERROR to version, stats, flush_all,
verbosity, gat, gats and the meta commands. Nothing expires: an expiry other
than 0 is refused, with

  SERVER_ERROR expiry not supported

Nothing is evicted: everything that is stored takes memory. A body has at most
65,536 bytes, and a line 2,048, so a get of many keys takes more than one. A
number that decr makes shorter isn't filled up with spaces.

Each connection has a thread. When as many have ended as `--connections` says,
the program ends; with 0, at once. Ctrl-C and SIGTERM end it at any time.

With `--racy` incr has a race: it reads the item, lets others go on, and stores
its result, whatever has happened to the key. A tester should find that.

If the port can't be opened, the output is `no listener`, and standard error
says why:

  mcrace: 127.0.0.1:11211: Address already in use (os error 98)",
    short_statuses: "Exit status: 0 all connections served, 2 wrong line, 4 otherwise.
Read on: mcrace serve --help",
    statuses: "Exit status:
  0  as many connections were served as were asked for
  2  the command line is wrong
  4  some got no thread, or 100 accepts in a row failed; no listener; out of
     memory; or output failed",
};
