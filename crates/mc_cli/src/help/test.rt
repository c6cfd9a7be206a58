//! What help says of the subcommand `test`.
use crate::help::Help;

pub const TEST: Help = Help {
    name: "test",
    usage: "mcrace test HOST:PORT [OPTIONS]
       mcrace test --list
       mcrace test --print RACE",
    about: "Tests a server: looks for its races, and says what it finds",
    long_about: "Tests a server that speaks memcached's text protocol, for 30 seconds, and says
what it finds as it finds it.

First it asks each of the twelve verbs alone. A verb that the server doesn't
know is not supported, and races that need it are left out. Then it plays
scripts of the races that it knows, in turns, and between them generated scripts
and rounds of eight clients, as `mcrace stress` does. If no order of their
requests explains what the clients of a run or a round received, that is a race.

Of each race it makes the script smaller, as long as the race is seen again,
and plays it until it was seen three times; a tenth of the time at most. It
prints how often the race was seen, the requests and replies of one run, which
reply nothing explains, and the script. `mcrace run` plays that again. A race
that rounds show is called stress. In place of a script it has a command.

The races have names, which `mcrace test --list` prints; `--print RACE` prints
the scripts of one. `--only RACES` and `--skip RACES` take names with commas
between. With `--only` it plays nothing else, and ends once each of these races
was found.

All keys are under a name of the test's own, which no other test has, and under
NAME before that. After a request without a reply the name is another one. A
reply that takes more than 5 seconds, or `--timeout`, fails the run. The test
ends early if no connect has succeeded for 2 seconds and 20 failed, or if three
replies in a row didn't come in time.

`--a` and `--b` name other servers for the two clients, as proxies before the
same cache. `--wait` waits for a server that is starting. `--seed` makes the
generated scripts and the rounds those of an earlier test; their seed stands in
the first line.

`--out DIR` makes the folder and writes into it, as soon as a race is found, its
script, its history, its picture and what was printed, as RACE-1.script,
RACE-1.history, RACE-1.svg and RACE-1.txt (stress-1 has no script); and
report.json and junit.xml, which are written again at each finding and at the
end. `--json` prints what report.json has, in place of the text.

On a terminal standard error shows the progress; `--quiet` turns that off.

A server in which nothing was found may have a race that comes less often.
`mcrace run --for` with a script of your own, and `mcrace campaign --for`, look
longer.",
    short_statuses: "Exit status: 0 nothing found, 1 a race or a wrong reply, 2 wrong line,
4 not tested, 5 the server failed.
Read on: mcrace test --help, mcrace help run",
    statuses: "Exit status:
  0  nothing was found
  1  a race was found, or a reply was wrong, or what came was no reply
  2  the command line is wrong
  4  the server couldn't be tested: no connection, no memory, no thread, no race
     that it supports; a search was undecided; or output failed
  5  the server failed meanwhile, and nothing else was found: it hung, closed a
     connection, or answered with an error",
};
