//! What help says of the subcommand `campaign`.
use crate::help::Help;

pub const CAMPAIGN: Help = Help {
    name: "campaign",
    usage: "mcrace campaign HOST:PORT [OPTIONS]",
    about: "Runs generated scripts against a server, and looks for a race",
    long_about: "Runs generated scripts against a server that speaks memcached's text protocol,
and reports for each whether one cache can have given every reply.

Each job runs the script that `mcrace generate` prints for the seed and the
job's number. `mcrace run --help` describes how a script runs, what its verdict
means, how times are written, and what `--a`, `--b`, `--meet`, `--name`,
`--timeout`, `--wait` and `--spread` do. As many jobs run at once as there are
workers, each over three connections. One on which all went well serves a later
job; `--reconnect` opens new ones for each job: use it to exercise servers that
pin a connection to a thread. When a connection serves no further job, mcrace
sends `quit` on it and gives the server 10 ms to close it, so that this side
doesn't run out of ports.

No two jobs share a key. But they use the keys rJOB-0 and rJOB-1, which nobody
else may use at that time: give each campaign a server of its own, or a name.
With `--name ci7` the keys are ci7-rJOB-0 and ci7-rJOB-1. A key may have 40
bytes, those of the last job too; else the command line is wrong, and nothing
is connected.

The report comes when all jobs have ended, with a line for each:

  0 explained
  1 explained A ReadFailed
  2 unexplained
  3 undecided
  4 no connection B
  jobs 5 explained 2 unexplained 1 other 2
  shrunk
  script 1
  ..
  end

  explained         one cache can have given every reply
  unexplained       none can: the server has a fault
  undecided         the search used up its turns before either was known
  no connection A   the section got no connection, and nothing ran
  not run           no thread could be made, or memory ran out
  not made          memory ran out for the script
  P, A or B and a fault's name   the section failed by it
If no thread can be made for a worker, the report is `not run` alone.

`--from` sets the first job's number, so that several machines, each with a
server of its own, can share a campaign: the lines of `--from 100 --jobs 100`
are those of the jobs 100 to 199 of a longer one. `--brief` leaves out the
lines of jobs that are explained with all sections done; the totals count them.
`--json` writes the report as JSON, `--junit` as JUnit's XML; only one of these
three can stand there.

The same seed gives the same scripts. `--random-seed` draws a seed, and standard
error says which; it can't stand beside `--seed`.

`--for` runs the campaign for a time instead of a number of jobs: no job begins
after it, and none is cut off. `--stop-after N` ends it when N jobs are
unexplained; up to four jobs more for each worker may follow these. After each
10,000 jobs, if another follows, mcrace writes a report. The status is that of
all jobs; what follows a report comes once, after the last one. With `--for` a
name has at most 16 bytes, so that any key is short.

If 64 connects in a row fail, mcrace gives up: the rest of the jobs have no
connection, or with `--for` no further job begins. All tries of a `--wait` are
one connect.

If a job is unexplained, `shrunk` and a smaller script of the first such job
follow the totals: mcrace leaves out one step at a time, as long as a run of
the rest is still unexplained. It runs each candidate once, 200 at most, so a
rare race leaves more steps than it needs: `--tries N` runs each up to N times,
until it is unexplained. The keys are those of the job, without the name.

`--show` writes the histories of unexplained jobs, ten at most, each after a
line with the job's number, as `job 31`; `mcrace judge` reads them. With
`--why`, each comes after the first line of it that no order can explain: see
`mcrace help history`. Each search for it takes at most `--limit` turns.

Standard error names the jobs when the campaign begins, and each unexplained
job at once, ten at most. So what was found is known even if the campaign is
ended before its report:

  mcrace: seed 1, jobs 0 to 99, 4 workers
  mcrace: job 31 is unexplained; mcrace generate --seed 1 --job 31

It also shows what came in place of a reply, or that none came within
`--timeout`, ten times at most, and why a job has no connection:

  mcrace: job 31: A: to \"incr r31-0 1\" came \"6\\n\": the line ends without CR
  mcrace: job 42: B: no reply to \"get r42-1\" within 2 s

On a terminal, unless TERM is `dumb`, it shows the progress in one line of at
most COLUMNS columns, or 80, which is cleared at the end; `--quiet` turns that
off. With `--stats` it ends with how the jobs that ran overlapped, and how the
requests of each verb were answered, as `run --stats` does; runs of smaller
scripts aren't counted.

To see an unexplained job again, run its script until it is unexplained, under
the campaign's name if it had one:

  mcrace generate --seed 1 --job 31 | mcrace run HOST:PORT --name ci7

Ctrl-C ends a campaign.",
    short_statuses: "Exit status: 0 all explained, 1 a job is unexplained, 2 wrong line, 4 otherwise.
Read on: mcrace campaign --help, mcrace run --help",
    statuses: "Exit status:
  0  all jobs are explained, and all their sections are done
  1  a job is unexplained, or a section of one failed by BadReply
  2  the command line is wrong
  4  otherwise: a section isn't done; no connection; not run or not made;
     undecided; out of memory; or output failed",
};
