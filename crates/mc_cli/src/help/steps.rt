//! The topic `steps`.

pub const STEPS: &str = "A step list says what happens in the sections of a script, one event after
another: who sends next, what is answered, and which connection fails. It
follows the script's line `end`, and `mcrace drive` plays it. Here A and B each
add 1 to what P stores, and A's connection ends before a reply comes:

  script 1
  keys a
  budget P 2 26
  budget A 1 10
  budget B 1 10
  P
  set a 0 =5
  A
  incr a 1
  B
  incr a 1
  end
  steps
  A begin
  P begin
  P reply NOT_FOUND
  P begin
  P reply STORED
  A begin
  A fail 3
  A begin
  B begin
  B reply STORED
  B reply NUMBER 6
  end

The answer is:

  skipped 3
  P done
  A failed 3 Ended
  B done
  explained
  P 0
  P 1
  B 2
  end

The first line is `steps` and the last one `end`. Between them is one line for
each step: the section (P, A or B) and what happens in it.
  begin        the section sends its next request, which the script names
  reply REPLY  the section receives this reply to its request; `mcrace help
               history` lists the replies
  fail NUMBER  the section fails with the fault of this number; a request that
               waits for its reply may have been executed or not
P's first request is the delete of `a`, with which each script begins. A list
has at most 1,000 steps. Blank lines and lines that begin with `#` are skipped.

P may begin at once, A and B once P is done. A step that can't happen changes
nothing; it is skipped and counted:
  a step of A or B before P is done (above, `A begin` at the start)
  a step of a section that is done or has failed (above, `A begin` after its
  failure)
  a `begin` while a request of the section waits for its reply
  a `reply` while none waits
  a `reply` that the protocol doesn't have for the request (above, STORED for
  an `incr`)

A line for each section follows the number of skipped steps:
  done       its code has ended, and each of its requests has a reply
  failed     with the number and the name of the fault
  running    it may go on, but the list has ended
  not begun  P isn't done
The faults:
  1 WriteFailed  a request could not be sent
  2 ReadFailed   a reply could not be received
  3 Ended        the server ended the connection where a reply was due
  4 BadReply     what came is no reply that the request may have
  5 ErrorLine    the server answered with a line that reports an error
  6 TooMuch      more came than 262,144 bytes
  7 Closed       the section was closed already
  8 Memory       there was no memory

A text without a step list is refused, as `refused steps 1 Header line 13`:
  1 Header   the first line after the script isn't `steps`, or there is none
  2 Line     the line or one of its words may not stand there
  3 TooMany  more than 1,000 steps
  4 Unended  the line `end` is missing
";
