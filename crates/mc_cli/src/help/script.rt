//! The topic `script`.

pub const SCRIPT: &str =
    "A script says what three clients of one server send: P, which runs alone first,
then A and B, which run at once. Here A stores only if nobody else stored after
its `gets`:

  script 1
  keys item
  flags ready
  vars unique
  budget P 2 100
  budget A 2 100
  budget B 1 100
  P
  set item 0 =5 +ready
  A
  gets item ?ready miss:gone >unique
  cas item 0 =7 $unique
  gone:
  B
  incr item 1
  end

The lines, in this order:
  script 1                      or `script 2`, which has more room
  keys KEY ..                   1 to 8 keys
  flags FLAG ..                 at most 32, or 64 in `script 2`; optional
  vars VAR ..                   at most 16; optional
  budget CLIENT REQUESTS BYTES  for P, A and B: the most that the client may
                                send, 0 to 24 requests and 0 to 8,192 bytes
  P, A and B                    each on a line, then the client's steps, at
                                most 64, or 128 in `script 2`
  end
Blank lines and lines that begin with `#` are skipped.

Steps:
  set KEY FLAGS =BODY           send it; also add, replace, append, prepend
  cas KEY FLAGS =BODY $VAR      send it, with VAR's number as its cas unique
  get KEY                       send it; also gets, delete, touch
  incr KEY NUMBER, incr KEY $VAR   send it; also decr
  bind VAR                      VAR takes the number of the last reply
  goto LABEL                    go to the label
  halt                          end the section, which is the client's steps
A line `LABEL:` marks the next step, or the end of the section. A label is used
in its own section, above its line: a script has no loops.

Marks after a request, in any order:
  ?FLAG, !FLAG   the flag must be set, or clear, when the request is sent
  +FLAG, -FLAG   the request sets the flag, or clears it, whatever its reply
  CLASS:LABEL    after a reply of this class go to the label: stored,
                 notstored, exists, notfound, hit, miss, deleted, touched,
                 number, notnumber
  >VAR           after gets, incr and decr: VAR takes the number of the reply

  KEY            1 to 40 of a-z, 0-9 and `-`; FLAG, VAR and LABEL 1 to 20
  FLAGS          a decimal below 2^32; NUMBER below 2^64
  BODY           at most 64 letters and digits

P first deletes each key, which P's budget pays for.

A text that is no script is refused, as `refused script 5 UnknownKey line 9`:
  1 Header         the version or a declaration is missing, or out of place
  2 Line           the line or one of its words may not stand there
  3 Name           a declared name has other bytes, or too many
  4 Duplicate      a name, a label or a mark stands there already
  5 UnknownKey     no such key is declared
  6 UnknownFlag    no such flag is declared
  7 UnknownVar     no such variable is declared
  8 UnknownLabel   the section has no such label
  9 BackwardLabel  the label stands above its use
  10 Number        a word is no decimal, or its number is too large
  11 Data          a body has other bytes than letters and digits, or too many
  12 TooMany       too many names, or too many steps in a section
  13 Budget        a budget is above its limit
  14 Unended       the text ends before P, A, B or `end`
A script that is too large is refused, as `refused asm 2 TooManyInstructions A`:
  1 TooManyTemplates     more than 64 templates
  2 TooManyInstructions  more than 128 instructions in a section: one for each
                         step and each `>VAR`, one at the section's end, and in
                         P one for each key
With `--why` the input's line follows, with a caret under the word at fault and
what was expected there.
";
