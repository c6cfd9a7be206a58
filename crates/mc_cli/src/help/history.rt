//! The topic `history`.

pub const HISTORY: &str =
    "A history is what three clients of one server sent and received: P, which runs
alone first, then A and B, which run at once. `mcrace judge` reads one.

  history 1
  P delete a -> NOT_FOUND
  P set a 0 =5 -> STORED
  A gets a -> HIT 0 =5 7
  A cas a 0 =two%20words 7 -> STORED
  B get a -> HIT 0 =two%20words
  end

The first line is `history 1` and the last one `end`. Between them is one line
for each request: the client, the request, `->` and the reply. A `?` in place
of the reply means that it was lost or was an error line; that client sends
nothing more. P's lines come first; those of A and B may be mixed. Blank lines
and lines that begin with `#` are skipped. Only the order of each client's
requests counts (sequential consistency).

`history 2` records the order in time: one line when a request begins, and one
when its reply comes. A request that was answered before another began comes
before it (linearizability).

  history 2
  P begin delete a
  P reply NOT_FOUND
  A begin set a 0 =1
  A reply STORED
  B begin get a
  B reply HIT 0 =1
  end

  request                     replies
  set KEY FLAGS BODY          STORED, NOT_STORED, EXISTS, NOT_FOUND
  add KEY FLAGS BODY          the same
  replace KEY FLAGS BODY      the same
  append KEY FLAGS BODY       the same
  prepend KEY FLAGS BODY      the same
  cas KEY FLAGS BODY NUMBER   the same
  get KEY                     HIT FLAGS BODY, MISS
  gets KEY                    HIT FLAGS BODY CAS, MISS
  incr KEY NUMBER             NUMBER N, NOT_FOUND, NOT_A_NUMBER
  decr KEY NUMBER             the same
  delete KEY                  DELETED, NOT_FOUND
  touch KEY                   TOUCHED, NOT_FOUND (the expiry time is 0)

  KEY     1 to 40 of a-z, 0-9 and `-`; a history has at most 8 keys
  FLAGS   a decimal below 2^32
  BODY    `=` and the bytes, at most 65,536; `%` and two hexadecimal digits
          stand for any byte: `=` is empty, `%20` a space, `%25` a `%`
  NUMBER  a decimal below 2^64, as are N and CAS; the number of a `cas` is a
          CAS that a `gets` of the key showed before, to the same client or P

P deletes each key before its first other request, so that what the key holds
is known. A client sends at most 24 requests.

`history 3` is a `history 2` of many clients, which are numbers from 0 to 63. It
has up to 100,000 requests and 1,000 keys. The first request of a key is a
`delete` or a `set` of any client, and is answered before another one of the key
begins. The number of a `cas` is one that a `gets` of any client showed:

  history 3
  0 begin delete a
  0 reply NOT_FOUND
  2 begin set a 0 =5
  11 begin get a
  2 reply STORED
  end

Explanations

An explanation is an order in which the server may have acted. It explains the
history if a cache that acts in this order gives every recorded reply. Each
line names the client whose next request acts, and the number of the item
version that it makes (any number if it makes none). `gets` shows that number
as the cas unique. This one explains the history above:

  explained
  P 0
  P 7
  A 0
  A 1
  B 0
  end

Lines `start KEY NUMBER` before the order name keys that held something before
the run, and the number of that version. After a number may stand `pad` and
then `refuse`, which say what the server chose where the protocol leaves it a
choice: with `pad`, incr or decr fills the new body with spaces to the length
of the old one; with `refuse`, it answers NOT_A_NUMBER to a body that another
server may read as a number.

Lines `explain` and an explanation before `end` have this one judged, and none
searched for:
  confirmed      it explains the history
  not confirmed  it does not

Why a history is unexplained

With `--why`, `unexplained` is followed by the first line that no order can
explain, an order for everything before it, and what a correct cache answers
there. Here A and B each delete what P stored:

  unexplained
  why
  line 9 B reply DELETED
  explained before
  P 0  delete k -> NOT_FOUND
  P 1  set k 0 =old -> STORED
  A 0  delete k -> DELETED
  next B delete k answers NOT_FOUND
  end

Each move has its request and reply, or `?`. A line `next` stands for a request
that has begun: a cache answers this to it after these moves. A line `acted`,
with a sentence, stands for a request that acts in the order and has no reply
before line 9. In a `history 1`, P's lines come first, then A's and then B's,
whatever the order of the input. Each search takes at most as many turns as
`--limit` says; if one is undecided, `undecided at line 9` and `end` are all
that follows `why`. For a `history 3`, `overlap 5 8` stands in place of `next`
and `acted`: the lines where this key's requests began that had no reply before.

Refusals

A text that is no history is refused, as `refused history 5 WrongReply line 4`:
  1 Header        the first line isn't `history 1`, `history 2` or `history 3`
  2 Line          the line or one of its words may not stand there
  3 Number        a number is too large, or has more than 20 digits
  4 Order         a line of P after one of A or B, a request before the reply
                  that its client waits for, or a reply that answers none
  5 WrongReply    the protocol has no such reply to the request
  6 NotCleared    the key's first request is not a `delete` of P; in a `history
                  3`, it is no `delete` or `set`, or not yet answered
  7 UnseenNumber  no `gets` of the key showed the number of this `cas` before
  8 TooMany       more than 24 requests of a client, or more than 8 keys; in a
                  `history 3`, more than 100,000 requests or 1,000 keys
  9 Unended       the line `end` is missing
With `--why` the input's line follows, with a caret under the word at fault and
what was expected there:

  refused history 2 Line line 6
  6 | B get n -> VALUE 0 =0
    |            ^
    | a reply to `get` is HIT FLAGS BODY or MISS; VALUE is written HIT here
";
