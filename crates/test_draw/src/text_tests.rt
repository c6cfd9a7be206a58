//! Pictures as text.

use mc_draw::{Drawing, Form, draw};
use mc_protocol::OutOfMemory;
use std::alloc::Global;
use std::test::Fail;

// A text with a history, and its picture.
type Row = (&'static str, &'static str);

const LIMIT: u64 = 1_000_000;

// Both count, and both are answered 6. What stands before the job and after the history is left out.
static OF_A_JOB: [Row; 2] = [
    (
        "shrunk\nhistory 1\nend\njob 31\n\nhistory 2\nP begin delete a\nP reply NOT_FOUND\nP begin set a 0 =5\nP reply STORED\n\
         A begin incr a 1\nB begin incr a 1\nA reply NUMBER 6\nB reply NUMBER 6\nend\njob 32\n",
        "unexplained: no order of these requests gives these replies\n\n\
         #  lines     request     overlaps  reply\n\
         1  7-8    P  delete a              NOT_FOUND\n\
         2  9-10   P  set a 0 =5            STORED\n\
         3  11-13  A  incr a 1    4         NUMBER 6\n\
         4  12-14  B  incr a 1    3         NUMBER 6\n\
         \x20                                  ^ no order explains this\n\
         \x20                                    a correct server answers\n\
         \x20                                    NUMBER 7\n\
         \nWhat came before is explained if the requests took effect in this order:\n\
         1  P  delete a\n\
         2  P  set a 0 =5\n\
         3  A  incr a 1\n",
    ),
    // The lines of A and B are mixed, and one is blank.
    (
        "job 31\nhistory 1\nP delete a -> NOT_FOUND\nB get a -> MISS\n\nA get a -> ?\nend\n",
        "explained: an order of these requests gives these replies\n\
         No times were recorded: A's and B's requests may have overlapped in any way.\n\n\
         #  lines     request   reply\n\
         1  3      P  delete a  NOT_FOUND\n\
         2  6      A  get a     no reply\n\
         3  4      B  get a     MISS\n\
         \nThe requests took effect in this order:\n\
         1  P  delete a\n\
         2  A  get a\n\
         3  B  get a\n",
    ),
];

static TEXTS: [Row; 4] = [
    // Without times: what was there before, and a number that was filled up.
    (
        "history 1\nP delete a -> DELETED\nP set a 0 =10 -> STORED\nA decr a 1 -> NUMBER 9\nB get a -> HIT 0 =9%20\nend\n",
        "explained: an order of these requests gives these replies\n\
         No times were recorded: A's and B's requests may have overlapped in any way.\n\n\
         #     request      reply\n\
         1  P  delete a     DELETED\n\
         2  P  set a 0 =10  STORED\n\
         3  A  decr a 1     NUMBER 9\n\
         4  B  get a        HIT 0 =9%20\n\
         \nThe requests took effect in this order:\n\
         before: a held an item\n\
         1  P  delete a\n\
         2  P  set a 0 =10\n\
         3  A  decr a 1 (filled up with spaces)\n\
         4  B  get a\n",
    ),
    // A body is cut before an escape that doesn't fit. A request without a reply overlaps all that come after it, and needn't act.
    (
        "history 2\nP begin delete a\nP reply NOT_FOUND\nA begin set a 0 =0123456789abcde%0a%0b\nB begin get a\nB reply MISS\n\
         B begin get a\nB reply MISS\nend\n",
        "explained: an order of these requests gives these replies\n\n\
         #     request                      overlaps  reply\n\
         1  P  delete a                               NOT_FOUND\n\
         2  A  set a 0 =0123456789abcde...  3-4       no reply\n\
         3  B  get a                        2         MISS\n\
         4  B  get a                        2         MISS\n\
         \nThe requests took effect in this order:\n\
         1  P  delete a\n\
         3  B  get a\n\
         4  B  get a\n",
    ),
    // A claim that is right is kept, also if another order would be found first.
    (
        "history 1\nP delete a -> NOT_FOUND\nA get a -> MISS\nB get a -> MISS\nexplain\nP 0\nB 0\nA 0\nend\n",
        "confirmed: the order that the history claims gives these replies\n\
         No times were recorded: A's and B's requests may have overlapped in any way.\n\n\
         #     request   reply\n\
         1  P  delete a  NOT_FOUND\n\
         2  A  get a     MISS\n\
         3  B  get a     MISS\n\
         \nThe requests took effect in this order:\n\
         1  P  delete a\n\
         3  B  get a\n\
         2  A  get a\n",
    ),
    // A claim that is wrong is told, and another order is searched for.
    (
        "history 1\nP delete a -> NOT_FOUND\nA set a 0 =1 -> STORED\nB get a -> MISS\nexplain\nP 0\nA 1\nB 0\nend\n",
        "explained: an order of these requests gives these replies\n\
         No times were recorded: A's and B's requests may have overlapped in any way.\n\
         The order that the history claims does not give these replies.\n\n\
         #     request     reply\n\
         1  P  delete a    NOT_FOUND\n\
         2  A  set a 0 =1  STORED\n\
         3  B  get a       MISS\n\
         \nThe requests took effect in this order:\n\
         1  P  delete a\n\
         3  B  get a\n\
         2  A  set a 0 =1\n",
    ),
];

fn are_drawn(
    alloc: Global,
    rows: &[Row],
    lines: bool,
    job: Option<u64>,
) -> Result<bool, OutOfMemory> {
    'rows: for (text, wanted) in rows {
        match draw(alloc, text.as_bytes(), Form::Text { lines }, LIMIT, job)? {
            Drawing::Drawn(picture) if picture.as_slice() == wanted.as_bytes() => {}
            _ => return Ok(false),
        }
    }
    Ok(true)
}

#[test]
fn draws_the_history_of_a_job_with_lines(rt: HostRuntime) -> Result<(), Fail> {
    assert!(rt; are_drawn(rt.alloc(), &OF_A_JOB, true, Some(31))?);
    Ok(())
}

#[test]
fn draws_first_histories(rt: HostRuntime) -> Result<(), Fail> {
    assert!(rt; are_drawn(rt.alloc(), &TEXTS, false, None)?);
    Ok(())
}
