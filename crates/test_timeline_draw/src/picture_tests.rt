//! Pictures of the first timeline of a text.

use mc_protocol::OutOfMemory;
use mc_timeline_draw::{Drawing, Form, draw};
use std::alloc::Global;
use std::test::Fail;

const LIMIT: u64 = 1_000_000;

// Three increments of 5 are answered 7, 6 and 7. What stands before the job and after the timeline is left out.
static OF_A_JOB: (&str, &str) = (
    "job 31\nhistory 3\n0 begin delete a\n0 reply NOT_FOUND\n0 begin set a 0 =5\n0 reply STORED\n1 begin incr a 1\n2 begin incr a 1\n\
     11 begin incr a 1\n1 reply NUMBER 7\n2 reply NUMBER 6\n11 reply NUMBER 7\nend\njob 32\n",
    "unexplained: no order of these requests gives these replies (key a)\n\n\
     #  lines      request     overlaps  reply\n\
     1  3-4    0   delete a              NOT_FOUND\n\
     2  5-6    0   set a 0 =5            STORED\n\
     3  7-10   1   incr a 1    4-5       NUMBER 7\n\
     4  8-11   2   incr a 1    3,5       NUMBER 6\n\
     5  9-12   11  incr a 1    3-4       NUMBER 7\n\
     \x20                                   ^ no order explains this\n\
     \nWhat came before is explained if the requests took effect in this order:\n\
     1  0   delete a\n\
     2  0   set a 0 =5\n\
     4  2   incr a 1\n\
     3  1   incr a 1\n",
);

// Nothing explains b, on which client 1 has its second and third request.
static OF_THE_SECOND_KEY: (&str, &str) = (
    "history 3\n1 begin delete a\n1 reply NOT_FOUND\n1 begin set b 0 =1\n1 reply STORED\n1 begin get b\n1 reply MISS\nend\n",
    "unexplained: no order of these requests gives these replies (key b)\n\n\
     #  lines     request     reply\n\
     1  4-5    1  set b 0 =1  STORED\n\
     2  6-7    1  get b       MISS\n\
     \x20                        ^ no order explains this\n\
     \nWhat came before is explained if the requests took effect in this order:\n\
     1  1  set b 0 =1\n",
);

// As in the picture of a history: the first bar begins at 48 and is as wide as `NOT_FOUND`; the second begins 16 later, and goes on 16
// beyond its 14 columns.
static SHAPES: (&str, &[&str]) = (
    "history 3\n7 begin delete a\n7 reply NOT_FOUND\n7 begin set a 0 =<%0a&\nend\n",
    &[
        "<title id=\"title\">explained: an order of these requests gives these replies (key a)</title>\n",
        "<text class=\"lane\" x=\"16\" y=\"96\">7</text>\n",
        "<g class=\"right\"><title>7 delete a: NOT_FOUND</title><path class=\"bar\" d=\"M120 80H48V102H120Z\"/></g>\n",
        "<title>7 set a 0 =&lt;%0a&amp;: no reply</title><path class=\"bar\" d=\"M264 80H136V102H264\"/></g>\n",
        "<circle class=\"mark\" cx=\"84\" cy=\"91\" r=\"10\"/><text class=\"number\" x=\"84\" y=\"95\">1</text>\n",
    ],
);

fn has(text: &[u8], part: &[u8]) -> bool {
    (0..text.len()).any(|start| text.split_at(start.min(text.len())).1.starts_with(part))
}

fn is_drawn(
    alloc: Global,
    text: &str,
    job: Option<u64>,
    wanted: &str,
) -> Result<bool, OutOfMemory> {
    let form = Form::Text { lines: true };
    match draw(alloc, text.as_bytes(), form, LIMIT, job)? {
        Drawing::Drawn(picture) => Ok(picture.as_slice() == wanted.as_bytes()),
        Drawing::Refused(_) => Ok(false),
    }
}

fn are_shapes_drawn(alloc: Global) -> Result<bool, OutOfMemory> {
    let (text, parts) = SHAPES;
    match draw(alloc, text.as_bytes(), Form::Svg, LIMIT, None)? {
        Drawing::Drawn(picture) => Ok(
            parts
                .iter()
                .all(|part| has(picture.as_slice(), part.as_bytes())),
        ),
        Drawing::Refused(_) => Ok(false),
    }
}

#[test]
fn draws_the_timeline_of_a_job_with_lines(rt: HostRuntime) -> Result<(), Fail> {
    let (text, wanted) = OF_A_JOB;
    assert!(rt; is_drawn(rt.alloc(), text, Some(31), wanted)?);
    Ok(())
}

#[test]
fn counts_the_moves_of_a_key(rt: HostRuntime) -> Result<(), Fail> {
    let (text, wanted) = OF_THE_SECOND_KEY;
    assert!(rt; is_drawn(rt.alloc(), text, None, wanted)?);
    Ok(())
}

#[test]
fn draws_bars_and_marks_of_clients(rt: HostRuntime) -> Result<(), Fail> {
    assert!(rt; are_shapes_drawn(rt.alloc())?);
    Ok(())
}
