//! Which replies would be explained at the place from which on nothing explains a history: bodies, and the numbers of versions.
//! `cases/judge/why.cases` has replies of words alone, and numbers.

use crate::why_tests::found_of;
use mc_explain::parse_history;
use mc_protocol::Reply;
use mc_why::{Finding, Form};
use mc_words::print_reply_words;
use std::alloc::Global;
use std::test::Fail;

// The text of a history that nothing explains, the limit of each search, and the forms that are to be told, each on a line.
type Row = (&'static str, u64, &'static str);

static BODIES: [Row; 7] = [
    // The bodies were joined in either order.
    (
        "history 2\nP begin delete k\nP reply NOT_FOUND\nP begin set k 7 =x\nP reply STORED\nA begin append k 0 =a\n\
         B begin append k 0 =b\nA reply STORED\nB reply STORED\nA begin get k\nA reply HIT 7 =xa\nend\n",
        u64::MAX,
        "HIT 7 =xab\nHIT 7 =xba\n",
    ),
    // A shorter number may be followed by a space.
    (
        "history 1\nP delete k -> NOT_FOUND\nP set k 0 =10 -> STORED\nP decr k 1 -> NUMBER 9\nP get k -> HIT 0 =8\nend\n",
        u64::MAX,
        "HIT 0 =9\nHIT 0 =9%20\n",
    ),
    // Nothing is there before A stores, and B has begun before.
    (
        "history 2\nP begin delete k\nP reply NOT_FOUND\nA begin set k 0 =a\nB begin get k\nB reply HIT 0 =b\nend\n",
        u64::MAX,
        "MISS\nHIT 0 =a\n",
    ),
    // Other keys don't matter.
    (
        "history 1\nP delete k -> NOT_FOUND\nP delete l -> NOT_FOUND\nA set l 0 =a -> STORED\nA set k 0 =b -> STORED\n\
         B get l -> MISS\nB get k -> HIT 0 =a\nend\n",
        u64::MAX,
        "MISS\nHIT 0 =b\n",
    ),
    // Four bodies.
    (
        "history 1\nP delete k -> NOT_FOUND\nP set k 0 =1 -> STORED\nA set k 0 =2 -> STORED\nA set k 0 =3 -> STORED\n\
         A set k 0 =4 -> STORED\nB get k -> MISS\nend\n",
        u64::MAX,
        "HIT 0 =1\nHIT 0 =2\nHIT 0 =3\nHIT 0 =4\n",
    ),
    // Five are not told.
    (
        "history 1\nP delete k -> NOT_FOUND\nP set k 0 =1 -> STORED\nA set k 0 =2 -> STORED\nA set k 0 =3 -> STORED\n\
         A set k 0 =4 -> STORED\nA set k 0 =5 -> STORED\nB get k -> MISS\nend\n",
        u64::MAX,
        "",
    ),
    // That one of them was answered 3 leaves out those before.
    (
        "history 1\nP delete k -> NOT_FOUND\nP set k 0 =1 -> STORED\nA set k 0 =2 -> STORED\nA set k 0 =3 -> STORED\n\
         A set k 0 =4 -> STORED\nA set k 0 =5 -> STORED\nB get k -> HIT 0 =3\nB get k -> HIT 0 =2\nend\n",
        u64::MAX,
        "HIT 0 =3\nHIT 0 =4\nHIT 0 =5\n",
    ),
];

static SHOWN: [Row; 4] = [
    // A stale read of a version that A has replaced: the new one has a number that nobody has seen.
    (
        "history 2\nP begin delete k\nP reply NOT_FOUND\nP begin set k 0 =a\nP reply STORED\nP begin gets k\nP reply HIT 0 =a 7\n\
         A begin set k 0 =b\nA reply STORED\nB begin gets k\nB reply HIT 0 =a 7\nend\n",
        u64::MAX,
        "HIT 0 =b new 1\n",
    ),
    // The same while A waits. The smallest number that wasn't shown is 2.
    (
        "history 2\nP begin delete k\nP reply NOT_FOUND\nP begin set k 0 =a\nP reply STORED\nP begin gets k\nP reply HIT 0 =a 1\n\
         A begin set k 0 =b\nB begin gets k\nB reply HIT 0 =c 1\nend\n",
        u64::MAX,
        "HIT 0 =a 1\nHIT 0 =b new 2\n",
    ),
    // What A stored was shown with another number than what P stored.
    (
        "history 1\nP delete k -> NOT_FOUND\nP set k 0 =a -> STORED\nP gets k -> HIT 0 =a 3\nA set k 0 =a -> STORED\n\
         A gets k -> HIT 0 =a 1\nB gets k -> HIT 0 =a 3\nB gets k -> MISS\nend\n",
        u64::MAX,
        "HIT 0 =a 3\nHIT 0 =a 1\n",
    ),
    // The number of a cas is one that was shown.
    (
        "history 1\nP delete k -> NOT_FOUND\nP set k 0 =a -> STORED\nP gets k -> HIT 0 =a 2\nA cas k 0 =b 2 -> STORED\n\
         B gets k -> HIT 0 =b 2\nend\n",
        u64::MAX,
        "HIT 0 =a 2\nHIT 0 =b new 1\n",
    ),
];

// A's count explains one of two replies after six turns, and the other after four; that nothing explains 7 is seen after five.
static LIMITED: [Row; 2] = [
    (
        "history 1\nP delete k -> NOT_FOUND\nP set k 0 =9 -> STORED\nA decr k 1 -> NUMBER 8\nB get k -> HIT 0 =7\nend\n",
        6,
        "HIT 0 =9\nHIT 0 =8\n",
    ),
    (
        "history 1\nP delete k -> NOT_FOUND\nP set k 0 =9 -> STORED\nA decr k 1 -> NUMBER 8\nB get k -> HIT 0 =7\nend\n",
        5,
        "",
    ),
];

// Appends the words of a form: after a hit with a new number the word `new` and the number.
fn push_form(lines: &mut Vec<u8>, form: &Form) -> Result<(), Fail> {
    match form {
        Form::Reply(reply) => print_reply_words(reply, lines)?,
        Form::NewNumber {
            flags,
            body,
            number,
        } => {
            let alloc = *lines.allocator();
            let hit = Reply::Hit {
                flags: *flags,
                body: body.copy(alloc)?,
                cas: None,
            };
            print_reply_words(&hit, lines)?;
            let number = *number;
            let rest = format!(in alloc; " new {number}")?;
            lines.extend_from_slice(rest.as_bytes())?;
        }
    }
    lines.push(b'\n')?;
    Ok(())
}

fn lines_of(alloc: Global, forms: &[Form]) -> Result<Vec<u8>, Fail> {
    let mut lines = Vec::new(alloc);
    for form in forms {
        push_form(&mut lines, form)?;
    }
    Ok(lines)
}

fn are_told(alloc: Global, row: &Row) -> Result<bool, Fail> {
    let (text, limit, wanted) = row;
    let (history, _) = parse_history(alloc, text.as_bytes())?;
    match found_of(alloc, &history, *limit)? {
        Some(Finding::Cause(cause)) => {
            let lines = lines_of(alloc, cause.forms.as_slice())?;
            Ok(lines.as_slice() == wanted.as_bytes())
        }
        Some(Finding::Undecided(_)) | None => Ok(false),
    }
}

#[test]
fn tells_bodies(rt: HostRuntime) -> Result<(), Fail> {
    for row in &BODIES {
        assert!(rt; are_told(rt.alloc(), row)?, "{}", row.0);
    }
    Ok(())
}

#[test]
fn tells_shown_and_new_numbers(rt: HostRuntime) -> Result<(), Fail> {
    for row in &SHOWN {
        assert!(rt; are_told(rt.alloc(), row)?, "{}", row.0);
    }
    Ok(())
}

#[test]
fn tells_none_beyond_the_limit(rt: HostRuntime) -> Result<(), Fail> {
    for row in &LIMITED {
        assert!(rt; are_told(rt.alloc(), row)?, "{}", row.0);
    }
    Ok(())
}
