//! What is printed of why nothing explains a history.

use crate::memory::again;
use mc_explain::{Verdict, judge, parse_history};
use mc_model::History;
use mc_protocol::OutOfMemory;
use mc_why::{Finding, print_why, request_place, why_unexplained};
use std::alloc::Global;
use std::test::Fail;

// The text of a history that nothing explains, the limit of each search, the number of the line, and what is printed.
type Row = (&'static str, u64, u64, &'static str);

static PRINTED: [Row; 11] = [
    // Both delete what is there once. A's reply stands, and after it B finds nothing.
    (
        "history 2\nP begin delete k\nP reply NOT_FOUND\nP begin set k 0 =old\nP reply STORED\nB begin delete k\n\
         A begin delete k\nA reply DELETED\nB reply DELETED\nend\n",
        u64::MAX,
        9,
        "why\nline 9 B reply DELETED\nexplained before\nP 0  delete k -> NOT_FOUND\nP 1  set k 0 =old -> STORED\n\
         A 0  delete k -> DELETED\nnext B delete k answers NOT_FOUND\nexplained would be NOT_FOUND\nend\n",
    ),
    // The number of the line is the caller's.
    (
        "history 2\nP begin delete k\nP reply DELETED\nP begin get k\nP reply HIT 7 =%20\nend\n",
        u64::MAX,
        u64::MAX,
        "why\nline 18446744073709551615 P reply HIT 7 =%20\nexplained before\nstart k 1  k held an item\n\
         P 0  delete k -> DELETED\nnext P get k answers MISS\nexplained would be MISS\nend\n",
    ),
    // Either branch may come next: A's stands before B's.
    (
        "history 2\nP begin delete a\nP reply NOT_FOUND\nP begin set a 0 =5\nP reply STORED\nA begin incr a 1\nB begin get a\n\
         B reply HIT 0 =7\nend\n",
        u64::MAX,
        7,
        "why\nline 7 B reply HIT 0 =7\nexplained before\nP 0  delete a -> NOT_FOUND\nP 1  set a 0 =5 -> STORED\n\
         next A incr a 1 answers NUMBER 6\nnext B get a answers HIT 0 =5\n\
         explained would be HIT 0 =5\nexplained would be HIT 0 =6\nend\n",
    ),
    // A's request has acted, since B read what it counted.
    (
        "history 2\nP begin delete a\nP reply NOT_FOUND\nP begin set a 0 =5\nP reply STORED\nA begin incr a 1\nB begin get a\n\
         B reply HIT 0 =6\nA reply NUMBER 7\nend\n",
        u64::MAX,
        8,
        "why\nline 8 A reply NUMBER 7\nexplained before\nP 0  delete a -> NOT_FOUND\nP 1  set a 0 =5 -> STORED\n\
         A 2  incr a 1 -> ?\nB 0  get a -> HIT 0 =6\nacted A incr a 1 answers NUMBER 6\n  A's incr has acted already, \
         where it stands in this order, and a cache answers NUMBER 6\nexplained would be NUMBER 6\nend\n",
    ),
    // Without notes the line is that of the request, with its reply. B's second request stands at the place.
    (
        "history 1\nP delete a -> NOT_FOUND\nA get a -> HIT 0 =1\nB set a 0 =1 -> STORED\nB get a -> MISS\nend\n",
        u64::MAX,
        5,
        "why\nline 5 B get a -> MISS\nexplained before\nP 0  delete a -> NOT_FOUND\nB 1  set a 0 =1 -> STORED\n\
         A 0  get a -> HIT 0 =1\nnext B get a answers HIT 0 =1\nexplained would be HIT 0 =1\nend\n",
    ),
    // A's is at the place, which stands before those of B, whatever the text has first.
    (
        "history 1\nP delete a -> NOT_FOUND\nB get a -> ?\nA set a 3 =x -> NOT_STORED\nend\n",
        u64::MAX,
        4,
        "why\nline 4 A set a 3 =x -> NOT_STORED\nexplained before\nP 0  delete a -> NOT_FOUND\n\
         next A set a 3 =x answers STORED\nexplained would be STORED\nend\n",
    ),
    // One of P's.
    (
        "history 1\nP delete a -> NOT_FOUND\nP touch a -> TOUCHED\nend\n",
        u64::MAX,
        3,
        "why\nline 3 P touch a -> TOUCHED\nexplained before\nP 0  delete a -> NOT_FOUND\n\
         next P touch a answers NOT_FOUND\nexplained would be NOT_FOUND\nend\n",
    ),
    // A's request was not answered and has acted, and B's comes next.
    (
        "history 1\nP delete a -> NOT_FOUND\nP set a 0 =5 -> STORED\nA incr a 1 -> ?\nB get a -> HIT 0 =6\nB get a -> HIT 0 =7\nend\n",
        u64::MAX,
        6,
        "why\nline 6 B get a -> HIT 0 =7\nexplained before\nP 0  delete a -> NOT_FOUND\nP 1  set a 0 =5 -> STORED\n\
         A 2  incr a 1 -> ?\nB 0  get a -> HIT 0 =6\nacted A incr a 1 answers NUMBER 6\n  A's incr has acted already, \
         where it stands in this order, and a cache answers NUMBER 6\nnext B get a answers HIT 0 =6\nexplained would be HIT 0 =6\nend\n",
    ),
    // A key that reads as a mark of a move isn't shown beside one.
    (
        "history 1\nP delete pad -> NOT_FOUND\nP delete refuse -> NOT_FOUND\nP delete a -> DELETED\nP get a -> HIT 0 =\nend\n",
        u64::MAX,
        5,
        "why\nline 5 P get a -> HIT 0 =\nexplained before\nstart a 1  a held an item\nP 0\nP 0\nP 0  delete a -> DELETED\n\
         next P get a answers MISS\nexplained would be MISS\nend\n",
    ),
    // What A stored has a number that no `gets` showed, and B hasn't begun before A was answered.
    (
        "history 2\nP begin delete k\nP reply NOT_FOUND\nP begin set k 0 =10\nP reply STORED\nP begin gets k\nP reply HIT 0 =10 7\n\
         A begin incr k 1\nA reply NUMBER 11\nB begin gets k\nB reply HIT 0 =10 7\nend\n",
        u64::MAX,
        11,
        "why\nline 11 B reply HIT 0 =10 7\nexplained before\nP 0  delete k -> NOT_FOUND\nP 7  set k 0 =10 -> STORED\n\
         P 0  gets k -> HIT 0 =10 7\nA 1  incr k 1 -> NUMBER 11\nnext B gets k answers HIT 0 =11 1\n\
         explained would be HIT 0 =11 (a new number)\nend\n",
    ),
    // Of three requests the first two are tried first, and one turn isn't enough for them.
    (
        "history 1\nP delete a -> NOT_FOUND\nP set a 0 =5 -> STORED\nA get a -> MISS\nend\n",
        1,
        4,
        "why\nundecided at line 4\nend\n",
    ),
];

// What is found of the history, once it is known that nothing explains it.
fn found_of(alloc: Global, history: &History, limit: u64) -> Result<Option<Finding>, OutOfMemory> {
    let (verdict, _) = judge(alloc, history, u64::MAX)?;
    match verdict {
        Verdict::Unexplained => Ok(Some(why_unexplained(alloc, history, limit)?)),
        Verdict::Explained(_) | Verdict::Undecided => Ok(None),
    }
}

fn printed_of(alloc: Global, row: &Row) -> Result<Vec<u8>, Fail> {
    let (text, limit, line, _) = row;
    let (history, _) = parse_history(alloc, text.as_bytes())?;
    let mut printed = Vec::new(alloc);
    if let Some(finding) = found_of(alloc, &history, *limit)? {
        again(|| print_why(&finding, &history, *line, &mut printed))?;
    }
    Ok(printed)
}

fn is_printed_as_found(alloc: Global, row: &Row) -> Result<bool, Fail> {
    let printed = printed_of(alloc, row)?;
    Ok(printed.as_slice() == row.3.as_bytes())
}

// One history with what explains the part before, a request that has acted and one that comes next: few enough allocations that each of
// them can be refused.
#[test]
fn prints_one_finding(rt: HostRuntime) -> Result<(), Fail> {
    assert!(rt; is_printed_as_found(rt.alloc(), &PRINTED[7])?);
    Ok(())
}

#[test]
fn prints_what_is_found(rt: HostRuntime) -> Result<(), Fail> {
    for row in &PRINTED {
        let printed = printed_of(rt.alloc(), row)?;
        assert!(rt; printed.as_slice() == row.3.as_bytes(), "{}", row.0);
    }
    Ok(())
}

// After the last place the section is B.
static PLACES: [(&str, usize); 6] = [("P", 0), ("P", 1), ("A", 0), ("B", 0), ("B", 1), ("B", 2)];

#[test]
fn finds_the_request_of_each_place(rt: HostRuntime) -> Result<(), Fail> {
    let text =
        "history 1\nP delete a -> NOT_FOUND\nP get a -> MISS\nB get a -> MISS\nA get a -> MISS\nB get a -> MISS\nend\n";
    let (history, _) = parse_history(rt.alloc(), text.as_bytes())?;
    for (place, wanted) in PLACES.iter().enumerate() {
        let (section, index) = request_place(&history, place);
        assert!(rt; section.word() == wanted.0 && index == wanted.1, "{place}");
    }
    Ok(())
}
