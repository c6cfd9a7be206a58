//! The text that is printed of a script.

use crate::printed::{is_printed_as, printed};
use std::test::Fail;

// Two increments of one counter.
const COUNTER: &str = "script 1
keys a
budget P 2 26
budget A 1 10
budget B 1 10
P
set a 0 =5
A
incr a 1
B
incr a 1
end
";

/// Every mark, and labels at the end of a section: of two changes `+` goes before `-`, and both go before jumps.
pub(crate) const MARKS_PRINTED: &str = "script 1
keys item
flags ready done late
vars unique count
budget P 2 100
budget A 2 100
budget B 2 100
P
set item 0 =5 +ready
A
gets item ?ready miss:gone >unique
cas item 0 =7 $unique +done -ready exists:gone
gone:
B
incr item 1 !late notfound:gone notnumber:gone
bind count
decr item $count
gone:
end
";

// Comments, blank lines, tabs, CRs, zeros that lead, and marks out of their order.
const UNTIDY: &str = "# a comment\r
  script \t 1 \r

keys  a\tb-1\r
flags f g h
vars v w
budget P 024 08192
budget A 5 200
budget B 0 0
P
 append a 07 =5aZ -h +g -f ?f !g ?h
A
start:
# inside
gets\tb-1 >v miss:gone !g ?f
cas a 1 = $v  exists:gone -g stored:last ?g
goto gone
one:
two:
incr a 18446744073709551615 notnumber:gone notfound:last
gone:
last:
B
decr a $w >w
halt
bind v
touch b-1
set:
end
# after the end
";

const TIDY: &str = "script 1
keys a b-1
flags f g h
vars v w
budget P 24 8192
budget A 5 200
budget B 0 0
P
append a 7 =5aZ ?f ?h !g +g -f -h
A
start:
gets b-1 ?f !g miss:gone >v
cas a 1 = $v ?g -g stored:last exists:gone
goto gone
one:
two:
incr a 18446744073709551615 notfound:last notnumber:gone
gone:
last:
B
decr a $w >w
halt
bind v
touch b-1
set:
end
";

// Each script with its printed text, which is printed of itself.
static PRINTED: [(&str, &str); 4] = [
    (COUNTER, COUNTER),
    (MARKS_PRINTED, MARKS_PRINTED),
    (UNTIDY, TIDY),
    (TIDY, TIDY),
];

#[test]
fn prints_in_one_order(rt: HostRuntime) -> Result<(), Fail> {
    for (text, wanted) in &PRINTED {
        assert!(rt; is_printed_as(rt.alloc(), text, wanted)?, "{text}");
    }
    Ok(())
}

#[test]
fn appends(rt: HostRuntime) -> Result<(), Fail> {
    let out = printed(rt.alloc(), COUNTER, b"before\n")?;
    assert!(rt; out.as_slice().strip_prefix(b"before\n") == Some(COUNTER.as_bytes()));
    Ok(())
}
