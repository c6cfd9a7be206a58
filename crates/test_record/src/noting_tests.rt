//! What is noted, and what isn't.
use crate::playing::Step::{Client, Close, Server};
use crate::playing::{Step, text_of};
use std::test::Fail;

/// What is said, and the text of it.
type Row = (&'static [Step], &'static str);

static ROWS: [Row; 9] = [
    // of two requests outstanding at once each has a number of its own
    (
        &[
            Client(0, b"set a 0 0 1\r\n1\r\n"),
            Server(0, b"STORED\r\n"),
            Client(0, b"incr a 1\r\nget a\r\n"),
            Server(0, b"2\r\nVALUE a 0 1\r\n2\r\nEND\r\n"),
        ],
        "history 3
# k1 is \"a\"
0 begin set k1 0 =1
0 reply STORED
0 begin incr k1 1
1 begin get k1
0 reply NUMBER 2
1 reply HIT 0 =2
end
",
    ),
    // the bytes may come in any pieces
    (
        &[
            Client(0, b"del"),
            Client(0, b"ete user:17"),
            Client(0, b"\r"),
            Client(0, b"\n"),
            Server(0, b"NOT_F"),
            Server(0, b"OUND\r"),
            Server(0, b"\n"),
        ],
        "history 3\n# k1 is \"user:17\"\n0 begin delete k1\n0 reply NOT_FOUND\nend\n",
    ),
    // two connections
    (
        &[
            Client(0, b"delete a\r\n"),
            Server(0, b"DELETED\r\n"),
            Client(1, b"add a 5 0 2\r\nhi\r\n"),
            Client(0, b"gets a\r\n"),
            Server(1, b"STORED\r\n"),
            Server(0, b"VALUE a 5 2 77\r\nhi\r\nEND\r\n"),
            Client(1, b"cas a 0 0 1 77\r\nx\r\n"),
            Server(1, b"STORED\r\n"),
        ],
        "history 3
# k1 is \"a\"
0 begin delete k1
0 reply DELETED
1 begin add k1 5 =hi
0 begin gets k1
1 reply STORED
0 reply HIT 5 =hi 77
1 begin cas k1 0 =x 77
1 reply STORED
end
",
    ),
    // what says nothing of one key is left out, and its replies are passed over
    (
        &[
            Client(0, b"set a 0 0 1\r\n1\r\n"),
            Server(0, b"STORED\r\n"),
            Client(
                0,
                b"stats\r\nversion\r\nget a b\r\nverbosity 1\r\nget a\r\n",
            ),
            Server(0, b"STAT pid 1\r\nSTAT time 2\r\nEND\r\nVERSION 1.6\r\n"),
            Server(
                0,
                b"VALUE a 0 1\r\n1\r\nVALUE b 0 5\r\nEND\r\n\r\nEND\r\nOK\r\n",
            ),
            Server(0, b"VALUE a 0 1\r\n1\r\nEND\r\n"),
        ],
        "history 3
# k1 is \"a\"
0 begin set k1 0 =1
0 reply STORED
0 begin get k1
0 reply HIT 0 =1
end
",
    ),
    // no other request begins before the first one was answered
    (
        &[
            Client(0, b"set a 0 0 1\r\n1\r\n"),
            Client(1, b"get a\r\n"),
            Server(0, b"STORED\r\n"),
            Server(1, b"END\r\n"),
            Client(1, b"delete a\r\n"),
            Server(1, b"DELETED\r\n"),
        ],
        "history 3
# k1 is \"a\"
0 begin set k1 0 =1
# k1 ends here: a request began before its first one was answered
# k2 is \"a\"
1 begin delete k2
1 reply DELETED
end
",
    ),
    // a key starts with a delete or a set
    (
        &[
            Client(0, b"get a\r\n"),
            Server(0, b"END\r\n"),
            Client(0, b"set b 0 0 1\r\n1\r\n"),
            Server(0, b"STORED\r\n"),
        ],
        "history 3\n# k1 is \"b\"\n0 begin set k1 0 =1\n0 reply STORED\nend\n",
    ),
    // nothing starts while a request of the key is outstanding
    (
        &[
            Client(1, b"get a\r\n"),
            Client(0, b"set a 0 0 1\r\n1\r\n"),
            Server(0, b"STORED\r\n"),
            Server(1, b"END\r\n"),
            Client(0, b"set a 0 0 1\r\n2\r\n"),
            Server(0, b"STORED\r\n"),
        ],
        "history 3\n# k1 is \"a\"\n0 begin set k1 0 =2\n0 reply STORED\nend\n",
    ),
    // nor where one was lost
    (
        &[
            Client(1, b"get a\r\n"),
            Close(1),
            Client(0, b"set a 0 0 1\r\n1\r\n"),
            Server(0, b"STORED\r\n"),
            Client(0, b"set a 0 0 1\r\n2\r\n"),
            Server(0, b"STORED\r\n"),
        ],
        "history 3\nend\n",
    ),
    // a number is given again after a connection that waits for nothing
    (
        &[
            Client(0, b"delete a\r\n"),
            Server(0, b"DELETED\r\n"),
            Close(0),
            Client(1, b"get a\r\n"),
            Close(1),
            Client(2, b"get a\r\n"),
            Server(2, b"END\r\n"),
        ],
        "history 3
# k1 is \"a\"
0 begin delete k1
0 reply DELETED
0 begin get k1
1 begin get k1
1 reply MISS
end
",
    ),
];

#[test]
fn notes_what_is_said(rt: HostRuntime) -> Result<(), Fail> {
    for (steps, text) in &ROWS {
        let written = text_of(&rt, rt.alloc(), steps)?;
        assert!(rt; written.as_slice() == text.as_bytes());
    }
    Ok(())
}
