//! Where timelines end.
use crate::playing::Step::{Client, Server};
use crate::playing::{Step, text_of};
use mc_record::Notebook;
use std::alloc::{AllocError, Global};
use std::test::Fail;

/// What is said after a set of `a` was answered, and the text of it.
type Row = (&'static [Step], &'static str);

static ROWS: [Row; 10] = [
    // a request that has no reply, and the start behind it, once it was executed
    (
        &[
            Client(0, b"set a 0 0 1 noreply\r\n2\r\n"),
            Client(0, b"set a 0 0 1\r\n3\r\n"),
            Server(0, b"STORED\r\n"),
            Client(0, b"set a 0 0 1\r\n4\r\n"),
            Server(0, b"STORED\r\n"),
        ],
        "# k1 ends here: a request has no reply
# k2 is \"a\"
0 begin set k2 0 =4
0 reply STORED
",
    ),
    // a time of expiry
    (
        &[
            Client(0, b"set a 0 100 1\r\n2\r\n"),
            Server(0, b"STORED\r\n"),
        ],
        "# k1 ends here: a timeline has no words for a request\n",
    ),
    // the reply to a request of a timeline that ended isn't noted
    (
        &[
            Client(1, b"get a\r\n"),
            Client(0, b"gat 10 a b\r\n"),
            Server(0, b"VALUE a 0 1\r\n1\r\nEND\r\n"),
            Server(1, b"VALUE a 0 1\r\n1\r\nEND\r\n"),
        ],
        "1 begin get k1\n# k1 ends here: a timeline has no words for a request\n",
    ),
    // a meta command, with the block after its line
    (
        &[
            Client(0, b"ms a 2 T0\r\nhi\r\nmg a v\r\n"),
            Server(0, b"HD\r\nVA 2\r\nhi\r\n"),
            Client(0, b"delete a\r\n"),
            Server(0, b"DELETED\r\n"),
        ],
        "# k1 ends here: a timeline has no words for a request
# k2 is \"a\"
0 begin delete k2
0 reply DELETED
",
    ),
    // all items are removed
    (
        &[Client(2, b"flush_all\r\n"), Server(2, b"OK\r\n")],
        "# flush_all by 2: every key ends here\n",
    ),
    // and none starts before that was answered
    (
        &[
            Client(2, b"flush_all\r\n"),
            Client(0, b"set a 0 0 1\r\n2\r\n"),
            Server(0, b"STORED\r\n"),
            Server(2, b"OK\r\n"),
            Client(0, b"delete a\r\n"),
            Server(0, b"NOT_FOUND\r\n"),
        ],
        "# flush_all by 2: every key ends here
# k2 is \"a\"
0 begin delete k2
0 reply NOT_FOUND
",
    ),
    // nobody knows what these bytes do
    (
        &[
            Client(1, b"hello\r\n"),
            Server(1, b"ERROR\r\n"),
            Client(0, b"delete a\r\n"),
            Server(0, b"DELETED\r\n"),
        ],
        "# bytes that aren't understood by 1: every key ends here, and none starts again\n",
    ),
    // nobody asked for this reply
    (
        &[Server(1, b"STORED\r\n")],
        "# bytes that aren't understood by 1: every key ends here, and none starts again\n",
    ),
    // the number was never shown
    (
        &[
            Client(1, b"cas a 0 0 1 7\r\n2\r\n"),
            Server(1, b"EXISTS\r\n"),
        ],
        "# k1 ends here: a cas has a number that wasn't shown since it began\n",
    ),
    // an error says nothing of what was done
    (
        &[
            Client(1, b"append a 0 0 1\r\n2\r\n"),
            Server(1, b"SERVER_ERROR out of memory\r\n"),
        ],
        "1 begin append k1 0 =2\n# k1 ends here: a timeline has no words for the reply\n",
    ),
];

/// What every row begins with.
const FRONT: &str = "history 3\n# k1 is \"a\"\n0 begin set k1 0 =1\n0 reply STORED\n";

/// The steps behind a set of `a`.
fn behind_a_set(alloc: Global, steps: &[Step]) -> Result<Vec<Step>, AllocError> {
    let mut all = Vec::new(alloc);
    all.push(Client(0, b"set a 0 0 1\r\n1\r\n"))?;
    all.push(Server(0, b"STORED\r\n"))?;
    for step in steps {
        all.push(*step)?;
    }
    Ok(all)
}

#[test]
fn ends_timelines(rt: HostRuntime) -> Result<(), Fail> {
    for (steps, text) in &ROWS {
        let steps = behind_a_set(rt.alloc(), steps)?;
        let written = text_of(&rt, rt.alloc(), steps.as_slice())?;
        let expected = format!(in rt.alloc(); "{FRONT}{text}end\n")?;
        assert!(rt; written.as_slice() == expected.as_bytes());
    }
    Ok(())
}

/// How many connections are taken of 65.
fn taken(alloc: Global) -> Result<usize, AllocError> {
    let mut notebook = Notebook::new(alloc, false)?;
    let mut count = 0usize;
    for _ in 0..65 {
        if notebook.open().is_some() {
            count = count.saturating_add(1);
        }
    }
    Ok(count)
}

#[test]
fn takes_64_connections(rt: HostRuntime) -> Result<(), Fail> {
    assert!(rt; taken(rt.alloc())? == 64);
    Ok(())
}
