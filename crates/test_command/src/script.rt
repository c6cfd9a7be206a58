//! The script that the tests run: both branches count.

/// P stores 5, and each branch adds 1.
pub(crate) const SCRIPT: &str = "script 1
keys a
budget P 2 26
budget A 1 10
budget B 1 10
P
set a 0 =5
A
incr a 1
B
incr a 1
end
";

// What is written before the history of the branches, if P finds nothing to delete.
const FRONT: &str = "P done
A done
B done
explained
P 0
P 1
A 2
B 3
end
history 2
P begin delete a
P reply NOT_FOUND
P begin set a 0 =5
P reply STORED
";

// The history of the branches: the server answers A first, and only once both requests have come. Which one is noted first, and where B's
// request stands beside A's, is up to the threads.
static BRANCHES: [&str; 4] = [
    "A begin incr a 1\nB begin incr a 1\nA reply NUMBER 6\nB reply NUMBER 7\nend\n",
    "A begin incr a 1\nB begin incr a 1\nB reply NUMBER 7\nA reply NUMBER 6\nend\n",
    "B begin incr a 1\nA begin incr a 1\nA reply NUMBER 6\nB reply NUMBER 7\nend\n",
    "B begin incr a 1\nA begin incr a 1\nB reply NUMBER 7\nA reply NUMBER 6\nend\n",
];

/// Whether this is written of a run of the script in which A is answered 6 and B 7, each once both have begun.
pub(crate) fn is_of_both(written: &[u8]) -> bool {
    let branches = written.strip_prefix(FRONT.as_bytes());
    BRANCHES.iter().any(|one| branches == Some(one.as_bytes()))
}
