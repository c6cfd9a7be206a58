//! The scripts of the tests.

/// Two increments of one counter.
pub(crate) const COUNTER: &[u8] = b"script 1\nkeys a\nbudget P 2 26\nbudget A 1 10\nbudget B 1 10\n\
    P\nset a 0 =5\nA\nincr a 1\nB\nincr a 1\nend\n";

/// The same, but that B does nothing.
pub(crate) const LONE_BRANCH: &[u8] =
    b"script 1\nkeys a\nbudget P 2 26\nbudget A 1 10\nbudget B 0 0\n\
    P\nset a 0 =5\nA\nincr a 1\nB\nend\n";
