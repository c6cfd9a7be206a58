//! What each verb is asked alone. `tools/tables` writes this file from `examples/alone`.

use crate::race::Alone;

/// A script for each verb.
pub(crate) static VERBS_ALONE: &[Alone] = &[
    Alone {
        verb: "set",
        script: "script 1\nkeys k\nbudget P 10 1000\nbudget A 0 0\nbudget B 0 0\nP\nset k 0 =5\nget k\n\
            set k 65535 =\nget k\nset k 7 =aaaaaaaaaaaaaaaaaaaaaaaaaaaaaaaaaaaaaaaaaaaaaaaaaaaaaaaaaaaaaaaa\n\
            get k\ndelete k\nset k 1 =x\nget k\nA\nB\nend\n",
    },
    Alone {
        verb: "add",
        script: "script 1\nkeys k\nbudget P 8 1000\nbudget A 0 0\nbudget B 0 0\nP\nadd k 3 =5\nget k\nadd k 4 =6\n\
            get k\ndelete k\nadd k 5 =\nget k\nA\nB\nend\n",
    },
    Alone {
        verb: "replace",
        script: "script 1\nkeys k\nbudget P 9 1000\nbudget A 0 0\nbudget B 0 0\nP\nreplace k 3 =5\nget k\n\
            set k 0 =5\nreplace k 4 =67\nget k\ndelete k\nreplace k 1 =8\nget k\nA\nB\nend\n",
    },
    Alone {
        verb: "cas",
        script: "script 1\nkeys k\nvars unique\nbudget P 11 1000\nbudget A 0 0\nbudget B 0 0\nP\nset k 0 =5\n\
            gets k miss:gone >unique\ncas k 6 =7 $unique\nget k\ncas k 0 =8 $unique\nget k\n\
            gets k miss:gone >unique\ndelete k\ncas k 0 =9 $unique\nget k\ngone:\nA\nB\nend\n",
    },
    Alone {
        verb: "append",
        script: "script 1\nkeys k\nbudget P 8 1000\nbudget A 0 0\nbudget B 0 0\nP\nappend k 9 =5\nget k\n\
            set k 3 =5\nappend k 9 =67\nget k\nappend k 9 =\nget k\nA\nB\nend\n",
    },
    Alone {
        verb: "prepend",
        script: "script 1\nkeys k\nbudget P 8 1000\nbudget A 0 0\nbudget B 0 0\nP\nprepend k 9 =5\nget k\n\
            set k 3 =5\nprepend k 9 =67\nget k\nprepend k 9 =\nget k\nA\nB\nend\n",
    },
    Alone {
        verb: "incr",
        script: "script 1\nkeys k\nbudget P 14 1000\nbudget A 0 0\nbudget B 0 0\nP\nincr k 1\nset k 4 =9\n\
            incr k 1\nget k\nincr k 0\nincr k 18446744073709551615\nget k\nset k 0 =18446744073709551615\n\
            incr k 1\nget k\nset k 0 =x\nincr k 1\nget k\nA\nB\nend\n",
    },
    Alone {
        verb: "decr",
        script: "script 1\nkeys k\nbudget P 11 1000\nbudget A 0 0\nbudget B 0 0\nP\ndecr k 1\nset k 4 =10\n\
            decr k 1\nget k\ndecr k 0\ndecr k 100\nget k\nset k 0 =x\ndecr k 1\nget k\nA\nB\nend\n",
    },
    Alone {
        verb: "delete",
        script: "script 1\nkeys k\nbudget P 6 1000\nbudget A 0 0\nbudget B 0 0\nP\ndelete k\nset k 0 =5\ndelete k\n\
            get k\ndelete k\nA\nB\nend\n",
    },
    Alone {
        verb: "touch",
        script: "script 1\nkeys k\nbudget P 7 1000\nbudget A 0 0\nbudget B 0 0\nP\ntouch k\nset k 8 =5\ntouch k\n\
            get k\ndelete k\ntouch k\nA\nB\nend\n",
    },
    Alone {
        verb: "get",
        script: "script 1\nkeys k\nbudget P 7 1000\nbudget A 0 0\nbudget B 0 0\nP\nget k\nset k 12 =abc\nget k\n\
            get k\ndelete k\nget k\nA\nB\nend\n",
    },
    Alone {
        verb: "gets",
        script: "script 1\nkeys k\nbudget P 17 1000\nbudget A 0 0\nbudget B 0 0\nP\ngets k\nset k 0 =5\ngets k\n\
            gets k\nset k 0 =5\ngets k\nappend k 0 =6\ngets k\nincr k 1\ngets k\ntouch k\ngets k\ndelete k\n\
            gets k\nadd k 0 =5\ngets k\nA\nB\nend\n",
    },
];
