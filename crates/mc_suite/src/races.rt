//! The races that are looked for. `tools/tables` writes this file from `examples/races`.

use crate::race::Race;

/// Each race, in the order of their names.
pub(crate) static RACES: &[Race] = &[
    Race {
        name: "add-over-set",
        sentence: "an add is stored over an item that a set stored meanwhile",
        verbs: "set add delete get",
        scripts: &[
            "script 1\nkeys k\nbudget P 1 20\nbudget A 1 20\nbudget B 2 40\nP\nA\nadd k 0 =a\nB\n\
                set k 0 =b\nget k\nend\n",
            "script 1\nkeys k\nbudget P 1 20\nbudget A 4 60\nbudget B 4 60\nP\nA\nadd k 0 =a\ndelete k\n\
                add k 0 =c\ndelete k\nB\nset k 0 =b\nget k\nset k 0 =d\nget k\nend\n",
        ],
    },
    Race {
        name: "add-twice",
        sentence: "two adds of an absent key at once, and both are stored",
        verbs: "add delete",
        scripts: &[
            "script 1\nkeys k\nbudget P 1 20\nbudget A 1 40\nbudget B 1 40\nP\nA\nadd k 0 =a\nB\n\
                add k 0 =b\nend\n",
            "script 1\nkeys k\nbudget P 1 20\nbudget A 8 120\nbudget B 8 120\nP\nA\nadd k 0 =a\ndelete k\n\
                add k 0 =a\ndelete k\nadd k 0 =a\ndelete k\nadd k 0 =a\ndelete k\nB\nadd k 0 =b\ndelete k\n\
                add k 0 =b\ndelete k\nadd k 0 =b\ndelete k\nadd k 0 =b\ndelete k\nend\n",
        ],
    },
    Race {
        name: "cas-two-winners",
        sentence: "two cas by one number, and both are stored",
        verbs: "set cas gets",
        scripts: &[
            "script 1\nkeys k\nvars unique\nbudget P 2 40\nbudget A 2 60\nbudget B 2 60\nP\nset k 0 =old\n\
                A\ngets k miss:gone >unique\ncas k 0 =a $unique\ngone:\nB\ngets k miss:gone >unique\n\
                cas k 0 =b $unique\ngone:\nend\n",
            "script 1\nkeys k\nvars unique\nbudget P 2 40\nbudget A 6 140\nbudget B 6 140\nP\n\
                set k 0 =old\nA\ngets k miss:gone >unique\ncas k 0 =a $unique\ngets k miss:gone >unique\n\
                cas k 0 =c $unique\ngets k miss:gone >unique\ncas k 0 =e $unique\ngone:\nB\n\
                gets k miss:gone >unique\ncas k 0 =b $unique\ngets k miss:gone >unique\ncas k 0 =d $unique\n\
                gets k miss:gone >unique\ncas k 0 =f $unique\ngone:\nend\n",
        ],
    },
    Race {
        name: "cas-undoes",
        sentence: "a cas is stored though its item changed after its number was read",
        verbs: "set replace cas append prepend incr decr touch get gets",
        scripts: &[
            "script 1\nkeys k\nvars unique\nbudget P 2 40\nbudget A 2 60\nbudget B 3 40\nP\nset k 0 =old\n\
                A\ngets k miss:gone >unique\ncas k 0 =a $unique\ngone:\nB\nget k\nappend k 0 =b\nget k\nend\n",
            "script 1\nkeys k\nvars unique\nbudget P 2 40\nbudget A 8 200\nbudget B 8 100\nP\nset k 0 =50\n\
                A\ngets k miss:gone >unique\ncas k 0 =60 $unique\ngets k miss:gone >unique\n\
                cas k 0 =61 $unique\ngets k miss:gone >unique\ncas k 0 =62 $unique\ngets k miss:gone >unique\n\
                cas k 0 =63 $unique\ngone:\nB\ntouch k\nincr k 1\ntouch k\ndecr k 2\ntouch k\nincr k 3\n\
                touch k\ndecr k 4\nend\n",
            "script 1\nkeys k\nvars unique\nbudget P 2 40\nbudget A 8 180\nbudget B 9 120\nP\n\
                set k 0 =old\nA\ngets k miss:gone >unique\ncas k 0 =a $unique\ngets k miss:gone >unique\n\
                cas k 0 =c $unique\ngets k miss:gone >unique\ncas k 0 =e $unique\ngets k miss:gone >unique\n\
                cas k 0 =g $unique\ngone:\nB\nget k\nprepend k 0 =b\nget k\nset k 0 =d\nget k\n\
                replace k 0 =f\nget k\nprepend k 0 =h\nget k\nend\n",
        ],
    },
    Race {
        name: "delete-twice",
        sentence: "two deletes of an item at once, and both are told that they deleted it",
        verbs: "set delete",
        scripts: &[
            "script 1\nkeys k\nbudget P 2 40\nbudget A 1 20\nbudget B 1 20\nP\nset k 0 =x\nA\ndelete k\nB\n\
                delete k\nend\n",
            "script 1\nkeys k\nbudget P 2 40\nbudget A 5 80\nbudget B 5 80\nP\nset k 0 =x\nA\ndelete k\n\
                set k 0 =a\ndelete k\nset k 0 =c\ndelete k\nB\ndelete k\nset k 0 =b\ndelete k\nset k 0 =d\n\
                delete k\nend\n",
        ],
    },
    Race {
        name: "lost-append",
        sentence: "two appends at once, and one of them is lost",
        verbs: "set append get",
        scripts: &[
            "# The later reader must see both letters.\nscript 1\nkeys k\nbudget P 2 40\nbudget A 2 40\n\
                budget B 2 40\nP\nset k 0 =x\nA\nappend k 0 =a\nget k\nB\nappend k 0 =b\nget k\nend\n",
            "script 1\nkeys k\nbudget P 2 40\nbudget A 6 80\nbudget B 6 80\nP\nset k 0 =x\nA\n\
                append k 0 =a\nget k\nappend k 0 =c\nget k\nappend k 0 =e\nget k\nB\nappend k 0 =b\nget k\n\
                append k 0 =d\nget k\nappend k 0 =f\nget k\nend\n",
        ],
    },
    Race {
        name: "lost-decrement",
        sentence: "a decrement beside another one or an increment, and one of the two is lost",
        verbs: "set incr decr",
        scripts: &[
            "script 1\nkeys k\nbudget P 2 40\nbudget A 1 20\nbudget B 1 20\nP\nset k 0 =50\nA\ndecr k 1\n\
                B\ndecr k 2\nend\n",
            "script 1\nkeys k\nbudget P 2 40\nbudget A 4 40\nbudget B 4 40\nP\nset k 0 =50\nA\ndecr k 1\n\
                decr k 1\ndecr k 1\ndecr k 1\nB\nincr k 2\nincr k 2\nincr k 2\nincr k 2\nend\n",
        ],
    },
    Race {
        name: "lost-flags",
        sentence: "an append changes the flags of its item",
        verbs: "set append get",
        scripts: &[
            "# The item keeps the flags it has, whatever flags the append has itself.\nscript 1\nkeys k\n\
                budget P 2 40\nbudget A 2 40\nbudget B 1 40\nP\nset k 7 =x\nA\nappend k 0 =a\nget k\nB\n\
                append k 0 =b\nend\n",
        ],
    },
    Race {
        name: "lost-increment",
        sentence: "two increments at once, and one of them is lost",
        verbs: "set incr",
        scripts: &[
            "script 1\nkeys k\nbudget P 2 40\nbudget A 1 20\nbudget B 1 20\nP\nset k 0 =5\nA\nincr k 1\nB\n\
                incr k 2\nend\n",
            "script 1\nkeys k\nbudget P 2 40\nbudget A 4 40\nbudget B 4 40\nP\nset k 0 =5\nA\nincr k 1\n\
                incr k 1\nincr k 1\nincr k 1\nB\nincr k 2\nincr k 2\nincr k 2\nincr k 2\nend\n",
        ],
    },
    Race {
        name: "lost-prepend",
        sentence: "a prepend beside another one or an append, and one of the two is lost",
        verbs: "set append prepend get gets",
        scripts: &[
            "script 1\nkeys k\nbudget P 2 40\nbudget A 2 40\nbudget B 2 40\nP\nset k 0 =x\nA\n\
                prepend k 0 =a\nget k\nB\nprepend k 0 =b\nget k\nend\n",
            "script 1\nkeys k\nbudget P 2 40\nbudget A 4 60\nbudget B 4 60\nP\nset k 0 =x\nA\n\
                append k 0 =a\ngets k\nappend k 0 =c\ngets k\nB\nprepend k 0 =b\ngets k\nprepend k 0 =d\n\
                gets k\nend\n",
        ],
    },
    Race {
        name: "lost-update",
        sentence: "an incr or decr beside an append or prepend, and one of the two is lost",
        verbs: "set append prepend incr decr get",
        scripts: &[
            "script 1\nkeys k\nbudget P 2 40\nbudget A 1 20\nbudget B 2 40\nP\nset k 0 =5\nA\nincr k 1\nB\n\
                append k 0 =2\nget k\nend\n",
            "script 1\nkeys k\nbudget P 2 40\nbudget A 8 80\nbudget B 9 120\nP\nset k 0 =500\nA\nincr k 1\n\
                decr k 2\nincr k 1\ndecr k 2\nincr k 1\ndecr k 2\nincr k 1\ndecr k 2\nB\nappend k 0 =1\n\
                get k\nprepend k 0 =2\nget k\nget k\nappend k 0 =3\nget k\nprepend k 0 =4\nget k\nend\n",
        ],
    },
    Race {
        name: "number-again",
        sentence: "a deleted item is stored again, with a cas number that it had before",
        verbs: "set add cas delete get gets",
        scripts: &[
            "script 1\nkeys k\nbudget P 2 40\nbudget A 1 20\nbudget B 3 40\nP\nset k 0 =old\nA\ngets k\nB\n\
                delete k\nadd k 0 =new\ngets k\nend\n",
            "# A writes nothing, so no race of A and B shows this.\nscript 1\nkeys k\nbudget P 2 40\n\
                budget A 1 20\nbudget B 4 60\nP\nset k 0 =old\nA\nget k\nB\ngets k\ndelete k\nadd k 0 =new\n\
                gets k\nend\n",
            "script 1\nkeys k\nvars unique\nbudget P 2 40\nbudget A 2 60\nbudget B 3 40\nP\nset k 0 =old\n\
                A\ngets k miss:gone >unique\ncas k 0 =a $unique\ngone:\nB\ndelete k\nset k 0 =b\nget k\nend\n",
        ],
    },
    Race {
        name: "replace-after-delete",
        sentence: "a replace is stored though its item was deleted meanwhile",
        verbs: "set add replace delete get",
        scripts: &[
            "script 1\nkeys k\nbudget P 2 40\nbudget A 1 20\nbudget B 2 20\nP\nset k 0 =x\nA\n\
                replace k 0 =a\nB\ndelete k\nget k\nend\n",
            "script 1\nkeys k\nbudget P 2 40\nbudget A 4 80\nbudget B 4 60\nP\nset k 0 =x\nA\n\
                replace k 0 =a\nreplace k 0 =c\nreplace k 0 =e\nreplace k 0 =g\nB\ndelete k\nadd k 0 =b\n\
                delete k\nadd k 0 =d\nend\n",
        ],
    },
    Race {
        name: "revived-item",
        sentence: "an item is deleted, and an update that began before brings it back",
        verbs: "set add cas append prepend incr decr delete get gets",
        scripts: &[
            "script 1\nkeys k\nbudget P 2 40\nbudget A 1 20\nbudget B 2 20\nP\nset k 0 =5\nA\nincr k 1\nB\n\
                delete k\nget k\nend\n",
            "script 1\nkeys k\nbudget P 2 40\nbudget A 8 100\nbudget B 8 120\nP\nset k 0 =5\nA\n\
                append k 0 =1\nget k\nprepend k 0 =2\nget k\nincr k 3\nget k\ndecr k 4\nget k\nB\ndelete k\n\
                add k 0 =7\ndelete k\nadd k 0 =7\ndelete k\nadd k 0 =7\ndelete k\nadd k 0 =7\nend\n",
            "script 1\nkeys k\nvars unique\nbudget P 2 40\nbudget A 6 140\nbudget B 6 80\nP\nset k 0 =5\n\
                A\ngets k miss:gone >unique\ncas k 0 =a $unique\ngets k miss:gone >unique\n\
                cas k 0 =b $unique\ngets k miss:gone >unique\ncas k 0 =c $unique\ngone:\nB\nadd k 0 =d\n\
                delete k\nadd k 0 =e\ndelete k\nadd k 0 =f\ndelete k\nend\n",
        ],
    },
    Race {
        name: "set-undone",
        sentence: "a new body is stored, and an update that began before puts the old one back",
        verbs: "set replace append prepend incr decr touch get",
        scripts: &[
            "script 1\nkeys k\nbudget P 2 40\nbudget A 1 20\nbudget B 2 40\nP\nset k 0 =5\nA\nincr k 1\nB\n\
                set k 0 =7\nget k\nend\n",
            "script 1\nkeys k\nbudget P 2 40\nbudget A 8 120\nbudget B 8 100\nP\nset k 0 =50\nA\n\
                append k 0 =1\ntouch k\nprepend k 0 =2\ntouch k\nincr k 3\ntouch k\ndecr k 4\ntouch k\nB\n\
                set k 0 =70\nget k\nset k 0 =71\nget k\nset k 0 =72\nget k\nset k 0 =73\nget k\nend\n",
            "script 1\nkeys k\nbudget P 2 40\nbudget A 9 140\nbudget B 10 140\nP\nset k 0 =50\nA\n\
                append k 0 =1\ntouch k\nprepend k 0 =2\ntouch k\nincr k 3\ntouch k\ndecr k 4\ntouch k\n\
                replace k 0 =5\nB\nreplace k 0 =70\nget k\nreplace k 0 =71\nget k\nreplace k 0 =72\nget k\n\
                replace k 0 =73\nget k\nset k 0 =75\nget k\nend\n",
        ],
    },
    Race {
        name: "stale-get",
        sentence: "a get shows what was there before a store that was answered",
        verbs: "set add replace cas append prepend incr decr delete touch get gets",
        scripts: &[
            "# B reads four times, since a store may be late by any time.\nscript 1\nkeys k\n\
                budget P 2 40\nbudget A 1 40\nbudget B 4 40\nP\nset k 0 =old\nA\nset k 0 =new\nB\nget k\n\
                get k\nget k\nget k\nend\n",
            "script 1\nkeys k\nvars unique\nbudget P 2 40\nbudget A 13 220\nbudget B 13 100\nP\n\
                set k 0 =5\nA\nset k 0 =6\nappend k 0 =7\nprepend k 0 =8\nset k 0 =60\nincr k 1\ndecr k 2\n\
                set k 0 =70\nreplace k 0 =9\ngets k miss:gone >unique\ncas k 0 =4 $unique\ntouch k\ndelete k\n\
                add k 0 =3\ngone:\nB\nget k\nget k\nget k\nget k\nget k\nget k\nget k\nget k\nget k\nget k\n\
                get k\nget k\nget k\nend\n",
        ],
    },
    Race {
        name: "stale-gets",
        sentence: "a gets shows what was there before a store that was answered",
        verbs: "set gets",
        scripts: &[
            "script 1\nkeys k\nbudget P 2 40\nbudget A 1 20\nbudget B 4 40\nP\nset k 0 =old\nA\n\
                set k 0 =new\nB\ngets k\ngets k\ngets k\ngets k\nend\n",
        ],
    },
    Race {
        name: "torn-body",
        sentence: "a get shows a part of one body and a part of another",
        verbs: "set get",
        scripts: &[
            "# The longer a body, the longer a copy takes.\nscript 1\nkeys k\nbudget P 2 100\n\
                budget A 1 100\nbudget B 4 40\nP\n\
                set k 0 =aaaaaaaaaaaaaaaaaaaaaaaaaaaaaaaaaaaaaaaaaaaaaaaaaaaaaaaaaaaaaaaa\nA\n\
                set k 0 =bbbbbbbbbbbbbbbbbbbbbbbbbbbbbbbbbbbbbbbbbbbbbbbbbbbbbbbbbbbbbbbb\nB\nget k\nget k\n\
                get k\nget k\nend\n",
            "script 1\nkeys k\nbudget P 2 100\nbudget A 4 180\nbudget B 4 180\nP\n\
                set k 0 =aaaaaaaaaaaaaaaaaaaaaaaaaaaaaaaaaaaaaaaaaaaaaaaaaaaaaaaaaaaaaaaa\nA\n\
                set k 0 =bbbbbbbbbbbbbbbbbbbbbbbbbbbbbbbbbbbbbbbbbbbbbbbbbbbbbbbbbbbbbbbb\nget k\n\
                set k 0 =dddddddddddddddddddddddddddddddddddddddddddddddddddddddddddddddd\nget k\nB\nget k\n\
                set k 0 =cccccccccccccccccccccccccccccccccccccccccccccccccccccccccccccccc\nget k\n\
                set k 0 =eeeeeeeeeeeeeeeeeeeeeeeeeeeeeeeeeeeeeeeeeeeeeeeeeeeeeeeeeeeeeeee\nend\n",
        ],
    },
    Race {
        name: "torn-flags",
        sentence: "a get shows the flags of one set with the body of another",
        verbs: "set get gets",
        scripts: &[
            "script 1\nkeys k\nbudget P 2 40\nbudget A 1 20\nbudget B 4 40\nP\nset k 1 =one\nA\n\
                set k 2 =two\nB\nget k\nget k\nget k\nget k\nend\n",
            "script 1\nkeys k\nbudget P 2 40\nbudget A 4 80\nbudget B 4 40\nP\nset k 1 =one\nA\n\
                set k 2 =two\nset k 3 =three\nset k 4 =four\nset k 5 =five\nB\nget k\ngets k\nget k\ngets k\n\
                end\n",
        ],
    },
    Race {
        name: "torn-gets",
        sentence: "a gets shows the body of one version with the cas number of another",
        verbs: "set add replace cas append prepend incr decr delete touch gets",
        scripts: &[
            "script 1\nkeys k\nbudget P 3 40\nbudget A 1 20\nbudget B 1 20\nP\nset k 0 =8\ngets k\nA\n\
                gets k\nB\nincr k 3\nend\n",
            "script 1\nkeys k\nvars unique\nbudget P 3 40\nbudget A 11 100\nbudget B 11 180\nP\n\
                set k 0 =5\ngets k\nA\ngets k\ngets k\ngets k\ngets k\ngets k\ngets k\ngets k\ngets k\n\
                gets k\ngets k\ngets k\nB\nset k 0 =6\nappend k 0 =7\nprepend k 0 =8\nincr k 1\ndecr k 2\n\
                replace k 0 =9\ngets k miss:gone >unique\ncas k 0 =4 $unique\ntouch k\ndelete k\nadd k 0 =3\n\
                gone:\nend\n",
            "script 1\nkeys k\nvars unique\nbudget P 2 40\nbudget A 2 60\nbudget B 1 20\nP\nset k 0 =8\nA\n\
                gets k miss:gone >unique\ncas k 0 =0 $unique\ngone:\nB\ndecr k 3\nend\n",
        ],
    },
    Race {
        name: "touch-undoes",
        sentence: "a touch puts back the item that it had read",
        verbs: "set add replace append prepend incr decr delete touch get",
        scripts: &[
            "script 1\nkeys k\nbudget P 2 40\nbudget A 1 20\nbudget B 2 20\nP\nset k 0 =5\nA\ntouch k\nB\n\
                incr k 1\nincr k 1\nend\n",
            "script 1\nkeys k\nbudget P 2 40\nbudget A 8 100\nbudget B 8 120\nP\nset k 0 =50\nA\ntouch k\n\
                touch k\ntouch k\ntouch k\ntouch k\ntouch k\ntouch k\ntouch k\nB\nset k 0 =60\nget k\n\
                append k 0 =1\nget k\nprepend k 0 =2\nget k\nreplace k 0 =70\ndecr k 3\nend\n",
            "script 1\nkeys k\nbudget P 2 40\nbudget A 6 80\nbudget B 6 80\nP\nset k 0 =5\nA\ntouch k\n\
                touch k\ntouch k\ntouch k\ntouch k\ntouch k\nB\ndelete k\ntouch k\nadd k 0 =7\ndelete k\n\
                touch k\nadd k 0 =8\nend\n",
        ],
    },
];
