//! Histories in JSON and EDN.

use mc_convert::{Converted, Form, convert};
use mc_protocol::OutOfMemory;
use std::alloc::Global;
use std::test::Fail;

// A text, a form, the number of a job, and what is written.
type Row = (&'static str, Form, Option<u64>, &'static str);

static ROWS: [Row; 8] = [
    // No note at all.
    (
        "history 2\nend\n",
        Form::Json,
        None,
        "{\"history\":{\"version\":2,\"sections\":[\"P\",\"A\",\"B\"],\"notes\":[]}}\n",
    ),
    // Flags are a number; the amount, the new value and the cas unique are strings.
    (
        "history 2\nP begin delete a\nP reply NOT_FOUND\nP begin set a 4294967295 =5%20\"\\\nP reply STORED\nA begin gets a\n\
         A reply HIT 7 =%00 18446744073709551615\nB begin incr a 007\nB reply NUMBER 18446744073709551615\nend\n",
        Form::Json,
        None,
        "{\"history\":{\"version\":2,\"sections\":[\"P\",\"A\",\"B\"],\"notes\":[\
         {\"section\":\"P\",\"request\":{\"verb\":\"delete\",\"key\":\"a\"}},\
         {\"section\":\"P\",\"reply\":{\"word\":\"NOT_FOUND\"}},\
         {\"section\":\"P\",\"request\":{\"verb\":\"set\",\"key\":\"a\",\"flags\":4294967295,\"body\":\"5%20\\\"\\\\\"}},\
         {\"section\":\"P\",\"reply\":{\"word\":\"STORED\"}},\
         {\"section\":\"A\",\"request\":{\"verb\":\"gets\",\"key\":\"a\"}},\
         {\"section\":\"A\",\"reply\":{\"word\":\"HIT\",\"flags\":7,\"body\":\"%00\",\"number\":\"18446744073709551615\"}},\
         {\"section\":\"B\",\"request\":{\"verb\":\"incr\",\"key\":\"a\",\"number\":\"7\"}},\
         {\"section\":\"B\",\"reply\":{\"word\":\"NUMBER\",\"number\":\"18446744073709551615\"}}]}}\n",
    ),
    // A line of a history 1 has both, and its reply is null if none came. The claim follows.
    (
        "history 1\nP delete a -> NOT_FOUND\nB get a -> MISS\nA touch a -> ?\nexplain\nstart a 12\nP 0\nB 1 refuse\nA 2 pad refuse\nend\n",
        Form::Json,
        None,
        "{\"history\":{\"version\":1,\"sections\":[\"P\",\"A\",\"B\"],\"lines\":[\
         {\"section\":\"P\",\"request\":{\"verb\":\"delete\",\"key\":\"a\"},\"reply\":{\"word\":\"NOT_FOUND\"}},\
         {\"section\":\"A\",\"request\":{\"verb\":\"touch\",\"key\":\"a\"},\"reply\":null},\
         {\"section\":\"B\",\"request\":{\"verb\":\"get\",\"key\":\"a\"},\"reply\":{\"word\":\"MISS\"}}],\
         \"claim\":{\"start\":[{\"key\":\"a\",\"number\":\"12\"}],\"order\":[{\"section\":\"P\",\"number\":\"0\"},\
         {\"section\":\"B\",\"number\":\"1\",\"refuse\":true},{\"section\":\"A\",\"number\":\"2\",\"pad\":true,\"refuse\":true}]}}}\n",
    ),
    // The operations of EDN.
    (
        "history 2\nP begin delete a\nP reply NOT_FOUND\nP begin set a 0 =5\nP reply STORED\nA begin incr a 1\nB begin incr a 1\n\
         A reply NUMBER 6\nB reply NUMBER 6\nend\n",
        Form::Edn,
        None,
        "{:process 0, :type :invoke, :f :delete, :value [\"a\"], :index 0}\n\
         {:process 0, :type :ok, :f :delete, :value [\"a\" :NOT_FOUND], :index 1}\n\
         {:process 0, :type :invoke, :f :set, :value [\"a\" 0 \"5\"], :index 2}\n\
         {:process 0, :type :ok, :f :set, :value [\"a\" 0 \"5\" :STORED], :index 3}\n\
         {:process 1, :type :invoke, :f :incr, :value [\"a\" 1], :index 4}\n\
         {:process 2, :type :invoke, :f :incr, :value [\"a\" 1], :index 5}\n\
         {:process 1, :type :ok, :f :incr, :value [\"a\" 1 :NUMBER 6], :index 6}\n\
         {:process 2, :type :ok, :f :incr, :value [\"a\" 1 :NUMBER 6], :index 7}\n",
    ),
    // Requests without a reply come last; a number above 63 bits has an N; quotes and backslashes are escaped.
    (
        "history 2\nP begin delete a\nP reply DELETED\nP begin gets a\nP reply HIT 2 =\"\\%25 9223372036854775808\n\
         B begin cas a 1 = 9223372036854775808\nA begin incr a 9223372036854775807\nend\n",
        Form::Edn,
        None,
        "{:process 0, :type :invoke, :f :delete, :value [\"a\"], :index 0}\n\
         {:process 0, :type :ok, :f :delete, :value [\"a\" :DELETED], :index 1}\n\
         {:process 0, :type :invoke, :f :gets, :value [\"a\"], :index 2}\n\
         {:process 0, :type :ok, :f :gets, :value [\"a\" :HIT 2 \"\\\"\\\\%25\" 9223372036854775808N], :index 3}\n\
         {:process 2, :type :invoke, :f :cas, :value [\"a\" 1 \"\" 9223372036854775808N], :index 4}\n\
         {:process 1, :type :invoke, :f :incr, :value [\"a\" 9223372036854775807], :index 5}\n\
         {:process 1, :type :info, :f :incr, :value [\"a\" 9223372036854775807], :index 6}\n\
         {:process 2, :type :info, :f :cas, :value [\"a\" 1 \"\" 9223372036854775808N], :index 7}\n",
    ),
    // A history of no note has no operation.
    ("history 2\nend\n", Form::Edn, None, ""),
    // A job's history, with what its line says and what is shown of it. The history before it isn't the job's.
    (
        "6 unexplained\n7 unexplained A ReadFailed B BadReply\njobs 2 explained 0 unexplained 2 other 0\njob 6\nhistory 2\n\
         P begin get a\nend\njob 7\nwhy\nundecided at line 9\nend\nhistory 2\nend\n",
        Form::Json,
        Some(7),
        "{\"job\":\"7\",\"verdict\":\"unexplained\",\"failed\":[{\"section\":\"A\",\"fault\":\"ReadFailed\"},\
         {\"section\":\"B\",\"fault\":\"BadReply\"}],\
         \"why\":{\"line\":9,\"undecided\":true,\"start\":[],\"order\":[],\"answers\":[]},\
         \"history\":{\"version\":2,\"sections\":[\"P\",\"A\",\"B\"],\"notes\":[]}}\n",
    ),
    ("job 7\nhistory 2\nend\n", Form::Edn, Some(7), ""),
];

// The index of the first row that is converted otherwise.
fn first_other(alloc: Global) -> Result<Option<usize>, OutOfMemory> {
    'rows: for (index, (text, form, job, wanted)) in ROWS.iter().enumerate() {
        match convert(alloc, text.as_bytes(), *form, *job)? {
            Converted::Written(out) if out.as_slice() == wanted.as_bytes() => {}
            _ => return Ok(Some(index)),
        }
    }
    Ok(None)
}

#[test]
fn converts_histories(rt: HostRuntime) -> Result<(), Fail> {
    assert_eq!(rt; first_other(rt.alloc())?, None);
    Ok(())
}
