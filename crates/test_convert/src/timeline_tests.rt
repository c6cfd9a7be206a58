//! Timelines in JSON and EDN.

use mc_convert::{Form, convert_timeline, report_json};
use mc_protocol::OutOfMemory;
use std::alloc::Global;
use std::test::Fail;

const PRINTED: &[u8] =
    b"history 3\n0 begin delete a\n0 reply DELETED\n63 begin gets a\nexplain\nstart a 1\n0 0\n63 0 pad\nend\n";

// The form, the job, the text in which the timeline is shown, and what is written.
type Row = (Form, Option<u64>, &'static str, &'static str);

static ROWS: [Row; 3] = [
    (
        Form::Json,
        None,
        "unexplained\nkey a\n",
        "{\"verdict\":\"unexplained\",\"key\":\"a\",\"history\":{\"version\":3,\"notes\":[\
         {\"client\":0,\"request\":{\"verb\":\"delete\",\"key\":\"a\"}},{\"client\":0,\"reply\":{\"word\":\"DELETED\"}},\
         {\"client\":63,\"request\":{\"verb\":\"gets\",\"key\":\"a\"}}],\"claim\":{\"start\":[{\"key\":\"a\",\"number\":\"1\"}],\
         \"order\":[{\"client\":0,\"number\":\"0\"},{\"client\":63,\"number\":\"0\",\"pad\":true}]}}}\n",
    ),
    // What the text says of the job.
    (
        Form::Json,
        Some(7),
        "7 undecided\njobs 1 explained 0 unexplained 0 other 1\n",
        "{\"job\":\"7\",\"verdict\":\"undecided\",\"history\":{\"version\":3,\"notes\":[\
         {\"client\":0,\"request\":{\"verb\":\"delete\",\"key\":\"a\"}},{\"client\":0,\"reply\":{\"word\":\"DELETED\"}},\
         {\"client\":63,\"request\":{\"verb\":\"gets\",\"key\":\"a\"}}],\"claim\":{\"start\":[{\"key\":\"a\",\"number\":\"1\"}],\
         \"order\":[{\"client\":0,\"number\":\"0\"},{\"client\":63,\"number\":\"0\",\"pad\":true}]}}}\n",
    ),
    (
        Form::Edn,
        None,
        "",
        "{:process 0, :type :invoke, :f :delete, :value [\"a\"], :index 0}\n\
         {:process 0, :type :ok, :f :delete, :value [\"a\" :DELETED], :index 1}\n\
         {:process 63, :type :invoke, :f :gets, :value [\"a\"], :index 2}\n\
         {:process 63, :type :info, :f :gets, :value [\"a\"], :index 3}\n",
    ),
];

// The index of the first row that is written otherwise.
fn first_other(alloc: Global) -> Result<Option<usize>, OutOfMemory> {
    'rows: for (index, (form, job, text, wanted)) in ROWS.iter().enumerate() {
        let out = convert_timeline(alloc, text.as_bytes(), *form, *job, PRINTED)?;
        if out.as_slice() != wanted.as_bytes() {
            return Ok(Some(index));
        }
    }
    Ok(None)
}

// Whether a timeline is found in what was printed, with why nothing explains it.
fn is_reported(alloc: Global) -> Result<bool, OutOfMemory> {
    let text =
        b"unexplained\nkey a\nwhy\nline 4 1 reply MISS\nexplained before\n0 2  set a 0 =1 -> STORED\noverlap 3 5\nend\n\
        history 3\n0 begin set a 0 =1\nend\n";
    let json = report_json(alloc, text)?;
    let wanted =
        b"{\"verdict\":\"unexplained\",\"key\":\"a\",\"why\":{\"line\":4,\"client\":1,\"reply\":{\"word\":\"MISS\"},\
        \"start\":[],\"order\":[{\"client\":0,\"number\":\"2\"}],\"answers\":[],\"overlap\":[3,5]},\"history\":{\"version\":3,\
        \"notes\":[{\"client\":0,\"request\":{\"verb\":\"set\",\"key\":\"a\",\"flags\":0,\"body\":\"1\"}}]}}\n";
    Ok(json.as_slice() == wanted.as_slice())
}

#[test]
fn converts_timelines(rt: HostRuntime) -> Result<(), Fail> {
    assert_eq!(rt; first_other(rt.alloc())?, None);
    Ok(())
}

#[test]
fn reports_timelines(rt: HostRuntime) -> Result<(), Fail> {
    assert!(rt; is_reported(rt.alloc())?);
    Ok(())
}
