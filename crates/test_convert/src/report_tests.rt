//! What runs, judgements and checks print, in JSON.

use mc_convert::report_json;
use mc_protocol::OutOfMemory;
use std::alloc::Global;
use std::test::Fail;

// What was printed, and its JSON.
static ROWS: [(&str, &str); 15] = [
    ("confirmed\n", "{\"verdict\":\"confirmed\"}\n"),
    ("not confirmed\n", "{\"verdict\":\"not confirmed\"}\n"),
    ("undecided\n", "{\"verdict\":\"undecided\"}\n"),
    ("not run\n", "{\"outcome\":\"not run\"}\n"),
    (
        "no connection B\n",
        "{\"outcome\":\"no connection\",\"section\":\"B\"}\n",
    ),
    (
        "no connection 3\n",
        "{\"outcome\":\"no connection\",\"client\":3}\n",
    ),
    (
        "explained\nstart key 18446744073709551615\nP 0\nA 2 pad\nend\n",
        "{\"verdict\":\"explained\",\"start\":[{\"key\":\"key\",\"number\":\"18446744073709551615\"}],\
         \"order\":[{\"section\":\"P\",\"number\":\"0\"},{\"section\":\"A\",\"number\":\"2\",\"pad\":true}]}\n",
    ),
    (
        "accepted\nP 2 26\nA 1 10\nB 0 0\n",
        "{\"verdict\":\"accepted\",\"budgets\":{\"P\":{\"requests\":2,\"bytes\":26},\"A\":{\"requests\":1,\"bytes\":10},\
         \"B\":{\"requests\":0,\"bytes\":0}}}\n",
    ),
    (
        "refused script 5 UnknownKey line 9\n9 | get m\n  |     ^ `keys` doesn't declare `m`\n",
        "{\"refused\":{\"what\":\"script\",\"code\":5,\"fault\":\"UnknownKey\",\"line\":9,\"column\":5,\
         \"hint\":[\"9 | get m\",\"  |     ^ `keys` doesn't declare `m`\"]}}\n",
    ),
    (
        "refused image 2 Short byte 201\n",
        "{\"refused\":{\"what\":\"image\",\"code\":2,\"fault\":\"Short\",\"byte\":201}}\n",
    ),
    (
        "refused asm 2 TooManyInstructions A\n10 | ..m goto x\n   |       ^ no\n",
        "{\"refused\":{\"what\":\"asm\",\"code\":2,\"fault\":\"TooManyInstructions\",\"section\":\"A\",\
         \"hint\":[\"10 | ..m goto x\",\"   |       ^ no\"]}}\n",
    ),
    (
        "refused verify 8 FlagMayBeClear B 0\nP notfound\nB stored\nend\nfirst: delete item was answered notfound\n",
        "{\"refused\":{\"what\":\"verify\",\"code\":8,\"fault\":\"FlagMayBeClear\",\"section\":\"B\",\"place\":0,\
         \"run\":[{\"section\":\"P\",\"class\":\"notfound\"},{\"section\":\"B\",\"class\":\"stored\"}],\
         \"hint\":[\"first: delete item was answered notfound\"]}}\n",
    ),
    // All that a repeated run prints.
    (
        "run 7 of 1000\nruns 7 explained 6 unexplained 1 other 0 overlapped 5\nP done\nA failed 3 Ended\nB not begun\n\
         unexplained\nwhy\nline 4 B begin get a\nexplained before\nstart a 7\nP 0\nnext B get a answers MISS\n\
         acted A incr a 1 answers NUMBER 7\nexplained would be MISS\nexplained would be HIT 0 =%20%22 (a new number)\n\
         end\nhistory 2\nend\n",
        "{\"run\":7,\"of\":1000,\"totals\":{\"runs\":7,\"explained\":6,\"unexplained\":1,\"other\":0,\"overlapped\":5},\
         \"verdict\":\"unexplained\",\"endings\":{\"P\":{\"state\":\"done\"},\"A\":{\"state\":\"failed\",\"code\":3,\"fault\":\"Ended\"},\
         \"B\":{\"state\":\"not begun\"}},\"why\":{\"line\":4,\"section\":\"B\",\"request\":{\"verb\":\"get\",\"key\":\"a\"},\
         \"start\":[{\"key\":\"a\",\"number\":\"7\"}],\"order\":[{\"section\":\"P\",\"number\":\"0\"}],\
         \"answers\":[{\"when\":\"next\",\"section\":\"B\",\"request\":{\"verb\":\"get\",\"key\":\"a\"},\"reply\":{\"word\":\"MISS\"}},\
         {\"when\":\"acted\",\"section\":\"A\",\"request\":{\"verb\":\"incr\",\"key\":\"a\",\"number\":\"1\"},\
         \"reply\":{\"word\":\"NUMBER\",\"number\":\"7\"}}],\
         \"would_be_explained\":[\"MISS\",\"HIT 0 =%20%22 (a new number)\"]},\
         \"history\":{\"version\":2,\"sections\":[\"P\",\"A\",\"B\"],\"notes\":[]}}\n",
    ),
    // Rounds of many clients.
    (
        "round 17 of 100\nrounds 17 explained 16 unexplained 1 other 0 failed 0\nclient 3 failed 2 ReadFailed\nunexplained\nkey k1\n\
         history 3\n0 begin delete k1\n0 reply NOT_FOUND\nend\n",
        "{\"round\":17,\"of\":100,\"totals\":{\"rounds\":17,\"explained\":16,\"unexplained\":1,\"other\":0,\"failed\":0},\
         \"verdict\":\"unexplained\",\"key\":\"k1\",\"failed\":[{\"client\":3,\"code\":2,\"fault\":\"ReadFailed\"}],\
         \"history\":{\"version\":3,\"notes\":[{\"client\":0,\"request\":{\"verb\":\"delete\",\"key\":\"k1\"}},\
         {\"client\":0,\"reply\":{\"word\":\"NOT_FOUND\"}}]}}\n",
    ),
    (
        "round 2 of 3\nclient 1 failed 3 Ended\nexplained\nhistory 3\nend\nrounds 3 explained 2 unexplained 0 other 0 failed 1\n",
        "{\"round\":2,\"of\":3,\"totals\":{\"rounds\":3,\"explained\":2,\"unexplained\":0,\"other\":0,\"failed\":1},\
         \"verdict\":\"explained\",\"failed\":[{\"client\":1,\"code\":3,\"fault\":\"Ended\"}],\
         \"history\":{\"version\":3,\"notes\":[]}}\n",
    ),
];

// The index of the first row whose JSON is another.
fn first_other(alloc: Global) -> Result<Option<usize>, OutOfMemory> {
    'rows: for (index, (text, wanted)) in ROWS.iter().enumerate() {
        let json = report_json(alloc, text.as_bytes())?;
        if json.as_slice() != wanted.as_bytes() {
            return Ok(Some(index));
        }
    }
    Ok(None)
}

// The first byte that stands otherwise in the hint of a refusal: as it is, escaped, or as `?` if it isn't printable.
fn first_odd_byte(alloc: Global) -> Result<Option<u8>, OutOfMemory> {
    'bytes: for byte in 0..=255u8 {
        let mut text = Vec::from_slice(alloc, b"refused input\n|")?;
        text.push(byte)?;
        let mut wanted = Vec::from_slice(alloc, b"{\"refused\":{\"what\":\"input\",\"hint\":[\"|")?;
        match byte {
            // It ends the line.
            b'\n' => {}
            b'"' | b'\\' => wanted.extend_from_slice(&[b'\\', byte])?,
            b' '..=b'~' => wanted.push(byte)?,
            _ => wanted.push(b'?')?,
        }
        wanted.extend_from_slice(b"\"]}}\n")?;
        if report_json(alloc, text.as_slice())? != wanted {
            return Ok(Some(byte));
        }
    }
    Ok(None)
}

#[test]
fn reports_in_json(rt: HostRuntime) -> Result<(), Fail> {
    assert_eq!(rt; first_other(rt.alloc())?, None);
    Ok(())
}

#[test]
fn writes_each_byte(rt: HostRuntime) -> Result<(), Fail> {
    assert_eq!(rt; first_odd_byte(rt.alloc())?, None);
    Ok(())
}
