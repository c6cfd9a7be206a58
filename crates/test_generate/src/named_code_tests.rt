//! Code under a name. What is sent then is shown by `cases/run/names.cases`.

use crate::memory::again;
use mc_assembler::assemble;
use mc_code::Code;
use mc_generate::{PutFault, put_under};
use mc_protocol::Actor;
use mc_script::Budget;
use mc_script_text::parse;
use mc_settings::Namespace;
use mc_verify::verify;
use std::alloc::Global;
use std::test::Fail;

// Two increments of one counter, with budgets that are just enough.
const COUNTER: &str = "script 1
keys a
budget P 2 26
budget A 1 10
budget B 1 10
P
set a 0 =5
A
incr a 1
B
incr a 1
end
";

// Keys of 5 and of 7 bytes.
const TWO_KEYS: &str = "script 1
keys first -second
budget P 24 8192
budget A 24 8192
budget B 24 8192
P
A
get first
B
delete -second
end
";

// 38 bytes.
const LONGEST: &str = "a-name-of-38-bytes-is-the-longest-one-";

// A budget that is just enough is just enough under a name.
#[test]
fn budgets_stay_just_enough(rt: HostRuntime) -> Result<(), Fail> {
    for name in ["ci7", LONGEST] {
        let added = name.len() as u32 + 1;
        let p = Budget {
            requests: 2,
            bytes: 26 + 2 * added,
        };
        let a = Budget {
            requests: 1,
            bytes: 10 + added,
        };
        let found = budgets_under(rt.alloc(), name)?;
        assert_eq!(rt; found, (p, a, p.bytes), "{name}");
    }
    Ok(())
}

// The budgets of the counter's P and A under a name, and how many bytes P sends at most.
fn budgets_under(alloc: Global, name: &str) -> Result<(Budget, Budget, u32), Fail> {
    let under = code_under(alloc, COUNTER, name)?;
    let (p, a) = (under.budget(Actor::P), under.budget(Actor::A));
    let checked = verify(alloc, under).map_err(|(refusal, _)| refusal)?;
    Ok((p, a, checked.maxima(Actor::P).bytes))
}

// The key of 1 byte has room after a name of 38 bytes, that of 2 has none. The first key without room is named.
#[test]
fn keys_have_at_most_40_bytes(rt: HostRuntime) -> Result<(), Fail> {
    for (text, name, key) in [
        (COUNTER, LONGEST, None),
        (TWO_KEYS, LONGEST, Some(0)),
        (TWO_KEYS, "a-name-that-has-only-33-bytes-now", Some(1)),
        (TWO_KEYS, "a-name-that-has-but-32-bytes-now", None),
    ] {
        assert_eq!(rt; key_without_room(rt.alloc(), text, name)?, key, "{name}");
    }
    Ok(())
}

// The index of the key that becomes too long under the name, if one does.
fn key_without_room(alloc: Global, text: &str, name: &str) -> Result<Option<usize>, Fail> {
    let code = code_of(alloc, text)?;
    match put_under(alloc, &code, &named(name)?) {
        Ok(_) => Ok(None),
        Err(PutFault::KeyTooLong(index)) => Ok(Some(index)),
        Err(fault) => Err(Fail::from(fault)),
    }
}

fn named(name: &str) -> Result<Namespace<'_>, Fail> {
    match Namespace::new(name.as_bytes()) {
        Some(name) => Ok(name),
        None => Err(Fail::new("the name is refused")),
    }
}

fn code_of(alloc: Global, text: &str) -> Result<Code, Fail> {
    let script = parse(alloc, text.as_bytes())?;
    Ok(assemble(alloc, &script)?)
}

fn code_under(alloc: Global, text: &str, name: &str) -> Result<Code, Fail> {
    let name = named(name)?;
    let code = code_of(alloc, text)?;
    Ok(again(|| put_under(alloc, &code, &name))?)
}
