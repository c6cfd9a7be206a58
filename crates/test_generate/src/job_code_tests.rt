//! The code of jobs under a name.

use crate::memory::again;
use mc_generate::{JobFault, generate_under};
use mc_settings::Namespace;
use mc_sound::Checked;
use std::alloc::Global;
use std::test::Fail;

/// A name of 35 bytes.
const LONG: &str = "a-name-of-35-bytes-leaves-room-for-";

/// The code of a job of seed 1, under this name if there is one; or why there is none.
fn code_of(
    alloc: Global,
    name: Option<&str>,
    job: u64,
) -> Result<Result<Checked, JobFault>, JobFault> {
    let name = name.and_then(|name| Namespace::new(name.as_bytes()));
    let found = again(|| generate_under(alloc, 1, name.as_ref(), job));
    match found {
        Err(JobFault::OutOfMemory) => Err(JobFault::OutOfMemory),
        found => Ok(found),
    }
}

/// Whether the keys of a job under this name are these two.
fn has_keys(alloc: Global, name: Option<&str>, first: &str, second: &str) -> Result<bool, Fail> {
    let checked = code_of(alloc, name, 31)??;
    let keys = checked.code().keys();
    Ok(
        keys.len() == 2
            && keys[0].as_slice() == first.as_bytes()
            && keys[1].as_slice() == second.as_bytes(),
    )
}

// Few enough allocations that each of them can be refused.
#[test]
fn job_has_its_keys_under_the_name(rt: HostRuntime) -> Result<(), Fail> {
    assert!(rt; has_keys(rt.alloc(), Some("ci7"), "ci7-r31-0", "ci7-r31-1")?);
    Ok(())
}

// `r10-0` has 5 bytes, which have no room after 35 and a dash.
#[test]
fn job_whose_key_is_too_long_has_no_code(rt: HostRuntime) -> Result<(), Fail> {
    let alloc = rt.alloc();
    assert!(rt; code_of(alloc, Some(LONG), 9)?.is_ok());
    assert_eq!(rt;
        code_of(alloc, Some(LONG), 10)?.err(),
        Some(JobFault::KeyTooLong)
    );
    Ok(())
}
