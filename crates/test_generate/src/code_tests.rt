//! The code of generated scripts.

use crate::memory::again;
use mc_generate::generate;
use std::test::Fail;

// One job: few enough allocations that each of them can be refused.
#[test]
fn code_of_one_job_may_run(rt: HostRuntime) -> Result<(), Fail> {
    again(|| generate(rt.alloc(), 1, 0))?;
    Ok(())
}

#[test]
fn code_of_a_hundred_jobs_may_run(rt: HostRuntime) -> Result<(), Fail> {
    for job in 0..100 {
        generate(rt.alloc(), 1, job)?;
    }
    Ok(())
}
