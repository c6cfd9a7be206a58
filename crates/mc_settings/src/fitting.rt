//! Names under which the keys of a campaign's jobs are short enough.
ghost use Rattle.std.specs.Prelude.{◌≡◌, ◌↔◌, ◌+◌, ◌≤◌, ◌^◌, decimal, length, true};
ghost use Rattle.mc_settings.specs.{JobKeys.key_name, JobKeys.KeysFit};

use crate::Namespace;
use itoa::Buffer;
use mc_protocol::KEY_BYTES_LIMIT;

/// Whether no key of this many jobs, from the first on, has more than 40 bytes under the name. None of them is generated: the keys of
/// the last one are the longest.
pub fn keys_fit(name: &Namespace<'_>, first: u64, jobs: u64) -> bool
    requires { first + jobs ≤ 2 ^ 64 }
    ensures { (result ≡ true) ↔ KeysFit name.now first jobs }
{
    if jobs == 0 {
        return true;
    }
    let last = first + (jobs - 1);
    name.as_slice().len() + 1 + key_len(last) <= KEY_BYTES_LIMIT
}

// How many bytes each key of a job has.
fn key_len(job: u64) -> usize
    ensures first { result ≡ length (key_name job 0) }
    ensures second { result ≡ length (key_name job 1) }
    ensures short { result ≤ 23 }
{
    // `r`, the job's number, `-`, and 0 or 1.
    1 + decimal_len(job) + 1 + 1
}

// How many digits a number has.
fn decimal_len(number: u64) -> usize
    ensures len { result ≡ length (decimal number) }
    ensures short { result ≤ 20 }
{
    Buffer::new().format(number).len()
}
