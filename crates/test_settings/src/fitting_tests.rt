//! Names under which the keys of jobs are short enough.
ghost use Rattle.std.specs.Prelude.{◌≤◌, ◌+◌, ◌^◌};

use mc_settings::{Namespace, keys_fit};

/// A name of 35 bytes.
const LONG: &str = "a-name-of-35-bytes-leaves-room-for-";

/// Whether no key of the jobs becomes too long under the word, where it is a name.
fn fits(word: &str, first: u64, jobs: u64) -> Option<bool>
    requires { first + jobs ≤ 2 ^ 64 }
{
    let name = Namespace::new(word.as_bytes())?;
    Some(keys_fit(&name, first, jobs))
}

#[test]
fn keys_of_the_last_job_are_the_longest(rt: HostRuntime) {
    let fit = [
        // `r9-0` has 4 bytes, and a dash stands before it.
        fits(LONG, 0, 10),
        // `r99-0` has 5.
        fits("a-name-of-34-bytes-leaves-room-for", 10, 90),
        // `r18446744073709551615-0` has 23, and `r9999999999999999999-0` has 22.
        fits("sixteen-bytes-ok", u64::MAX, 1),
        fits("seventeen-bytes-n", 9_999_999_999_999_999_999, 1),
        // Where there are no jobs, no key is too long.
        fits("a-name-of-36-bytes-leaves-room-for-n", 0, 0),
        fits(LONG, 10, 0),
    ];
    assert_eq!(rt; fit, [Some(true); 6]);
    let too_long = [
        fits(LONG, 0, 11),
        fits(LONG, 10, 1),
        fits("a-name-of-36-bytes-leaves-room-for-n", 0, 1),
        fits("a-name-of-34-bytes-leaves-room-for", 10, 91),
        fits("seventeen-bytes-n", u64::MAX, 1),
        fits("seventeen-bytes-n", 9_999_999_999_999_999_999, 2),
    ];
    assert_eq!(rt; too_long, [Some(false); 6]);
}
