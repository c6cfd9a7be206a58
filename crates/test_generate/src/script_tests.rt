//! Which script belongs to a seed and a job.

use crate::texts::text_of;
use rand_core::utils::NextWord;
use rand_pcg::Lcg64Xsh32;
use std::test::Fail;

// The first outputs of PCG's C code, from the seed 42 on the sequence 54.
const REFERENCE: [u32; 6] = [
    0xa15c02b7, 0x7b47f409, 0xba1d3330, 0x83d2f293, 0xbfa4784b, 0xcbed606e,
];

// Seed 1, job 0, by hand. The outputs are, in their order:
//
// P: 3795398737 % 100 = 37, the body of the first key. 17903413 % 2 = 1: there is a second one, and 3545275701 % 100 = 1 is its body.
//
// A: 194195274 % 3 = 0, so one piece. 2326030198 % 8 = 6, `get`; 2354257974 % 2 = 0, the first key.
//
// B: 2697798104 % 3 = 2, so three pieces.
// 3102124240 % 8 = 0, `set`; 3710314595 % 2 = 1, the second key; 2357030906 % 100 = 6.
// 1617087280 % 8 = 0, `set`; 1133571968 % 2 = 0, the first key; 2899279140 % 100 = 40.
// 1272053714 % 8 = 2, `append`; 101781228 % 2 = 0, the first key; 1090416360 % 10 = 0.
const FIRST_JOB: &[u8] = b"script 1
keys r0-0 r0-1
flags f
vars v
budget P 24 8192
budget A 24 8192
budget B 24 8192
P
set r0-0 0 =37 +f
set r0-1 0 =1
A
get r0-0 ?f
B
set r0-1 0 =6
set r0-0 0 =40
append r0-0 0 =0
end
";

#[test]
fn outputs_are_those_of_the_reference(rt: HostRuntime) {
    let mut generator = Lcg64Xsh32::new(42, 54);
    for output in REFERENCE {
        assert_eq!(rt; generator.next_word(), output);
    }
}

// `cases/generate` has other seeds and jobs.
#[test]
fn first_script_is_as_worked_by_hand(rt: HostRuntime) -> Result<(), Fail> {
    assert!(rt; text_of(rt.alloc(), 1, 0)?.as_slice() == FIRST_JOB);
    Ok(())
}

// `oracle/generate_scripts.py --sum 1000` prints this sum: FNV-1a of 64 bits, over the texts one after the other.
#[test]
fn scripts_are_those_of_another_generator(rt: HostRuntime) -> Result<(), Fail> {
    let mut sum = 0xcbf29ce484222325u64;
    for job in 0..1000 {
        for byte in &text_of(rt.alloc(), 1, job)? {
            sum = (sum ^ *byte as u64).wrapping_mul(0x100000001b3);
        }
    }
    assert_eq!(rt; sum, 0xc91159eb261404a1);
    Ok(())
}
