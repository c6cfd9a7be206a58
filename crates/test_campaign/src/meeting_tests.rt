//! How the branches of jobs meet.

use mc_campaign::{Campaign, draw_meet};
use mc_run::{Branch, Late, Manner, Meet};
use mc_settings::Meeting;
use rand_pcg::Pcg32;
use std::test::Fail;

/// How many jobs are counted.
const JOBS: u64 = 800;

/// A campaign whose branches meet so.
fn campaign(meeting: Meeting, spread: u16) -> Campaign<'static> {
    Campaign {
        seed: 1,
        first: 0,
        jobs: 1,
        limit: 1,
        meeting,
        spread,
        name: None,
    }
}

/// How many of the jobs 0 to 799 of seed 1 meet so, and no branch of them is late.
fn count(meeting: Meeting, manner: Manner, apart: Branch) -> u64 {
    let meet = Meet {
        manner,
        apart,
        late: None,
    };
    let mut count = 0u64;
    for job in 0..JOBS {
        if campaign(meeting, 0).meet(job) == meet {
            count = count.saturating_add(1);
        }
    }
    count
}

/// What is drawn with these chances comes in these bounds, five deviations wide.
#[test]
fn lots_are_shared(rt: HostRuntime) -> Result<(), Fail> {
    for apart in [Branch::A, Branch::B] {
        let each = count(Meeting::Drawn, Manner::Each, apart);
        assert!(rt; (230..=370).contains(&each));
        let never = count(Meeting::Drawn, Manner::Never, apart);
        assert!(rt; (50..=150).contains(&never));
        assert_eq!(rt; count(Meeting::Drawn, Manner::First, apart), 0);
        let asked = count(Meeting::First, Manner::First, apart);
        assert!(rt; (330..=470).contains(&asked));
    }
    Ok(())
}

/// How many of the jobs have this branch late by these nanoseconds, where the branches of each meet.
fn count_late(spread: u16, branch: Branch, least: u32, most: u32) -> u64 {
    let mut count = 0u64;
    for job in 0..JOBS {
        if let Some(late) = campaign(Meeting::Each, spread).meet(job).late {
            if late.branch == branch && (least..=most).contains(&late.nanoseconds) {
                count = count.saturating_add(1);
            }
        }
    }
    count
}

/// A quarter of the jobs have A late, and a quarter B; each of the six doublings from 1 to 64 microseconds has a sixth of them.
#[test]
fn lateness_is_shared(rt: HostRuntime) -> Result<(), Fail> {
    for branch in [Branch::A, Branch::B] {
        let late = count_late(64, branch, 1_000, 64_000);
        assert!(rt; (135..=265).contains(&late), "{late}");
        assert_eq!(rt; count_late(64, branch, 0, u32::MAX), late);
        for doublings in 0..6u32 {
            let least = 1_000 << doublings;
            let found = count_late(64, branch, least, 2 * least - 1);
            assert!(rt; (5..=62).contains(&found), "{doublings} {found}");
        }
    }
    Ok(())
}

/// A spread of 1 microsecond is one.
#[test]
fn least_spread_is_drawn(rt: HostRuntime) -> Result<(), Fail> {
    let late = count_late(1, Branch::A, 1_000, 1_000);
    assert!(rt; late > 0);
    assert_eq!(rt; count_late(1, Branch::A, 0, u32::MAX), late);
    Ok(())
}

/// The spread changes nothing else of a meeting.
#[test]
fn spread_changes_lateness_alone(rt: HostRuntime) -> Result<(), Fail> {
    for job in 0..JOBS {
        let spread = campaign(Meeting::Drawn, 64).meet(job);
        let without = campaign(Meeting::Drawn, 0).meet(job);
        let never = spread.manner == Manner::Never;
        assert!(rt; !never || spread == without, "{job}");
        assert!(rt;
            (Meet {
                late: None,
                ..spread
            }) == without,
            "{job}"
        );
    }
    Ok(())
}

/// The first words of PCG for the seed 42 and the sequence 54 are known from its reference: 0xa15c02b7, 0x7b47f409, 0xba1d3330,
/// 0x83d2f293, 0xbfa4784b and 0xcbed606e.
#[test]
fn meetings_are_as_worked_by_hand(rt: HostRuntime) -> Result<(), Fail> {
    // lot 7, and then lot 1, which has no late branch
    let mut generator = Pcg32::new(42, 54);
    let expected = Meet {
        manner: Manner::First,
        apart: Branch::B,
        late: None,
    };
    assert_eq!(rt; draw_meet(&mut generator, Meeting::First, 64), expected);
    // lot 0, and then lot 3; 64,000 nanoseconds are halved once, and less by 13,747, which is what 16,001 leave of the last word
    let expected = Meet {
        manner: Manner::First,
        apart: Branch::A,
        late: Some(Late {
            branch: Branch::B,
            nanoseconds: 18_253,
        }),
    };
    assert_eq!(rt; draw_meet(&mut generator, Meeting::First, 64), expected);
    Ok(())
}
