//! How the branches of a run meet: as it is asked for, or by lot; and which of them is late.

ghost use Rattle.std.specs.Prelude.{◌≡◌, IfSome};
ghost use Rattle.mc_campaign.specs.Meetings as spec;
ghost use Rattle.mc_campaign.specs.Meetings.{IsWithin};
ghost use Rattle.mc_generate.specs.Outputs.{outputs_of};

use crate::Campaign;
use crate::lateness::draw_late;
use mc_generate::draw;
use mc_run::{Branch, Late, Manner, Meet};
use mc_settings::Meeting;
use rand_pcg::Pcg32;

/// Which of its sequences the generator of a job's lot goes along, by exclusive or with the seed. A small number wouldn't do: where the
/// seed is the job's number, the generator of the script goes along the sequence of that number too.
const SEQUENCES: u64 = 0x6d65_6574_696e_6773;

impl Campaign<'_> {
    /// How the branches of a job meet, as [`draw_meet`] draws it from a generator of the seed and the job, which isn't the one that makes
    /// the script; so a job that is repeated meets alike.
    pub fn meet(&self, job: u64) -> Meet
        ensures meet { result ≡ spec.meet_for self.now.meeting self.now.spread self.now.seed job }
        ensures late { IfSome result.late (IsWithin self.now.spread) }
    {
        let mut generator = Pcg32::new(job, self.seed ^ SEQUENCES);
        draw_meet(&mut generator, self.meeting, self.spread)
    }
}

/// How the branches of a run meet that are asked to meet so, by the generator's next words. Which of them runs on a thread of its own is
/// drawn, and where it is drawn how they wait, that is by the same word. In half of the runs that meet one branch is late, either as
/// often as the other, by `spread` microseconds at most; with 0 none ever is.
pub fn draw_meet(generator: &mut Pcg32, meeting: Meeting, spread: u16) -> Meet
    ensures meet { result ≡ spec.meet_in meeting spread (outputs_of generator.old) }
    ensures late { IfSome result.late (IsWithin spread) }
{
    let lot = draw(generator, 8);
    let manner = manner_of(meeting, lot);
    Meet {
        manner,
        apart: if lot % 2 == 0 { Branch::A } else { Branch::B },
        late: late_of(generator, manner, spread),
    }
}

fn manner_of(meeting: Meeting, lot: u32) -> Manner
    ensures { result ≡ spec.manner_of meeting lot }
{
    match meeting {
        Meeting::Drawn if lot < 2 => Manner::Never,
        Meeting::Drawn | Meeting::Each => Manner::Each,
        Meeting::First => Manner::First,
        Meeting::Never => Manner::Never,
    }
}

fn late_of(generator: &mut Pcg32, manner: Manner, spread: u16) -> Option<Late>
    ensures late { result ≡ spec.late_of manner spread (outputs_of generator.old) }
    ensures within { IfSome result (IsWithin spread) }
{
    match manner {
        Manner::Each | Manner::First => draw_late(generator, spread),
        Manner::Never => None,
    }
}
