//! Judges timelines that ended.
ghost use Rattle.std.specs.Prelude.{IfOk, OnOk};
ghost use Rattle.mc_timeline.specs.Timelines.{restricted};
ghost use Rattle.mc_linearize.specs.Verdicts.{IsUnexplained};
ghost use Rattle.mc_timeline_why.specs.TimelineCauses.{IsFoundOn};
ghost use Rattle.mc_record.specs.Judging.{IsEvidence, IsUnexplainedFront};

use crate::lines::{key_name, name_line};
use crate::piece::Piece;
use mc_linearize::{KeyVerdict, judge_key};
use mc_protocol::{Bytes, OutOfMemory};
use mc_timeline::{Timeline, print_timeline};
use mc_timeline_why::{TimelineFinding, cut_timeline, print_timeline_why, why_key_unexplained};
use std::alloc::Global;

/// The most turns of a search for an explanation of a timeline.
const TURNS: u64 = 1_000_000;

/// How many timelines there are, and how many requests they have.
#[derive(Clone, Copy)]
pub struct Count {
    pub timelines: u64,
    pub requests: u64,
}

impl Count {
    pub(crate) fn none() -> Self {
        Count {
            timelines: 0,
            requests: 0,
        }
    }

    // One more timeline, with this many requests.
    pub(crate) fn add(&mut self, requests: u64) {
        self.timelines = self.timelines.saturating_add(1);
        self.requests = self.requests.saturating_add(requests);
    }

    // The timelines and requests of another count more.
    pub(crate) fn add_all(&mut self, more: Count) {
        self.timelines = self.timelines.saturating_add(more.timelines);
        self.requests = self.requests.saturating_add(more.requests);
    }
}

/// What came of judging.
#[derive(Clone, Copy)]
pub struct Judged {
    pub explained: Count,
    /// Those that nothing explains.
    pub unexplained: Count,
    /// Those of which neither is known.
    pub undecided: Count,
}

impl Judged {
    /// Nothing was judged.
    pub(crate) fn none() -> Self {
        Judged {
            explained: Count::none(),
            unexplained: Count::none(),
            undecided: Count::none(),
        }
    }

    /// Judges one more timeline, and answers the evidence if nothing explains it and evidence is wanted. If there is no memory, it is
    /// undecided.
    pub(crate) fn judge(
        &mut self,
        alloc: Global,
        piece: &Piece,
        is_wanted: bool,
    ) -> Option<Vec<u8>> {
        let requests = piece.requests();
        match verdict_on(alloc, piece, is_wanted) {
            Ok(Verdict::Explained) => {
                self.explained.add(requests);
                None
            }
            Ok(Verdict::Unexplained(text)) => {
                self.unexplained.add(requests);
                text
            }
            Ok(Verdict::Undecided) | Err(_) => {
                self.undecided.add(requests);
                None
            }
        }
    }
}

// What a search finds out of a timeline, with the evidence if nothing explains it and that is wanted.
#[derive(Drop)]
enum Verdict {
    Explained,
    Unexplained(Option<Vec<u8>>),
    Undecided,
}

fn verdict_on(alloc: Global, piece: &Piece, is_wanted: bool) -> Result<Verdict, OutOfMemory> {
    let name = key_name(alloc, piece.name)?;
    let (verdict, _turns) = judge_key(alloc, &piece.timeline, &name, TURNS)?;
    Ok(match verdict {
        KeyVerdict::Explained(_) => Verdict::Explained,
        KeyVerdict::Undecided => Verdict::Undecided,
        KeyVerdict::Unexplained if is_wanted => {
            let mut text = name_line(alloc, &name, &piece.key)?;
            append_evidence(alloc, &piece.timeline, &name, &mut text)?;
            Verdict::Unexplained(Some(text))
        }
        KeyVerdict::Unexplained => Verdict::Unexplained(None),
    })
}

// Appends the shortest front of the timeline whose requests on the key nothing explains, as far as searches decide it, and why that is
// so. A line stands before it.
#[tactic(auto, using(crate::proofs::Fronts::evidence_is))]
fn append_evidence(
    alloc: Global,
    timeline: &Timeline,
    key: &Bytes,
    text: &mut Vec<u8>,
) -> Result<(), OutOfMemory>
    requires { IsUnexplained (restricted key.now timeline.now) }
    ensures { OnOk result (IsEvidence key.now timeline.now text.old.items text.new.items) }
{
    let finding = why_key_unexplained(alloc, timeline, key, TURNS)?;
    let front = front_of(alloc, timeline, key, &finding)?;
    let mut lines = Vec::new(alloc);
    for place in finding.overlap() {
        lines.push(line_of(*place))?;
    }
    let line = line_of(finding.place());
    print_timeline(&front, text)?;
    print_timeline_why(&finding, timeline, key, line, lines.as_slice(), text)?;
    Ok(())
}

// The front of the timeline up to the note with which nothing explains its requests on the key; or all of it if that wasn't found.
#[tactic(auto, using(crate::proofs::Fronts::front_is, crate::proofs::Fronts::whole_is))]
fn front_of(
    alloc: Global,
    timeline: &Timeline,
    key: &Bytes,
    finding: &TimelineFinding,
) -> Result<Timeline, OutOfMemory>
    requires unexplained { IsUnexplained (restricted key.now timeline.now) }
    requires found { IsFoundOn timeline.now key.now finding.now }
    ensures { IfOk result (IsUnexplainedFront key.now timeline.now) }
{
    let length = timeline.notes().len();
    match finding {
        TimelineFinding::Cause(cause) => {
            prove!(cause.place < length);
            let front = cut_timeline(alloc, timeline, cause.place + 1)?;
            Ok(front)
        }
        TimelineFinding::Undecided(_) => {
            let front = cut_timeline(alloc, timeline, length)?;
            Ok(front)
        }
    }
}

// The number of the line at which a note stands: two lines stand before the first.
fn line_of(place: usize) -> u64 {
    (place as u64).saturating_add(3)
}
