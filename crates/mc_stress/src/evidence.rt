//! What is written of a round that was judged.
ghost use Rattle.std.specs.Prelude.{◌≡◌, ◌++◌, List, ℕ, IfOk, IfSome, OnOk};
ghost use Rattle.std.specs.Option.{option_copied};
ghost use Rattle.mc_timeline.specs.TimelineText.{timeline_text};
ghost use Rattle.mc_linearize.specs.Verdicts.{IsTrueOfAll};
ghost use Rattle.mc_stress.specs.Evidence as spec;

use crate::agreement::agreed;
use crate::outcome::{JudgedRound, RoundClass, Standing, limit_for};
use crate::settings::Judging;
use crate::{Played, Round};
use itoa::Buffer;
use mc_lane::{Lane, Stream};
use mc_linearize::{KeyVerdict, TimelineVerdict, judge_key};
use mc_protocol::{Bytes, Fault, OutOfMemory, append_all};
use mc_shrink::smallest;
use mc_timeline::{Timeline, print_timeline, restrict};
use mc_timeline_why::{print_timeline_why, why_key_unexplained};
use std::alloc::Global;

/// The key of a round whose requests nothing explains, and the timeline of these requests alone.
#[derive(Debug, Drop)]
pub struct Evidence {
    pub key: Bytes,
    pub timeline: Timeline,
}

/// What a judged round counts as, how it stands, and what is written of it.
#[derive(Debug, Drop)]
pub struct Report {
    pub class: RoundClass,
    pub standing: Standing,
    /// What is there if nothing explains the round.
    pub evidence: Option<Evidence>,
    /// A line for each client that failed, the verdict, and unless the round is explained and done the timeline that it is on.
    pub text: Vec<u8>,
}

/// Judges a round, and writes of it; unless what was noted is no timeline, or isn't what the lanes recorded. The verdict is on the
/// timeline that is written, or of which one key is written.
///
/// # Errors
///
/// That memory ran out: then there is no answer.
pub fn judge_round<S: Stream>(
    alloc: Global,
    round: Round<S>,
    judging: Judging,
) -> Result<Option<Report>, OutOfMemory>
    ensures judged { IfOk result (λ found. IfSome found (λ report. spec.IsJudged judging round.played.items report.text.items)) }
    ensures evidence { IfOk result (λ found. IfSome found (λ report. IfSome report.evidence (spec.IsFound round.played.items))) }
{
    let Round { notes, played } = round;
    match agreed(alloc, notes, played.as_slice())? {
        Some(timeline) => {
            let failed = failed_of(alloc, played.as_slice())?;
            Ok(Some(write_of(alloc, timeline, failed, judging)?))
        }
        None => Ok(None),
    }
}

// The clients that failed.
fn failed_of<S: Stream>(
    alloc: Global,
    played: &[Played<Lane<S>>],
) -> Result<Vec<(u8, Fault)>, OutOfMemory>
    ensures { IfOk result (λ failed. failed.items ≡ spec.failed_of played.now) }
{
    let mut failed = Vec::new(alloc);
    'clients: for one in played {
        if let Some(fault) = one.ended {
            failed.push((one.client, fault))?;
        }
    }
    Ok(failed)
}

// Judges a timeline, in which these clients failed, and writes of it.
fn write_of(
    alloc: Global,
    timeline: Timeline,
    failed: Vec<(u8, Fault)>,
    judging: Judging,
) -> Result<Report, OutOfMemory>
    ensures written { IfOk result (λ report. spec.IsWritten judging timeline failed.items report.text.items) }
    ensures evidence { IfOk result (λ report. IfSome report.evidence (spec.IsEvidenceOf timeline)) }
{
    let round = JudgedRound::new(alloc, timeline, failed, judging.limit)?;
    let mut text = Vec::new(alloc);
    print_round(alloc, &round, judging, &mut text)?;
    Ok(Report {
        class: round.class(),
        standing: round.standing(),
        evidence: evidence_of(alloc, &round)?,
        text,
    })
}

// The requests on the key that the verdict names, if nothing explains them.
fn evidence_of(alloc: Global, round: &JudgedRound) -> Result<Option<Evidence>, OutOfMemory>
    ensures { IsTrueOfAll round.now.timeline round.now.verdict
        → IfOk result (λ found. IfSome found (spec.IsEvidenceOf round.now.timeline)) }
{
    match &round.verdict {
        TimelineVerdict::Unexplained(key) => Ok(Some(Evidence {
            key: key.copy(alloc)?,
            timeline: restrict(alloc, &round.timeline, key)?,
        })),
        TimelineVerdict::Explained(_) | TimelineVerdict::Undecided(_) => Ok(None),
    }
}

// Appends a line for each client that failed, the verdict, and the timeline of the key that it names, or of all keys. Nothing follows
// the verdict on a round that is explained and done.
fn print_round(
    alloc: Global,
    round: &JudgedRound,
    judging: Judging,
    out: &mut Vec<u8>,
) -> Result<(), OutOfMemory>
    ensures { OnOk result (spec.IsEvidence judging round.now.timeline round.now.failed.items round.now.verdict
        out.old.items out.new.items) }
{
    print_failed(round.failed.as_slice(), out)?;
    print_verdict(&round.verdict, out)?;
    let Some(key) = named_key(&round.verdict) else {
        return print_unless_done(&round.timeline, round.failed.as_slice(), out);
    };
    if judging.whole {
        print_why_of(alloc, &round.timeline, key, judging, out)
    } else {
        let alone = alone(alloc, &round.timeline, &round.verdict, key, judging)?;
        print_why_of(alloc, &alone, key, judging, out)
    }
}

// The requests on the key that are shown alone.
fn alone(
    alloc: Global,
    timeline: &Timeline,
    verdict: &TimelineVerdict,
    key: &Bytes,
    judging: Judging,
) -> Result<Timeline, OutOfMemory>
    ensures { IfOk result (spec.IsAlone judging.smallest verdict.now key.now timeline.now) }
{
    match verdict {
        TimelineVerdict::Unexplained(_) if judging.smallest => {
            let limit = judging.limit.unwrap_or(limit_for(timeline.notes()));
            smallest(alloc, timeline, key, limit)
        }
        _ => restrict(alloc, timeline, key),
    }
}

// Appends the timeline, unless no client failed.
fn print_unless_done(
    timeline: &Timeline,
    failed: &[(u8, Fault)],
    out: &mut Vec<u8>,
) -> Result<(), OutOfMemory>
    ensures { OnOk result (out.new.items ≡ out.old.items ++ spec.unless_done failed.now timeline.now) }
{
    if failed.is_empty() {
        return Ok(());
    }
    print_timeline(timeline, out)
}

// Appends a line for each client that failed.
fn print_failed(failed: &[(u8, Fault)], out: &mut Vec<u8>) -> Result<(), OutOfMemory>
    ensures { OnOk result (out.new.items ≡ out.old.items ++ spec.failed_text failed.now) }
{
    'failed: for (client, fault) in failed {
        print_client(*client, *fault, out)?;
    }
    Ok(())
}

fn print_client(client: u8, fault: Fault, out: &mut Vec<u8>) -> Result<(), OutOfMemory>
    ensures { OnOk result (out.new.items ≡ out.old.items ++ spec.failed_line (client, fault)) }
{
    let mut client_text = Buffer::new();
    let mut number_text = Buffer::new();
    let client = client_text.format(client).as_bytes();
    let number = number_text.format(fault.number()).as_bytes();
    append_all(
        out,
        &[
            b"client ",
            client,
            b" failed ",
            number,
            b" ",
            fault.name().as_bytes(),
            b"\n",
        ],
    )
}

fn print_verdict(verdict: &TimelineVerdict, out: &mut Vec<u8>) -> Result<(), OutOfMemory>
    ensures { OnOk result (out.new.items ≡ out.old.items ++ spec.verdict_text verdict.now) }
{
    match verdict {
        TimelineVerdict::Explained(_) => out.extend_from_slice(b"explained\n"),
        TimelineVerdict::Unexplained(key) => {
            append_all(out, &[b"unexplained\nkey ", key.as_slice(), b"\n"])
        }
        TimelineVerdict::Undecided(key) => {
            append_all(out, &[b"undecided\nkey ", key.as_slice(), b"\n"])
        }
    }
}

// The key that the verdict names.
fn named_key(verdict: &TimelineVerdict) -> Option<&Bytes>
    ensures { option_copied result ≡ spec.named_key verdict.now }
{
    match verdict {
        TimelineVerdict::Explained(_) => None,
        TimelineVerdict::Unexplained(key) | TimelineVerdict::Undecided(key) => Some(key),
    }
}

// Appends why nothing explains the requests on the key, if that is so and wanted, and the timeline.
fn print_why_of(
    alloc: Global,
    timeline: &Timeline,
    key: &Bytes,
    judging: Judging,
    out: &mut Vec<u8>,
) -> Result<(), OutOfMemory>
    ensures { OnOk result ((why : List ℕ) × (out.new.items ≡ out.old.items ++ why ++ timeline_text timeline.now)) }
{
    if judging.why {
        let why = why_text(alloc, timeline, key, judging.limit)?;
        append_all(out, &[why.as_slice()])?;
        print_timeline(timeline, out)
    } else {
        print_timeline(timeline, out)
    }
}

// Why nothing explains the requests on the key, or nothing if that isn't so.
fn why_text(
    alloc: Global,
    timeline: &Timeline,
    key: &Bytes,
    limit: Option<u64>,
) -> Result<Vec<u8>, OutOfMemory> {
    let mut text = Vec::new(alloc);
    let limit = limit.unwrap_or(limit_for(timeline.notes()));
    let (verdict, _turns) = judge_key(alloc, timeline, key, limit)?;
    match verdict {
        KeyVerdict::Unexplained => {}
        KeyVerdict::Explained(_) | KeyVerdict::Undecided => return Ok(text),
    }
    let finding = why_key_unexplained(alloc, timeline, key, limit)?;
    let mut lines = Vec::new(alloc);
    'overlap: for place in finding.overlap() {
        lines.push(line_of(*place))?;
    }
    let line = line_of(finding.place());
    print_timeline_why(&finding, timeline, key, line, lines.as_slice(), &mut text)?;
    Ok(text)
}

// The number of the line at which a note stands: one line stands before the first.
fn line_of(place: usize) -> u64 {
    (place as u64).saturating_add(2)
}
