//! What a person reads of a finding of rounds.

use crate::found_text::{head_text, push_branches};
use crate::numbers::Grouped;
use crate::rounds::{STRESS, mix_word};
use crate::shortened::Shortened;
use crate::text::push_all;
use crate::told::Evidence;
use mc_cli::RunArgs;
use mc_rounds::Plan;
use mc_timeline_draw::{Form, draw_key};
use std::alloc::{AllocError, Global};
use std::fmt::Write;
use std::str;

// The most requests that are shown before the reply that nothing explains, and behind it.
const BEFORE: usize = 30;

const BEHIND: usize = 8;

// What stands below that reply.
const MARK: &str = "^ no order explains this";

/// The text of a race that rounds show: the requests about the place on the key that nothing explains, and how they are played again.
/// `seed` is that of the whole test.
pub(crate) fn rounds_text(
    alloc: Global,
    target: &RunArgs<'_>,
    seed: u64,
    plan: &Plan,
    shown: &Shortened,
    evidence: &Evidence,
) -> Result<Vec<u8>, AllocError> {
    let clients = plan.clients;
    let sentence = format!(in alloc; "no order explains what {clients} clients sent and received")?;
    let mut text = head_text(alloc, STRESS, sentence.as_str(), evidence, "rounds")?.into_bytes();
    let form = Form::Text { lines: false };
    let picture = draw_key(alloc, &shown.timeline, &shown.key, form, target.how.limit)?;
    let picture = str::from_utf8(picture.as_slice()).unwrap_or("");
    text.extend_from_slice(window_of(alloc, picture)?.as_bytes())?;
    text.extend_from_slice(b"\n  Proved: no order of these requests gives these replies.\n")?;
    let again = again_text(alloc, target, seed, plan)?;
    text.extend_from_slice(again.as_bytes())?;
    text.push(b'\n')?;
    Ok(text)
}

// The lines of the picture's table about the reply that nothing explains. The first one, which names the columns, stands above them.
fn window_of(alloc: Global, picture: &str) -> Result<String, AllocError> {
    let (_, below) = picture.split_once("\n\n").unwrap_or(("", picture));
    let (table, _) = below.split_once("\n\n").unwrap_or((below, ""));
    let all = table.lines().count();
    let mark = table
        .lines()
        .position(|line| line.contains(MARK))
        .unwrap_or(all);
    let from = mark.saturating_sub(BEFORE).max(1);
    let to = mark.saturating_add(BEHIND).saturating_add(1).min(all);
    let mut window = String::new(alloc);
    'lines: for (index, line) in table.lines().enumerate() {
        if index == 0 || from <= index && index < to {
            push_all(&mut window, &["  ", line, "\n"])?;
        }
        if index == 0 {
            push_left_out(&mut window, from.saturating_sub(1), "earlier")?;
        }
    }
    push_left_out(&mut window, all.saturating_sub(to), "later")?;
    Ok(window)
}

// A line for requests that aren't shown, if there are any.
fn push_left_out(text: &mut String, count: usize, word: &str) -> Result<(), AllocError> {
    match count {
        0 => Ok(()),
        1 => write!(text, "  .. 1 {word} request\n"),
        _ => write!(text, "  .. {} {word} requests\n", Grouped(count as u64)),
    }
}

// The lines that say by which command: its requests are the same, whatever the replies allow. With several servers it is the test.
fn again_text(
    alloc: Global,
    target: &RunArgs<'_>,
    seed: u64,
    plan: &Plan,
) -> Result<String, AllocError> {
    let mut text = String::new(alloc);
    text.push_str("  Play it again:\n    mcrace ")?;
    if target.a.is_some() || target.b.is_some() {
        push_all(&mut text, &["test ", target.server])?;
        push_branches(&mut text, target)?;
        write!(text, " --seed {seed}\n")?;
        return Ok(text);
    }
    let mix = mix_word(plan.mix);
    let (clients, requests, keys) = (plan.clients, plan.requests, plan.keys);
    push_all(&mut text, &["stress ", target.server])?;
    write!(text, " --seed {} --mix {mix} \\\n", plan.seed)?;
    write!(
        text,
        "      --clients {clients} --requests {requests} --keys {keys} --for 1m\n"
    )?;
    Ok(text)
}
