//! The report of the whole, as text and as JSON.

use crate::in_json::JsonParts;
use crate::job::JobLine;
use crate::part::Part;
use crate::plain::{After, AfterLine, PlainParts};
use crate::totals::Standing;
use crate::whole::Whole;
use json::{Scratch, Value, Writer};
use mc_protocol::OutOfMemory;
use std::alloc::{AllocError, Global};

// At most this many jobs of a report are shown.
const MOST_SHOWN: usize = 10;

/// The report of the parts, which are in order, as text.
pub fn plain_text(
    alloc: Global,
    whole: Whole,
    read: &PlainParts<'_>,
) -> Result<Vec<u8>, OutOfMemory> {
    let mut out = Vec::new(alloc);
    'parts: for part in &read.parts {
        append_jobs(&mut out, part.jobs.of(read.jobs.as_slice()))?;
    }
    append_totals(alloc, &mut out, whole)?;
    append_script(&mut out, read.parts.as_slice(), read.after.as_slice())?;
    let mut shown: usize = 0;
    'shown: for part in &read.parts {
        shown = append_shown(&mut out, part.after.of(read.after.as_slice()), shown)?;
    }
    Ok(out)
}

fn append_line(out: &mut Vec<u8>, line: &[u8]) -> Result<(), OutOfMemory> {
    out.extend_from_slice(line)?;
    out.extend_from_slice(b"\n")
}

fn append_jobs(out: &mut Vec<u8>, jobs: &[JobLine<'_>]) -> Result<(), OutOfMemory> {
    'jobs: for job in jobs {
        append_line(out, job.text)?;
    }
    Ok(())
}

fn append_totals(alloc: Global, out: &mut Vec<u8>, whole: Whole) -> Result<(), OutOfMemory> {
    let totals = whole.totals;
    let line = format!(in alloc;
        "jobs {} explained {} unexplained {} other {}\n",
        totals.jobs, totals.explained, totals.unexplained, totals.other
    )?;
    out.extend_from_slice(line.as_bytes())
}

// The smaller script of the first part that has one.
fn append_script(
    out: &mut Vec<u8>,
    parts: &[Part],
    after: &[AfterLine<'_>],
) -> Result<(), OutOfMemory> {
    let found = parts
        .iter()
        .find(|part| is_script(part.after.of(after).first()));
    let Some(part) = found else {
        return Ok(());
    };
    'lines: for line in part.after.of(after) {
        if line.kind == After::Script {
            append_line(out, line.text)?;
        }
    }
    Ok(())
}

fn is_script(line: Option<&AfterLine<'_>>) -> bool {
    line.is_some_and(|line| line.kind == After::Script)
}

// Appends what is shown of jobs, if some may still be shown after this many; and answers after how many.
fn append_shown(
    out: &mut Vec<u8>,
    after: &[AfterLine<'_>],
    shown: usize,
) -> Result<usize, OutOfMemory> {
    let mut count = shown;
    'lines: for line in after {
        if line.kind == After::Job {
            count = count.saturating_add(1);
        }
        if line.kind != After::Script && count <= MOST_SHOWN {
            append_line(out, line.text)?;
        }
    }
    Ok(count)
}

/// The report of the parts, which are in order, as JSON.
pub fn json_text(
    alloc: Global,
    whole: Whole,
    read: &JsonParts<'_>,
) -> Result<Vec<u8>, OutOfMemory> {
    let mut out = Vec::new(alloc);
    let mut shown: usize = 0;
    'parts: for part in &read.parts {
        shown = append_job_objects(alloc, &mut out, part.jobs.of(read.jobs.as_slice()), shown)?;
    }
    let line = totals_object(alloc, whole, read)?;
    append_line(&mut out, line.as_slice())?;
    Ok(out)
}

// Appends the lines of jobs, without what is shown of those that may not be shown after this many; and answers after how many.
fn append_job_objects(
    alloc: Global,
    out: &mut Vec<u8>,
    jobs: &[JobLine<'_>],
    shown: usize,
) -> Result<usize, OutOfMemory> {
    let mut count = shown;
    'jobs: for job in jobs {
        if job.outcome.standing == Standing::Unexplained {
            count = count.saturating_add(1);
        }
        if job.outcome.standing == Standing::Unexplained && count > MOST_SHOWN {
            let line = short_object(alloc, job.text)?;
            append_line(out, line.as_slice())?;
        } else {
            append_line(out, job.text)?;
        }
    }
    Ok(count)
}

// The object of a job without what is shown of it.
fn short_object(alloc: Global, line: &[u8]) -> Result<Vec<u8>, OutOfMemory> {
    let mut scratch = Scratch::new(alloc);
    let Ok(value) = Value::from_slice(alloc, line, &mut scratch) else {
        // It was read before: memory ran out.
        return Err(AllocError);
    };
    let mut out = Writer::new(Vec::new(alloc));
    out.begin_object()?;
    write_string(&mut out, "job", &value)?;
    write_string(&mut out, "verdict", &value)?;
    if let Some(Value::Array(failed)) = value.get("failed") {
        out.key("failed")?;
        out.begin_array()?;
        'failed: for item in failed {
            out.begin_object()?;
            write_string(&mut out, "section", item)?;
            write_string(&mut out, "fault", item)?;
            out.end_object()?;
        }
        out.end_array()?;
    }
    out.end_object()?;
    Ok(out.into_inner())
}

// Writes the member of this name, if it is a string.
fn write_string(out: &mut Writer, name: &str, value: &Value<'_>) -> Result<(), OutOfMemory> {
    let found = value.get(name);
    match found.and_then(|member| member.as_str()) {
        Some(text) => {
            out.key(name)?;
            out.string(text)
        }
        None => Ok(()),
    }
}

fn totals_object(
    alloc: Global,
    whole: Whole,
    read: &JsonParts<'_>,
) -> Result<Vec<u8>, OutOfMemory> {
    let mut out = Writer::new(Vec::new(alloc));
    out.begin_object()?;
    write_totals(&mut out, whole)?;
    write_campaign(&mut out, whole, read)?;
    'after: for part in &read.parts {
        if let Some(line) = part.after.of(read.after.as_slice()).first()
            && write_script(alloc, &mut out, line)?
        {
            break;
        }
    }
    out.end_object()?;
    Ok(out.into_inner())
}

fn write_totals(out: &mut Writer, whole: Whole) -> Result<(), OutOfMemory> {
    let totals = whole.totals;
    out.key("totals")?;
    out.begin_object()?;
    write_count(out, "jobs", totals.jobs)?;
    write_count(out, "explained", totals.explained)?;
    write_count(out, "unexplained", totals.unexplained)?;
    write_count(out, "other", totals.other)?;
    out.end_object()
}

fn write_count(out: &mut Writer, name: &str, count: u64) -> Result<(), OutOfMemory> {
    out.key(name)?;
    out.u64(count)
}

fn write_campaign(out: &mut Writer, whole: Whole, read: &JsonParts<'_>) -> Result<(), OutOfMemory> {
    let Some(campaign) = &read.campaign else {
        return Ok(());
    };
    write_quoted(out, "seed", Some(campaign.seed))?;
    write_quoted(out, "from", Some(whole.first))?;
    write_quoted(out, "jobs", read.is_asked.then_some(whole.totals.jobs))?;
    out.key("name")?;
    match &campaign.name {
        Some(name) => out.string(name.as_str()),
        None => out.null(),
    }
}

fn write_quoted(out: &mut Writer, name: &str, number: Option<u64>) -> Result<(), OutOfMemory> {
    out.key(name)?;
    match number {
        Some(number) => out.quoted_u64(number),
        None => out.null(),
    }
}

// Writes the smaller script of the line that ends a part, and answers whether it has one.
fn write_script(alloc: Global, out: &mut Writer, line: &[u8]) -> Result<bool, OutOfMemory> {
    let mut scratch = Scratch::new(alloc);
    let Ok(value) = Value::from_slice(alloc, line, &mut scratch) else {
        // It was read before: memory ran out.
        return Err(AllocError);
    };
    let Some(Value::Array(script)) = value.get("shrunk") else {
        return Ok(false);
    };
    out.key("shrunk")?;
    out.begin_array()?;
    'lines: for line in script {
        out.string(line.as_str().unwrap_or(""))?;
    }
    out.end_array()?;
    Ok(true)
}
