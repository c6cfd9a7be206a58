//! What is told as it comes: on standard output, and in the folder of the evidence.

use crate::book::{Book, State};
use crate::end_text::{begin_text, end_text};
use crate::evidence::Found;
use crate::folder::Folder;
use crate::found_text::{alone_text, found_text, shell_word};
use crate::junit::report_junit;
use crate::report_json::report_json;
use crate::rounds::{FoundRounds, STRESS};
use crate::rounds_text::rounds_text;
use crate::seen::Shown;
use crate::shortened::Shortened;
use crate::text::{COLUMNS, push_lines};
use crate::told::{Again, Evidence, Kind, Told, file_name};
use mc_answers::{InputFault, Sink, write_fault};
use mc_cli::RunArgs;
use mc_draw::{Drawing, Form, draw};
use mc_timeline_draw::draw_key;
use std::alloc::{AllocError, Global};
use std::time::Duration;

// The most wrong replies that are told.
const MOST_TOLD: u64 = 10;

/// Where findings are told, and what was told so far.
#[derive(Drop)]
pub(crate) struct Report<'a, O, F> {
    alloc: Global,
    output: &'a mut O,
    // Whether standard output has JSON in place of the text.
    is_json: bool,
    folder: F,
    pub(crate) book: Book<'a>,
    // How long was spent on evidence.
    spent: Duration,
    // How many wrong replies came.
    wrong: u64,
}

impl<'a, O: Sink, F: Folder> Report<'a, O, F> {
    /// Nothing was told.
    pub(crate) fn new(
        alloc: Global,
        output: &'a mut O,
        is_json: bool,
        folder: F,
        book: Book<'a>,
    ) -> Self {
        Report {
            alloc,
            output,
            is_json,
            folder,
            book,
            spent: Duration::ZERO,
            wrong: 0,
        }
    }

    /// How long may be spent on the next evidence: a tenth of the time of the test, and a third of it for all.
    pub(crate) fn time_for_evidence(&self) -> Duration {
        let time = self.book.time;
        (time / 3).saturating_sub(self.spent).min(time / 10)
    }

    /// This time was spent on evidence.
    pub(crate) fn spend(&mut self, time: Duration) {
        self.spent = self.spent.saturating_add(time);
    }

    /// Says what tests which server, by which seed, and how long.
    pub(crate) fn say_begin(&mut self) -> Result<(), InputFault> {
        if self.is_json {
            return Ok(());
        }
        let text = begin_text(self.alloc, &self.book)?;
        Ok(self.output.write_all(text.as_bytes())?)
    }

    /// Tells a race, with the evidence of it.
    pub(crate) fn tell_found(
        &mut self,
        target: &RunArgs<'_>,
        kind: Kind,
        name: &str,
        sentence: &str,
        found: Found,
    ) -> Result<(), InputFault> {
        let evidence = Evidence::of(self.alloc, found)?;
        let file = self.script_file(kind, name)?;
        let file = file.as_ref().map(String::as_str);
        let text = found_text(self.alloc, target, name, sentence, &evidence, file)?;
        let told = told_as(self.alloc, kind, name, text, Some(evidence))?;
        self.tell(target.how.limit, told)
    }

    /// Tells a race that rounds show.
    pub(crate) fn tell_rounds(
        &mut self,
        target: &RunArgs<'_>,
        found: FoundRounds,
    ) -> Result<(), InputFault> {
        let limit = target.how.limit;
        let evidence = Evidence::of_rounds(self.alloc, &found)?;
        let shown = Shortened::of(self.alloc, &found.clash)?;
        if self.folder.path().is_some() {
            let (timeline, key) = (&shown.timeline, &shown.key);
            let picture = draw_key(self.alloc, timeline, key, Form::Svg, limit)?;
            let base = file_name(self.alloc, Kind::Rounds, STRESS)?;
            self.keep(base.as_str(), ".svg", picture.as_slice());
        }
        let (plan, seed) = (&found.plan, self.book.seed);
        let text = rounds_text(self.alloc, target, seed, plan, &shown, &evidence)?;
        let told = told_as(self.alloc, Kind::Rounds, STRESS, text, Some(evidence))?;
        self.tell(limit, told)
    }

    // The file of the script that shows a finding, as a shell takes it, if files are kept.
    fn script_file(&self, kind: Kind, name: &str) -> Result<Option<String>, AllocError> {
        let Some(path) = self.folder.path() else {
            return Ok(None);
        };
        let base = file_name(self.alloc, kind, name)?;
        let file = format!(in self.alloc; "{path}/{base}.script")?;
        Ok(Some(shell_word(self.alloc, file.as_str())?))
    }

    /// Tells what a verb was answered wrongly without a race, with its script.
    pub(crate) fn tell_wrong_alone(
        &mut self,
        limit: u64,
        verb: &str,
        script: &str,
        shown: Shown,
    ) -> Result<(), InputFault> {
        let found = Found {
            script: Vec::from_slice(self.alloc, script.as_bytes())?,
            shown,
            times: 1,
            runs: 1,
        };
        let evidence = Evidence::of(self.alloc, found)?;
        let text = alone_text(self.alloc, limit, verb, &evidence)?;
        let told = told_as(self.alloc, Kind::Alone, verb, text, Some(evidence))?;
        self.tell(limit, told)
    }

    /// Tells what came that is no reply, or more than replies.
    pub(crate) fn tell_wrong(&mut self, name: &str, what: &str) -> Result<(), InputFault> {
        self.wrong = self.wrong.saturating_add(1);
        if self.wrong > MOST_TOLD {
            return Ok(());
        }
        let text = wrong_text(self.alloc, name, what)?.into_bytes();
        let told = told_as(self.alloc, Kind::Reply, name, text, None)?;
        self.tell(0, told)
    }

    // Keeps the files of a finding, notes it, and writes its text. The text is last, since standard output may be closed.
    fn tell(&mut self, limit: u64, told: Told) -> Result<(), InputFault> {
        self.keep_evidence(limit, &told)?;
        self.note(told)?;
        self.say_last()
    }

    fn note(&mut self, told: Told) -> Result<(), AllocError> {
        self.book.told.push(told)?;
        Ok(())
    }

    fn say_last(&mut self) -> Result<(), InputFault> {
        match self.book.told.last() {
            Some(told) if !self.is_json => Ok(self.output.write_all(told.text.as_slice())?),
            _ => Ok(()),
        }
    }

    fn keep_evidence(&mut self, limit: u64, told: &Told) -> Result<(), AllocError> {
        let Some(evidence) = &told.evidence else {
            return Ok(());
        };
        if self.folder.path().is_none() {
            return Ok(());
        }
        let base = file_name(self.alloc, told.kind, told.name.as_str())?;
        let base = base.as_str();
        let history = evidence.history.as_slice();
        self.keep(base, ".history", history);
        self.keep(base, ".txt", told.text.as_slice());
        let Again::Script(script) = &evidence.again else {
            return Ok(());
        };
        self.keep(base, ".script", script.as_slice());
        if let Drawing::Drawn(picture) = draw(self.alloc, history, Form::Svg, limit, None)? {
            self.keep(base, ".svg", picture.as_slice());
        }
        Ok(())
    }

    // Keeps a file, if files are kept.
    fn keep(&mut self, name: &str, extension: &str, bytes: &[u8]) {
        if !self.folder.put(name, extension, bytes) {
            self.book.has_failed = true;
        }
    }

    /// Keeps the reports of all that is known by now.
    pub(crate) fn keep_reports(&mut self, state: &State<'_>) -> Result<(), AllocError> {
        if self.folder.path().is_none() {
            return Ok(());
        }
        let json = report_json(self.alloc, &self.book, state)?;
        self.keep("report", ".json", json.as_slice());
        let junit = report_junit(self.alloc, &self.book, state)?;
        self.keep("junit", ".xml", junit.as_bytes());
        Ok(())
    }

    /// Keeps the reports, and writes the text of the end, or JSON. Of a server that couldn't be reached there is no text.
    pub(crate) fn finish(&mut self, state: &State<'_>, failures: &str) -> Result<(), InputFault> {
        self.keep_reports(state)?;
        if self.is_json {
            let json = report_json(self.alloc, &self.book, state)?;
            self.output.write_all(json.as_slice())?;
        } else if self.book.fault.is_none() {
            let text = end_text(self.alloc, &self.book, state, failures)?;
            self.output.write_all(text.as_bytes())?;
        }
        Ok(())
    }

    /// Ends the test with what was written at its end, or with the fault that cut it short. Answers the exit status.
    pub(crate) fn end(&mut self, state: &State<'_>, ended: Result<(), InputFault>) -> u8 {
        if let Err(fault) = ended {
            self.book.has_failed = true;
            write_fault(fault, self.output);
            // What can't be kept now was kept at the last finding.
            let _ = self.keep_reports(state);
        }
        self.book.status(state)
    }
}

fn wrong_text(alloc: Global, name: &str, what: &str) -> Result<String, AllocError> {
    let mut text = format!(in alloc; "wrong reply: {name}")?;
    push_lines(&mut text, COLUMNS, what)?;
    text.push_str("\n")?;
    Ok(text)
}

fn told_as(
    alloc: Global,
    kind: Kind,
    name: &str,
    text: Vec<u8>,
    evidence: Option<Evidence>,
) -> Result<Told, AllocError> {
    let name = format!(in alloc; "{name}")?;
    Ok(Told {
        kind,
        name,
        text,
        evidence,
    })
}
