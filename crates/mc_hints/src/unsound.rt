//! The hint on a script whose code isn't sound: the run that shows it, in the lines of the script, and the line of the step at fault.

use crate::caret::{Shown, WIDTH, with_caret};
use crate::sentence::Sentence;
use crate::shown_run::{asking_step, label_on};
use crate::spot::{Spot, line_at};
use bstr::ByteSlice;
use mc_assembler::step_at;
use mc_protocol::{Actor, Class, Verb};
use mc_script::{Argument, Budget, Script, Step, Template};
use mc_script_text::{ScriptKind, StepLines, parse_lines};
use mc_verify::{Refusal, RefusalKind};
use std::alloc::{AllocError, Global};
use std::fmt::Write;

// A script with the text that spells it, and why its code is refused.
#[derive(Clone, Copy, Drop)]
struct Unsound<'a> {
    text: &'a [u8],
    script: &'a Script,
    lines: &'a StepLines,
    kind: RefusalKind,
    // Where the fault is: the section, and the step by its index among those of the section. A delete before P's steps is no step.
    section: Actor,
    step: Option<usize>,
    // The replies of a run that shows the fault.
    shown: &'a [(Actor, Class)],
}

// A request of the run that shows the fault: what its step says, the line on which that stands, and the class of the reply.
#[derive(Clone, Copy, Drop)]
struct Asked<'a> {
    section: Actor,
    line: u32,
    template: &'a Template,
    jumps: &'a [(Class, usize)],
    bind: Option<u8>,
    class: Class,
}

/// The lines: each reply of the run with the line that asked for it, and the line of the step that is at fault with a caret and a
/// sentence. There are none for an image. A delete before P's steps stands in no line: one sentence names it.
pub fn unsound_hint(alloc: Global, text: &[u8], refusal: &Refusal) -> Result<String, AllocError> {
    match parse_lines(alloc, text) {
        Ok((script, lines)) => {
            let unsound = Unsound {
                text,
                script: &script,
                lines: &lines,
                kind: refusal.kind,
                section: refusal.actor,
                step: step_at(&script, refusal.actor, usize::from(refusal.place)),
                shown: refusal.shown.as_slice(),
            };
            unsound.hint(alloc)
        }
        // Want of memory is no fault of the text.
        Err(fault) => match fault.kind {
            ScriptKind::OutOfMemory => Err(AllocError),
            _ => Ok(String::new(alloc)),
        },
    }
}

impl<'a> Unsound<'a> {
    fn hint(&self, alloc: Global) -> Result<String, AllocError> {
        let mut out = String::new(alloc);
        for (index, (_, class)) in self.shown.iter().enumerate() {
            match self.script.keys().get(index) {
                Some(key) => {
                    let key = Shown::start(key.as_slice(), WIDTH);
                    write!(out, "first: delete {key} was answered {}\n", class.word())?;
                }
                None => self.append_reply(alloc, &mut out, index)?,
            }
        }
        let line = self
            .step
            .and_then(|step| self.lines.of(self.section).get(step));
        match (line, self.kind) {
            (Some(line), _) => {
                let spot = Spot::of_mark(alloc, self.text, *line, self.mark())?;
                let text = self.sentence(&spot);
                let remedy = self.remedy(alloc)?;
                let shown = with_caret(alloc, &Sentence { text, spot: &spot }, remedy.as_str())?;
                out.push_str(shown.as_str())?;
            }
            // The deletes of the keys before P's steps stand in no line.
            (None, RefusalKind::TooManyRequests | RefusalKind::TooManyBytes) => {
                out.push_str(
                    "P deletes each key before its steps, and `budget P` must allow that too\n",
                )?;
            }
            (None, _) => {}
        }
        Ok(out)
    }

    // Appends by which reply a line of the script was answered. A variable that is left without a number is named.
    fn append_reply(
        &self,
        alloc: Global,
        out: &mut String,
        index: usize,
    ) -> Result<(), AllocError> {
        let Some(asked) = self.asked(index) else {
            return Ok(());
        };
        let front = format!(in alloc; "line {}: ", asked.line)?;
        let mut back = format!(in alloc; " was answered {}", asked.class.word())?;
        if let Some(name) = self.left_unbound(&asked) {
            write!(back, ": `{}` has no number", Shown::start(name, WIDTH))?;
        }
        let request = line_at(self.text, asked.line).unwrap_or(&[]).trim_ascii();
        let room = WIDTH.saturating_sub(front.len()).saturating_sub(back.len());
        write!(out, "{front}{}{back}\n", Shown::start(request, room))
    }

    // The request of the run to which the reply with this index came, after those to the deletes of the keys.
    fn asked(&self, index: usize) -> Option<Asked<'a>> {
        let (section, class) = self.shown.get(index)?;
        let step = asking_step(self.script, self.shown, index)?;
        match self.script.steps(*section).get(step)? {
            Step::Send {
                template,
                jumps,
                bind,
            } => Some(Asked {
                section: *section,
                line: *self.lines.of(*section).get(step)?,
                template,
                jumps: jumps.as_slice(),
                bind: *bind,
                class: *class,
            }),
            _ => None,
        }
    }

    // The name of the variable that has no number at the step at fault, if this request should have given it one.
    fn left_unbound(&self, asked: &Asked<'_>) -> Option<&'a [u8]> {
        let is_before = asked.section == Actor::P || asked.section == self.section;
        match self.script.steps(self.section).get(self.step?)? {
            Step::Send { template, .. } if is_before && self.kind == RefusalKind::Unbound => {
                match template.argument {
                    Argument::Variable(variable) if asked.bind == Some(variable) => {
                        Some(self.script.vars().get(usize::from(variable))?.as_slice())
                    }
                    _ => None,
                }
            }
            _ => None,
        }
    }

    // The last request of the run that left the variable of the step at fault without a number, and its name.
    fn last_unbinding(&self) -> Option<(Asked<'a>, &'a [u8])> {
        let mut last = None;
        for (index, _) in self.shown.iter().enumerate() {
            if let Some(asked) = self.asked(index) {
                last = self.left_unbound(&asked).map(|name| (asked, name)).or(last);
            }
        }
        last
    }

    // The mark before the word at fault, if one word is.
    fn mark(&self) -> u8 {
        match self.kind {
            RefusalKind::Unbound | RefusalKind::WrongKind => b'$',
            RefusalKind::FlagMayBeClear => b'?',
            RefusalKind::FlagMayBeSet => b'!',
            _ => b' ',
        }
    }

    // The text of a sentence about the word at fault; about its line if more than one word may be.
    fn sentence(&self, spot: &Spot<'_>) -> &'static str {
        match (self.kind, spot.word()) {
            (RefusalKind::Unbound, _) if self.last_unbinding().is_some() =>
                "`{marked}` may have no number here, since any reply may come",
            (RefusalKind::Unbound, _) =>
                "`{marked}` may have no number here: no request of this run gives it one",
            (RefusalKind::WrongKind, _) if spot.verb() == Some(Verb::Cas) =>
                "a cas of {second} needs what a gets of {second} showed; `{marked}` may have another number",
            (RefusalKind::WrongKind, _) =>
                "an amount is a number that an incr or decr showed; `{marked}` may have a cas unique",
            (RefusalKind::NothingToBind, _) =>
                "the last reply before it may have shown no number: jump past this line then",
            (RefusalKind::FlagMayBeClear, [b'?', ..]) =>
                "the flag `{marked}` may be clear here: set it above in this section, or in P, or leave its mark out",
            (RefusalKind::FlagMayBeClear, _) =>
                "one of these flags may be clear here: set it above in this section, or in P, or leave its mark out",
            (RefusalKind::FlagMayBeSet, [b'!', ..]) =>
                "the flag `{marked}` may be set here: a step above sets it, or the other branch may",
            (RefusalKind::FlagMayBeSet, _) =>
                "one of these flags may be set here: a step above sets it, or the other branch may",
            (RefusalKind::TooManyRequests, _) =>
                "with this there may be more requests than allowed",
            (RefusalKind::TooManyBytes, _) => "with this there may be more bytes than allowed",
            // Only images have the others, and want of memory has no sentence.
            _ => "",
        }
    }

    // What follows the sentence: the budget, or what is to be written so that a variable has a number.
    fn remedy(&self, alloc: Global) -> Result<String, AllocError> {
        let section = self.section;
        match (self.kind, self.last_unbinding()) {
            (RefusalKind::TooManyRequests | RefusalKind::TooManyBytes, _) => {
                let Budget { requests, bytes } = self.script.budget(section);
                let deletes = match section {
                    Actor::P => "\na delete of each key before P's steps counts too",
                    Actor::A | Actor::B => "",
                };
                format!(in alloc; ": `budget {} {requests} {bytes}`{deletes}", section.word())
            }
            // A jump in P passes over no step of a branch.
            (_, Some((asked, name))) if asked.section != section => self.own_reading(
                alloc, &asked, name,
            ),
            (_, Some((asked, _))) => jump_remedy(alloc, &asked),
            (_, None) => Ok(String::new(alloc)),
        }
    }

    // That a branch has to read a number itself that P may not have read by this request.
    fn own_reading(
        &self,
        alloc: Global,
        asked: &Asked<'_>,
        name: &[u8],
    ) -> Result<String, AllocError> {
        let template = asked.template;
        let key = self.script.keys().get(usize::from(template.key));
        let key: &[u8] = key.map_or(&[], |key| key.as_slice());
        let mut out = format!(in alloc;
            "\neach branch that needs it has to read it itself: above this line write\n`{} {}",
            template.verb.word(),
            Shown::start(key, WIDTH)
        )?;
        match template.argument {
            Argument::Nothing => {}
            Argument::Number(amount) => write!(out, " {amount}")?,
            Argument::Variable(_) => out.push_str(" AMOUNT")?,
        }
        append_jumps(&mut out, template.verb, &[])?;
        write!(
            out,
            " >{}`, and below it a line `LABEL:`",
            Shown::start(name, WIDTH)
        )?;
        Ok(out)
    }
}

// What is to be written so that the step at fault is passed over if this request of its section gets no number.
fn jump_remedy(alloc: Global, asked: &Asked<'_>) -> Result<String, AllocError> {
    let line = asked.line;
    if label_on(asked.jumps, asked.class).is_some() {
        let class = asked.class.word();
        return format!(in alloc; "\nlet `{class}:` on line {line} lead to a line below this one");
    }
    let mut out = format!(in alloc; "\nwrite")?;
    append_jumps(&mut out, asked.template.verb, asked.jumps)?;
    write!(out, " on line {line}, and a line `LABEL:` further down")?;
    Ok(out)
}

// Appends a jump on each class of replies to the verb that shows no number, while others do, if these jumps have none on it.
fn append_jumps(out: &mut String, verb: Verb, jumps: &[(Class, usize)]) -> Result<(), AllocError> {
    let classes: &[Class] = match verb {
        Verb::Gets => &[Class::Miss],
        Verb::Incr | Verb::Decr => &[Class::NotFound, Class::NotNumber],
        _ => &[],
    };
    for class in classes {
        if label_on(jumps, *class).is_none() {
            write!(out, " {}:LABEL", class.word())?;
        }
    }
    Ok(())
}
