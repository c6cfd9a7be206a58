//! The reply from which on nothing explains a run, and what a correct server answers in its place.

use crate::seen::Shown;
use mc_model::{History, Note};
use mc_protocol::{Actor, OutOfMemory, Reply, Request, Verb};
use mc_why::{Finding, Form};
use mc_words::{print_reply_words, print_request_words};
use std::alloc::Global;

// Lines are broken to keep to these columns, as far as their words allow.
const COLUMNS: usize = 80;

/// That reply in words, and those that would be explained, if that was found out.
pub(crate) struct Blame {
    pub(crate) section: Actor,
    pub(crate) verb: Verb,
    pub(crate) request: Vec<u8>,
    pub(crate) reply: Vec<u8>,
    pub(crate) correct: Vec<Vec<u8>>,
}

// One call drops its parts. A derived `Drop` would write them out at each end of each function that holds one.
impl Drop for Blame {
    fn drop(self) {
        let Blame {
            section: _,
            verb: _,
            request: _,
            reply: _,
            correct: _,
        } = self;
    }
}

impl Blame {
    /// The reply that the run's finding blames, if it blames one.
    pub(crate) fn of(alloc: Global, shown: &Shown) -> Result<Option<Blame>, OutOfMemory> {
        let Finding::Cause(cause) = &shown.finding else {
            return Ok(None);
        };
        let Some((section, request, reply)) = answered_at(&shown.history, cause.place) else {
            return Ok(None);
        };
        Ok(Some(Blame {
            section,
            verb: request.verb,
            request: request_text(alloc, request)?,
            reply: reply_text(alloc, reply)?,
            correct: form_texts(alloc, cause.forms.as_slice())?,
        }))
    }

    /// The sentence that says what a correct server answers, or nothing.
    pub(crate) fn sentence(&self, alloc: Global) -> Result<Vec<u8>, OutOfMemory> {
        let (section, verb) = (self.section.word(), self.verb.word());
        let head = format!(in alloc; "  A correct server answers {section}'s {verb}")?;
        let lead = if self.width(head.len()) > COLUMNS {
            "\n    "
        } else {
            " "
        };
        let mut text = Vec::new(alloc);
        'forms: for (index, form) in self.correct.iter().enumerate() {
            let before = if index == 0 { head.as_str() } else { ", or" };
            text.extend_from_slice(before.as_bytes())?;
            text.extend_from_slice(lead.as_bytes())?;
            text.extend_from_slice(form.as_slice())?;
        }
        if !text.is_empty() {
            text.extend_from_slice(b".\n")?;
        }
        Ok(text)
    }

    // The columns of a head of this many and of all replies on one line.
    fn width(&self, head: usize) -> usize {
        let mut width = head;
        'forms: for form in &self.correct {
            width = width.saturating_add(form.len()).saturating_add(5);
        }
        width
    }
}

// The section whose reply was noted at this place, with the request and the reply.
fn answered_at(history: &History, place: usize) -> Option<(Actor, &Request, &Reply)> {
    let (section, reply) = match history.notes()?.get(place)? {
        (section, Note::Reply(reply)) => (*section, reply),
        (_, Note::Begin(_)) => return None,
    };
    let mut answered = 0usize;
    'notes: for (actor, note) in history.notes()?.iter().take(place) {
        if *actor == section && matches!(note, Note::Reply(_)) {
            answered = answered.saturating_add(1);
        }
    }
    let sent = history.sent(section).get(answered)?;
    Some((section, &sent.request, reply))
}

fn request_text(alloc: Global, request: &Request) -> Result<Vec<u8>, OutOfMemory> {
    let mut text = Vec::new(alloc);
    print_request_words(request, &mut text)?;
    Ok(text)
}

fn reply_text(alloc: Global, reply: &Reply) -> Result<Vec<u8>, OutOfMemory> {
    let mut text = Vec::new(alloc);
    print_reply_words(reply, &mut text)?;
    Ok(text)
}

fn form_texts(alloc: Global, forms: &[Form]) -> Result<Vec<Vec<u8>>, OutOfMemory> {
    let mut texts = Vec::new(alloc);
    'forms: for form in forms {
        texts.push(form_text(alloc, form)?)?;
    }
    Ok(texts)
}

fn form_text(alloc: Global, form: &Form) -> Result<Vec<u8>, OutOfMemory> {
    match form {
        Form::Reply(reply) => reply_text(alloc, reply),
        Form::NewNumber { flags, body, .. } => {
            let hit = Reply::Hit {
                flags: *flags,
                body: body.copy(alloc)?,
                cas: None,
            };
            let mut text = reply_text(alloc, &hit)?;
            text.extend_from_slice(b" (a new number)")?;
            Ok(text)
        }
    }
}
