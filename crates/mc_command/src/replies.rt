//! How often requests were answered how.
ghost use Rattle.std.specs.Prelude.{◌≡◌, ◌==◌, ◌+◌, List, Option, ◌∷◌, [], ◌++◌, if◌then◌else◌};
ghost use Rattle.mc_image.specs.Image.{verb_index};
ghost use Rattle.mc_model.specs.declared.sent.Sent.{Sent};
ghost use Rattle.mc_protocol.specs.declared.reply.Class.{Class};
ghost use Rattle.mc_command.specs.Replies as spec;
ghost use Rattle.mc_command.specs.Replies.{CountsRequests};

use mc_model::Sent;
use mc_protocol::{Class, Verb};
use std::fmt::{Display, Error, Formatter, Write};

// How many verbs and classes there are.
const VERBS: usize = 12;

const CLASSES: usize = 10;

/// How many requests had a reply of each class, and how many had none. No count is greater than 2^64 - 1.
#[derive(Clone, Copy, Drop, PartialEq, Eq)]
pub struct Answers {
    /// In the order of [`Class::ALL`].
    by_class: [u64; CLASSES],
    unanswered: u64,
}

impl Answers {
    /// Of no requests.
    fn new() -> Answers
        ensures { result ≡ spec.no_answers }
    {
        Answers {
            by_class: [0; CLASSES],
            unanswered: 0,
        }
    }

    /// How many requests had a reply of this class, or had none.
    pub fn count(&self, class: Option<Class>) -> u64
        ensures { result ≡ spec.answers_in self.now class }
    {
        match class {
            Some(class) => self.by_class[usize::from(class.index())],
            None => self.unanswered,
        }
    }

    /// One request more, with a reply of this class, or with none.
    fn add(&mut self, class: Option<Class>)
        ensures { (other : Option Class) → spec.answers_in self.new other ≡ (if spec.is_same_answer other class
            then spec.capped (spec.answers_in self.old other + 1) else spec.answers_in self.old other) }
    {
        match class {
            Some(class) => {
                let place = usize::from(class.index());
                self.by_class[place] = self.by_class[place].saturating_add(1);
            }
            None => self.unanswered = self.unanswered.saturating_add(1),
        }
    }
}

/// How often each class came, without those that never came; and how many requests have no reply, if there are any.
impl Display for Answers {
    fn fmt<W: Write>(&self, f: &mut Formatter<W>) -> Result<(), Error> {
        let mut separator = "";
        for class in Class::ALL {
            let count = self.count(Some(class));
            if count > 0 {
                write!(f, "{separator}{count} {}", class.word())?;
                separator = ", ";
            }
        }
        match self.unanswered {
            0 => Ok(()),
            count => write!(f, "{separator}{count} without a reply"),
        }
    }
}

/// How many requests of each verb were answered how.
#[derive(Clone, Copy, Drop, PartialEq, Eq)]
pub struct Replies {
    /// In the order of [`Verb::ALL`].
    by_verb: [Answers; VERBS],
}

impl Replies {
    /// Of no requests.
    pub fn new() -> Replies
        ensures { CountsRequests [] result }
    {
        Replies {
            by_verb: [Answers::new(); VERBS],
        }
    }

    /// How the requests of this verb were answered.
    pub fn of(&self, verb: Verb) -> &Answers
        ensures { result.now ≡ spec.answers_of self.now verb }
    {
        &self.by_verb[place(verb)]
    }

    // Puts these counts in the place of the verb's.
    fn set(&mut self, verb: Verb, answers: Answers)
        ensures { (other : Verb) → spec.answers_of self.new other
            ≡ (if verb_index other == verb_index verb then answers else spec.answers_of self.old other) }
    {
        self.by_verb[place(verb)] = answers;
    }

    /// One request more.
    fn add(&mut self, sent: &Sent)
        ensures { (earlier : List Sent) → CountsRequests earlier self.old → CountsRequests (earlier ++ sent.now ∷ []) self.new }
    {
        let verb = sent.request.verb;
        let mut answers = *self.of(verb);
        answers.add(class_of(sent));
        self.set(verb, answers);
    }

    /// The requests of a section more.
    pub fn add_all(&mut self, section: &[Sent])
        ensures { (earlier : List Sent) → CountsRequests earlier self.old → CountsRequests (earlier ++ section.now) self.new }
    {
        'requests: for sent in section {
            self.add(sent);
        }
    }
}

/// A line for each verb that was asked.
impl Display for Replies {
    fn fmt<W: Write>(&self, f: &mut Formatter<W>) -> Result<(), Error> {
        for verb in Verb::ALL {
            let answers = self.of(verb);
            if *answers != Answers::new() {
                write!(f, "mcrace: {}: {answers}\n", verb.word())?;
            }
        }
        Ok(())
    }
}

// The class of the reply to a request, if there is one.
fn class_of(sent: &Sent) -> Option<Class>
    ensures { result ≡ spec.answer_of sent.now }
{
    match &sent.reply {
        Some(reply) => Some(reply.class()),
        None => None,
    }
}

// Where the verb stands in `Verb::ALL`.
fn place(verb: Verb) -> usize
    ensures { result ≡ verb_index verb }
{
    match verb {
        Verb::Set => 0,
        Verb::Add => 1,
        Verb::Replace => 2,
        Verb::Append => 3,
        Verb::Prepend => 4,
        Verb::Cas => 5,
        Verb::Get => 6,
        Verb::Gets => 7,
        Verb::Incr => 8,
        Verb::Decr => 9,
        Verb::Delete => 10,
        Verb::Touch => 11,
    }
}
