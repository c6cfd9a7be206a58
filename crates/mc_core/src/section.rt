//! One section of a world.
ghost use Rattle.std.specs.Prelude.{◌≡◌, ◌≢◌, ℕ, ◌<◌, ◌≤◌, Some, None, List, [], ◌∷◌, ◌++◌, slice_index_or, IfOk, vec_len, vec_capacity};
ghost use Rattle.mc_core.specs.Fields as fields;
ghost use Rattle.mc_core.specs.Histories.{no_call};
ghost use Rattle.mc_machine.specs.Machine as machines;
ghost use Rattle.mc_protocol.specs.Sections as of_sections;
ghost use Rattle.mc_code.specs.States.{Tagged};

use crate::{Ending, StepRefusal};
use mc_code::{Call, Code};
use mc_machine::Machine;
use mc_protocol::{Actor, Event, Fault, OutOfMemory, REQUESTS_LIMIT, Reply, Sections, may_answer};
use mc_script::VARIABLES_LIMIT;
use mc_sound::Checked;
use std::alloc::Global;

/// What a world holds of a section. The replies to its calls stand in the world's notes.
#[derive(Debug, Drop)]
pub(crate) struct Section {
    /// Nothing until the section begins. Its outstanding call is the one that has no reply.
    pub(crate) machine: Option<Machine>,
    /// The calls that have replies, in order.
    pub(crate) answered: Vec<Call>,
    pub(crate) ending: Ending,
}

impl Section {
    /// A section that hasn't begun, with room for all calls that it may make.
    pub(crate) fn new(alloc: Global) -> Result<Section, OutOfMemory>
        ensures machine { IfOk result (λ s. s.machine ≡ None) }
        ensures answered { IfOk result (λ s. s.answered.items ≡ []) }
        ensures room { IfOk result (λ s. REQUESTS_LIMIT ≤ vec_capacity s.answered) }
        ensures ending { IfOk result (λ s. s.ending ≡ Ending.NotBegun) }
    {
        Ok(Section {
            machine: None,
            answered: Vec::with_capacity(alloc, REQUESTS_LIMIT)?,
            ending: Ending::NotBegun,
        })
    }

    /// Begins with these numbers in its variables. P looks at none.
    pub(crate) fn begin(&mut self, checked: &Checked, actor: Actor, numbers: [u64; VARIABLES_LIMIT])
        requires begins { (variables : List Tagged) × machines.StartsFrom checked.now.code actor numbers variables }
        ensures { fields.Begins checked.now.code actor numbers self.old self.new }
    {
        let machine = Machine::start(checked, actor, numbers);
        self.ending = ending_at(&machine, checked);
        self.machine = Some(machine);
    }

    /// The call that waits for its reply.
    pub(crate) fn waiting(&self) -> Option<Call>
        ensures { result ≡ fields.waiting_in self.now.machine }
    {
        match &self.machine {
            Some(machine) => machine.waiting(),
            None => None,
        }
    }

    /// What ended the section before its code did.
    pub(crate) fn fault(&self) -> Option<Fault>
        ensures { result ≡ fields.fault_in self.now.ending }
    {
        match self.ending {
            Ending::Failed(fault) => Some(fault),
            Ending::NotBegun | Ending::Running | Ending::Done => None,
        }
    }

    /// The call with this index, counted from 0, of all that the section made.
    pub(crate) fn call(&self, index: usize) -> Call
        ensures { result ≡ slice_index_or (fields.calls_of self.now) index no_call }
    {
        match self.answered.get(index) {
            Some(made) => *made,
            None => match self.waiting() {
                Some(made) if index == self.answered.len() => made,
                _ => Call {
                    template: 0,
                    number: 0,
                },
            },
        }
    }

    /// The first of all that is against the event.
    pub(crate) fn refusal(&self, code: &Code, event: &Event) -> Option<StepRefusal>
        requires { fields.NamesATemplate code.now (fields.waiting_in self.now.machine) }
        ensures { result ≡ fields.refusal_in code.now self.now.ending (fields.waiting_in self.now.machine) event.now }
    {
        match self.ending {
            Ending::NotBegun => Some(StepRefusal::NotYet),
            Ending::Running => refusal_of(code, self.waiting(), event),
            Ending::Done | Ending::Failed(_) => Some(StepRefusal::Over),
        }
    }

    /// The call that the next [`Event::Begin`] begins, where nothing is against that.
    pub(crate) fn upcoming(&self, checked: &Checked) -> Option<Call>
        requires { fields.MayTake checked.now.code self.now Event.Begin }
        ensures { fields.IsUpcoming checked.now.code self.now result }
    {
        match &self.machine {
            Some(machine) => machine.upcoming(checked),
            None => unreachable!(),
        }
    }

    /// Takes an event that nothing is against. Its reply stays with the caller.
    pub(crate) fn take(&mut self, checked: &Checked, event: &Event)
        requires { fields.MayTake checked.now.code self.old event.now }
        ensures { fields.Takes checked.now.code self.old event.now self.new }
    {
        match event {
            Event::Begin => self.begin_call(checked),
            Event::Reply(reply) => self.answer(checked, reply),
            Event::Fail(fault) => self.ending = Ending::Failed(*fault),
        }
    }

    /// Makes the next call.
    fn begin_call(&mut self, checked: &Checked)
        requires { fields.MayTake checked.now.code self.old Event.Begin }
        ensures { fields.Takes checked.now.code self.old Event.Begin self.new }
    {
        match &mut self.machine {
            Some(machine) => {
                machine.next(checked);
            }
            None => unreachable!(),
        }
    }

    /// Gives the call that waits its reply.
    fn answer(&mut self, checked: &Checked, reply: &Reply)
        requires { fields.MayTake checked.now.code self.old (Event.Reply reply.now) }
        ensures { fields.Takes checked.now.code self.old (Event.Reply reply.now) self.new }
    {
        match &mut self.machine {
            Some(machine) => {
                if let Some(made) = machine.waiting() {
                    add_call(&mut self.answered, made);
                }
                self.ending = answer_call(machine, checked, reply);
            }
            None => unreachable!(),
        }
    }
}

/// One section takes an event that nothing is against; where P is done after it, the branches begin.
pub(crate) fn take_event(
    sections: &mut Sections<Section>,
    checked: &Checked,
    actor: Actor,
    event: &Event,
)
    requires may { fields.MayTake checked.now.code (of_sections.section_of sections.old actor) event.now }
    requires leaves { actor ≡ Actor.P → fields.LeavesAfter checked.now.code sections.old event.now }
    ensures { fields.AllTake checked.now.code sections.old actor event.now sections.new }
{
    match actor {
        Actor::P => {
            sections.p.take(checked, event);
            begin_branches(sections, checked);
        }
        Actor::A => sections.a.take(checked, event),
        Actor::B => sections.b.take(checked, event),
    }
}

/// Begins the branches with the numbers that P leaves, where P is done.
pub(crate) fn begin_branches(sections: &mut Sections<Section>, checked: &Checked)
    requires { sections.old.p.ending ≡ Ending.Done → fields.LeavesNumbers checked.now.code sections.old.p }
    ensures { fields.BranchesFollow checked.now.code sections.old sections.new }
{
    if let Ending::Done = sections.p.ending {
        if let Some(machine) = &sections.p.machine {
            let numbers = machine.numbers();
            sections.a.begin(checked, Actor::A, numbers);
            sections.b.begin(checked, Actor::B, numbers);
        }
    }
}

/// What is against an event of a section that goes on, with this call waiting.
fn refusal_of(code: &Code, waiting: Option<Call>, event: &Event) -> Option<StepRefusal>
    requires { fields.NamesATemplate code.now waiting }
    ensures { result ≡ fields.refusal_of code.now waiting event.now }
{
    match (event, waiting) {
        (Event::Begin, Some(_)) => Some(StepRefusal::Waiting),
        (Event::Reply(_), None) => Some(StepRefusal::NotWaiting),
        (Event::Reply(reply), Some(made)) => {
            if may_answer(code.template(made.template).verb, reply) {
                None
            } else {
                Some(StepRefusal::WrongReply)
            }
        }
        (Event::Begin, None) | (Event::Fail(_), _) => None,
    }
}

/// Gives the machine's call its reply. The result is how its section stands then.
#[tactic(auto, using(crate::proofs::MachineLemmas::answered_stands))]
fn answer_call(machine: &mut Machine, checked: &Checked, reply: &Reply) -> Ending
    requires stands { machines.Stands checked.now.code machine.old }
    requires fits { machines.MayBeAnswered checked.now.code machine.old reply.now }
    ensures answered { machines.IsAnswered checked.now.code machine.old reply.now machine.new }
    ensures idle { machines.outstanding_of machine.new ≡ None }
    ensures actor { machines.actor_of machine.new ≡ machines.actor_of machine.old }
    ensures ending { fields.EndsAs checked.now.code machine.new result }
{
    machine.answer(checked, reply);
    ending_at(machine, checked)
}

/// How a section stands that goes on from here, or is at its end.
fn ending_at(machine: &Machine, checked: &Checked) -> Ending
    requires { machines.Stands checked.now.code machine.now }
    ensures { fields.EndsAs checked.now.code machine.now result }
{
    if machine.at_halt(checked) {
        Ending::Done
    } else {
        Ending::Running
    }
}

/// Adds a call where there is room.
fn add_call(calls: &mut Vec<Call>, made: Call)
    requires { vec_len calls.old < vec_capacity calls.old }
    ensures items { calls.new.items ≡ calls.old.items ++ made ∷ [] }
    ensures room { vec_capacity calls.old ≤ vec_capacity calls.new }
{
    let _ = calls.push(made);
}
