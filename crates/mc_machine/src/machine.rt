//! A machine that goes along one section of sound code.
ghost use Rattle.std.specs.Prelude.{◌≡◌, ◌↔◌, ℕ, ◌<◌, true, false, Some, None, IfSome, List, [], length, slice_get, slice_set};
ghost use Rattle.mc_protocol.specs.Legal.{class_of};
ghost use Rattle.mc_script.specs.declared.step.Template.{Template};
ghost use Rattle.mc_script.specs.declared.step.Argument.TheVariants as argument_of;
ghost use Rattle.mc_code.specs.States.{Tagged, State, ended, shown_of};
ghost use Rattle.mc_code.specs.{Calls.IsCalling, Code.Code, Paths.entry_of, Runs.Exchange, Standing.ComesTo};
ghost use Rattle.mc_code.specs.Code as codes;
ghost use Rattle.mc_machine.specs.Machine as spec;
ghost use Rattle.mc_machine.specs.Moves as moves;
ghost use Rattle.mc_sound.specs.Faults.{IsSound};

use mc_code::{CLASS_COUNT, Call, Code, INSTRUCTIONS_LIMIT, Instr, entry};
use mc_protocol::{Actor, Reply};
use mc_script::{Argument, VARIABLES_LIMIT};
use mc_sound::Checked;

/// How far one section has come. It stands at a send, whose call may be outstanding, or at the section's end.
///
/// Each call that takes a [`Checked`] asks for the one with which the machine was started.
#[derive(Clone, Debug, Drop)]
pub struct Machine {
    actor: Actor,
    /// The place of the instruction at which it stands.
    place: u8,
    /// The numbers of the variables; 0 where there is none.
    numbers: [u64; VARIABLES_LIMIT],
    /// The number that the last reply showed; 0 where it showed none.
    shown: u64,
    /// The call that waits for its reply.
    outstanding: Option<Call>,
}

impl Machine {
    /// The machine at the first call of the section, or at its end if it makes none. A branch begins with the numbers that P had
    /// at its end; P has none, and looks at none.
    pub fn start(checked: &Checked, actor: Actor, numbers: [u64; VARIABLES_LIMIT]) -> Self
        requires begins { (variables : List Tagged) × spec.StartsFrom checked.now.code actor numbers variables }
        ensures stands { (variables : List Tagged) → spec.StartsFrom checked.now.code actor numbers variables
            → (st : State) × spec.IsAt checked.now.code result variables [] st }
        ensures actor { spec.actor_of result ≡ actor }
        ensures idle { spec.outstanding_of result ≡ None }
    {
        let mut machine = Machine {
            actor,
            place: 0,
            numbers: first_numbers(actor, numbers),
            shown: 0,
            outstanding: None,
        };
        machine.settle(checked.code());
        machine
    }

    /// Makes the next call, which is outstanding from then on; `None` at the end of the section.
    pub fn next(&mut self, checked: &Checked) -> Option<Call>
        requires stands { spec.Stands checked.now.code self.old }
        requires idle { spec.outstanding_of self.old ≡ None }
        ensures calls { (variables : List Tagged) (exchanges : List Exchange) (st : State)
            → spec.IsAt checked.now.code self.old variables exchanges st → spec.IsAt checked.now.code self.new variables exchanges st }
        ensures stands { spec.Stands checked.now.code self.new }
        ensures end { (variables : List Tagged) (exchanges : List Exchange) (st : State)
            → spec.IsAt checked.now.code self.old variables exchanges st
            → (result ≡ None) ↔ ComesTo checked.now.code (spec.actor_of self.old) variables exchanges st ended }
        ensures outstanding { spec.outstanding_of self.new ≡ result }
        ensures actor { spec.actor_of self.new ≡ spec.actor_of self.old }
    {
        self.outstanding = self.upcoming(checked);
        self.waiting()
    }

    /// The call of the send at which it stands, outstanding or not; `None` at the end of the section. Where none is outstanding,
    /// it is the one that [`next`](Machine::next) makes.
    pub fn upcoming(&self, checked: &Checked) -> Option<Call>
        requires stands { spec.Stands checked.now.code self.now }
        ensures call { (variables : List Tagged) (exchanges : List Exchange) (st : State)
            → spec.IsAt checked.now.code self.now variables exchanges st
            → IfSome result (IsCalling checked.now.code (spec.actor_of self.now) variables exchanges) }
        ensures end { (variables : List Tagged) (exchanges : List Exchange) (st : State)
            → spec.IsAt checked.now.code self.now variables exchanges st
            → (result ≡ None) ↔ ComesTo checked.now.code (spec.actor_of self.now) variables exchanges st ended }
    {
        let code = checked.code();
        match code.instruction(self.actor, usize::from(self.place)) {
            Instr::Send { template, .. } => Some(self.call(code, template)),
            Instr::Bind(_) | Instr::Goto(_) | Instr::Halt => None,
        }
    }

    /// Takes the reply to the outstanding call, and goes on to the next one or to the end.
    pub fn answer(&mut self, checked: &Checked, reply: &Reply)
        requires stands { spec.Stands checked.now.code self.old }
        requires fits { spec.MayBeAnswered checked.now.code self.old reply.now }
        ensures answered { spec.IsAnswered checked.now.code self.old reply.now self.new }
        ensures stands { spec.Stands checked.now.code self.new }
        ensures idle { spec.outstanding_of self.new ≡ None }
        ensures actor { spec.actor_of self.new ≡ spec.actor_of self.old }
    {
        let code = checked.code();
        self.take(code, reply);
        self.settle(code);
    }

    /// The outstanding call, if there is one.
    pub fn waiting(&self) -> Option<Call>
        ensures { result ≡ spec.outstanding_of self.now }
    {
        self.outstanding
    }

    /// The number of each variable, in the order of declaration: 0 where it has none. What follows the last one means nothing.
    pub fn numbers(&self) -> [u64; VARIABLES_LIMIT]
        ensures { result ≡ spec.numbers_of self.now }
    {
        self.numbers
    }

    /// Whether the section is done.
    pub fn at_halt(&self, checked: &Checked) -> bool
        requires stands { spec.Stands checked.now.code self.now }
        ensures { (variables : List Tagged) (exchanges : List Exchange) (st : State)
            → spec.IsAt checked.now.code self.now variables exchanges st
            → (result ≡ true) ↔ ComesTo checked.now.code (spec.actor_of self.now) variables exchanges st ended }
    {
        matches!(
            checked
                .code()
                .instruction(self.actor, usize::from(self.place)),
            Instr::Halt
        )
    }

    /// The call of a send that names the template with this index.
    fn call(&self, code: &Code, template: u8) -> Call
        requires { template < length code.now.templates }
        ensures template { result.template ≡ template }
        ensures number { (t : Template) → slice_get code.now.templates template ≡ Some t
            → result.number ≡ moves.plain_number t.argument self.now.numbers }
    {
        let number = self.number(code.template(template).argument);
        Call { template, number }
    }

    /// The number of a request with this argument.
    fn number(&self, argument: Argument) -> u64
        requires { (v : ℕ) → argument ≡ argument_of.Variable v → v < VARIABLES_LIMIT }
        ensures { result ≡ moves.plain_number argument self.now.numbers }
    {
        match argument {
            Argument::Nothing => 0,
            Argument::Number(number) => number,
            Argument::Variable(variable) => self.numbers[usize::from(variable)],
        }
    }

    /// Takes the reply, and goes to the place to which its class leads.
    fn take(&mut self, code: &Code, reply: &Reply)
        requires sound { IsSound code.now }
        requires stands { spec.Stands code.now self.old }
        requires fits { spec.MayBeAnswered code.now self.old reply.now }
        ensures taken { moves.IsTaken code.now self.old reply.now self.new }
        ensures idle { self.new.outstanding ≡ None }
        ensures actor { self.new.actor ≡ self.old.actor }
    {
        match code.instruction(self.actor, usize::from(self.place)) {
            Instr::Send { next, .. } => self.place = place_after(&next, reply),
            Instr::Bind(_) | Instr::Goto(_) | Instr::Halt => unreachable!(),
        }
        self.shown = number_shown(reply);
        self.outstanding = None;
    }

    /// Goes on to the next send, or to the end of the section.
    fn settle(&mut self, code: &Code)
        requires sound { IsSound code.now }
        requires goes { moves.Goes code.now self.old }
        ensures follows { moves.Follows code.now self.old self.new }
        ensures waits { spec.waits_at (slice_get (codes.instructions_in code.now self.new.actor) self.new.place) ≡ true }
        ensures actor { self.new.actor ≡ self.old.actor }
        ensures outstanding { self.new.outstanding ≡ self.old.outstanding }
    {
        'slides: while self.slide(code) {}
    }

    /// Goes on by one instruction that needs no reply. At a send or at the end it goes nowhere and answers false.
    fn slide(&mut self, code: &Code) -> bool
        requires sound { IsSound code.now }
        requires goes { moves.Goes code.now self.old }
        ensures follows { moves.Follows code.now self.old self.new }
        ensures waits { result ≡ false → spec.waits_at (slice_get (codes.instructions_in code.now self.new.actor) self.new.place) ≡ true }
        ensures moves { result ≡ true → (self.old.place < self.new.place) × (self.new.place < INSTRUCTIONS_LIMIT) }
        ensures actor { self.new.actor ≡ self.old.actor }
        ensures outstanding { self.new.outstanding ≡ self.old.outstanding }
    {
        match code.instruction(self.actor, usize::from(self.place)) {
            Instr::Bind(variable) => {
                self.bind(variable);
                self.place += 1;
                true
            }
            Instr::Goto(place) => {
                self.place = place;
                true
            }
            Instr::Send { .. } | Instr::Halt => false,
        }
    }

    /// Gives the variable the number that was shown.
    fn bind(&mut self, variable: u8)
        requires { variable < VARIABLES_LIMIT }
        ensures { self.new ≡ record self.old { numbers = slice_set self.old.numbers variable self.old.shown } }
    {
        self.numbers[usize::from(variable)] = self.shown;
    }
}

/// The place to which the reply leads.
fn place_after(next: &[u8; CLASS_COUNT], reply: &Reply) -> u8
    ensures { result ≡ entry_of next.now (class_of reply.now) }
{
    entry(next, reply.class())
}

/// The numbers with which a section begins: those that are given to a branch, and none in P.
#[tactic(auto, using(crate::proofs::Standing::no_numbers))]
fn first_numbers(actor: Actor, given: [u64; VARIABLES_LIMIT]) -> [u64; VARIABLES_LIMIT]
    ensures { (c : Code) (variables : List Tagged) → spec.StartsFrom c actor given variables → spec.AreNumbersOf result variables }
{
    match actor {
        Actor::P => [0; VARIABLES_LIMIT],
        Actor::A | Actor::B => given,
    }
}

/// The number that the reply shows: the cas unique of a hit, or a new value; 0 where it shows none.
fn number_shown(reply: &Reply) -> u64
    ensures { (key : ℕ) → result ≡ (shown_of key reply.now).1 }
{
    match reply {
        Reply::Hit {
            cas: Some(number),
            ..
        } => *number,
        Reply::Number(number) => *number,
        _ => 0,
    }
}
