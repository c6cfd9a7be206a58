//! The kinds of the numbers that a section knows along the replies of a run.
ghost use Rattle.std.specs.Prelude.{◌≡◌, ℕ, ◌<◌, ◌≤◌, Some};
ghost use Rattle.mc_script.specs.declared.limits.TheConstants.{VARIABLES_LIMIT};
ghost use Rattle.mc_code.specs.{Code.Code as Codes, Runs.after_slide, Standing.no_variables};
ghost use Rattle.mc_code.specs.States as states;
ghost use Rattle.mc_verify.specs.VariableFaults.{is_outcome};
ghost use Rattle.mc_counterexample.specs.KindReplays.{state_of, after_class};

use mc_code::{Instr, Kind};
use mc_flow::shown_by;
use mc_protocol::Class;
use mc_script::{Argument, Template, VARIABLES_LIMIT};
use mc_sound::RefusalKind;
use mc_verify::is_wrong;

/// What a section knows: which numbers it has makes no difference to a fault.
#[derive(Clone, Copy, Debug)]
pub(crate) struct Knowledge {
    /// What the number of each variable is.
    pub variables: [Kind; VARIABLES_LIMIT],
    /// What the last reply showed.
    pub last: Kind,
}

impl Knowledge {
    /// Where P begins: no variable has a number, and there was no reply.
    pub(crate) fn none() -> Self
        ensures { (c : Codes) → c.vars ≤ VARIABLES_LIMIT → state_of c result ≡ states.initial_state (no_variables c) }
    {
        Knowledge {
            variables: [Kind::Unbound; VARIABLES_LIMIT],
            last: Kind::Unbound,
        }
    }

    /// Where a branch begins with these variables: there was no reply.
    pub(crate) fn before_replies(&self) -> Self
        ensures { (c : Codes) → state_of c result ≡ states.initial_state (state_of c self.now).variables }
    {
        Knowledge {
            variables: self.variables,
            last: Kind::Unbound,
        }
    }

    /// After the variable takes the number that was shown, if one was.
    pub(crate) fn after_bind(&self, variable: u8) -> Self
        requires { variable < VARIABLES_LIMIT }
        ensures { (c : Codes) → variable < c.vars → state_of c result ≡ states.after_bind variable (state_of c self.now) }
    {
        match self.last {
            Kind::Unbound => *self,
            _ => {
                let mut variables = self.variables;
                variables[usize::from(variable)] = self.last;
                Knowledge {
                    variables,
                    last: self.last,
                }
            }
        }
    }

    /// After the instruction leads on without a reply.
    pub(crate) fn after_slide(&self, instruction: Instr) -> Self
        requires { (variable : ℕ) → instruction ≡ Instr.Bind variable → variable < VARIABLES_LIMIT }
        ensures { (c : Codes) → ((variable : ℕ) → instruction ≡ Instr.Bind variable → variable < c.vars)
            → state_of c result ≡ after_slide instruction (state_of c self.now) }
    {
        match instruction {
            Instr::Bind(variable) => self.after_bind(variable),
            _ => *self,
        }
    }

    /// After a reply of the class to a request of the template.
    pub(crate) fn after_reply(&self, template: &Template, class: Class) -> Self
        ensures { (c : Codes) → state_of c result ≡ after_class template.now class (state_of c self.now) }
    {
        Knowledge {
            variables: self.variables,
            last: shown_by(template, class),
        }
    }
    /// Whether a request of the template would be a fault of the kind.
    pub(crate) fn sends_wrong(&self, kind: RefusalKind, template: &Template) -> bool
        requires { (variable : ℕ) → template.now.argument ≡ Argument.Variable variable → variable < VARIABLES_LIMIT }
        ensures { (c : Codes) → ((variable : ℕ) → template.now.argument ≡ Argument.Variable variable → variable < c.vars)
            → result ≡ is_outcome kind (Some (states.send_outcome template.now (state_of c self.now))) }
    {
        match template.argument {
            Argument::Variable(variable) => is_wrong(
                kind,
                template,
                self.variables[usize::from(variable)],
            ),
            Argument::Nothing | Argument::Number(_) => false,
        }
    }

    /// Whether a bind would be a fault of the kind: nothing was shown.
    pub(crate) fn binds_nothing(&self, kind: RefusalKind) -> bool
        ensures { (c : Codes) (variable : ℕ) → result ≡ is_outcome kind (states.bind_outcome variable (state_of c self.now)) }
    {
        matches!(kind, RefusalKind::NothingToBind) && matches!(self.last, Kind::Unbound)
    }
}
