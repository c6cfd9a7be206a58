//! Code that may run.
ghost use Rattle.std.specs.Prelude.{◌≡◌};
ghost use Rattle.mc_protocol.specs.Sections as sections;
ghost use Rattle.mc_sound.specs.{Checked.IsChecked, Costs.IsGreatestCost, Faults.IsSound};

use crate::{Cost, Measure};
use mc_code::Code;
use mc_protocol::{Actor, Sections};
use std::marker::Model;

/// Sound code, with the most that each of its sections may cost. Who makes one has shown that it is; only `verify` of
/// `mc_verify` does.
#[derive(Debug, Drop)]
pub struct Checked {
    code: Code,
    maxima: Sections<Cost>,
}

impl Model for Checked {
    ghost use Rattle.mc_sound.specs.Checked as spec;

    ghost Value = { spec.Checked };

    ghost view = { λ c. record { code = c.code; maxima = c.maxima } };

    ghost invariant = { λ c. spec.IsChecked (record { code = c.code; maxima = c.maxima }) };
}

impl Checked {
    /// The code, which was found to be sound, with what its sections may cost.
    pub fn new(code: Code, maxima: Sections<Cost>) -> Self
        requires { IsChecked (record { code = code; maxima = maxima }) }
        ensures code { result.code ≡ code }
        ensures maxima { result.maxima ≡ maxima }
    {
        Checked { code, maxima }
    }

    /// The code, as it was handed to `verify`.
    pub fn code(&self) -> &Code
        ensures code { result.now ≡ self.now.code }
        ensures sound { IsSound self.now.code }
    {
        &self.code
    }

    /// The most that a section may send: some path of it costs this by each measure, and none costs more.
    pub fn maxima(&self, actor: Actor) -> Cost
        ensures requests { IsGreatestCost self.now.code actor Measure.Requests result.requests }
        ensures bytes { IsGreatestCost self.now.code actor Measure.Bytes result.bytes }
    {
        *self.maxima.get(actor)
    }
}
