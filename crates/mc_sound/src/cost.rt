//! What requests cost: how many they are, and how many bytes they have.
ghost use Rattle.std.specs.Prelude.{◌≡◌, ◌+◌, ◌-◌, ◌^◌, min, max};
ghost use Rattle.mc_sound.specs.Costs as costs;
ghost use Rattle.mc_sound.specs.declared.measure.Measure.{Measure as By};

use crate::Measure;

/// The most that a path of a section costs, each by itself: the path with the most requests may have fewer bytes than
/// another.
#[derive(Clone, Copy, Debug, PartialEq, Eq)]
pub struct Cost {
    /// How many requests it sends.
    pub requests: u32,
    /// How many bytes the texts of its requests have, where a variable counts as 20 digits.
    pub bytes: u32,
}

impl Cost {
    /// What no request costs.
    pub const ZERO: Cost = Cost {
        requests: 0,
        bytes: 0,
    };

    /// What it is by the measure.
    pub fn by(self, measure: Measure) -> u32
        ensures { result ≡ costs.cost_by measure self }
    {
        match measure {
            Measure::Requests => self.requests,
            Measure::Bytes => self.bytes,
        }
    }

    /// The greater one by each measure.
    pub fn max(self, other: Self) -> Self
        ensures { (measure : By) → costs.cost_by measure result ≡ max (costs.cost_by measure self) (costs.cost_by measure other) }
    {
        Cost {
            requests: self.requests.max(other.requests),
            bytes: self.bytes.max(other.bytes),
        }
    }

    /// Both together. No path costs as much as a `u32` may be.
    pub fn plus(self, other: Self) -> Self
        ensures { (measure : By) → costs.cost_by measure result
            ≡ min (costs.cost_by measure self + costs.cost_by measure other) (2 ^ 32 - 1) }
    {
        Cost {
            requests: self.requests.saturating_add(other.requests),
            bytes: self.bytes.saturating_add(other.bytes),
        }
    }
}
