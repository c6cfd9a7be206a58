//! The exit statuses.
ghost use Rattle.std.specs.Prelude.{◌≡◌};
ghost use Rattle.mc_answers.specs.Statuses as statuses;
ghost use Rattle.mc_answers.specs.Statuses.{status_number};

/// How a run of the program ended.
#[derive(Clone, Copy, Debug, Drop, PartialEq, Eq)]
pub enum Status {
    /// What was asked for was done, and what was asked about is so.
    Success,
    /// There is no explanation, or the one that was given explains nothing.
    Unexplained,
    /// The command line has a fault.
    WrongLine,
    /// The input was refused.
    Refused,
    /// There is no answer: the turns were used up, memory ran out, or input or output failed.
    NoAnswer,
}

impl Status {
    /// What the program exits with.
    pub fn number(self) -> u8
        ensures { result ≡ status_number self }
    {
        match self {
            Status::Success => 0,
            Status::Unexplained => 1,
            Status::WrongLine => 2,
            Status::Refused => 3,
            Status::NoAnswer => 4,
        }
    }

    /// Whether it is that of what was done, and is so.
    pub fn is_success(self) -> bool
        ensures { result ≡ statuses.is_success self }
    {
        match self {
            Status::Success => true,
            Status::Unexplained | Status::WrongLine | Status::Refused | Status::NoAnswer => false,
        }
    }

    /// The status of two parts together: what is unexplained goes before what has no answer, and that before success.
    pub fn joined(self, other: Status) -> Status
        ensures { result ≡ statuses.joined self other }
    {
        match (self, other) {
            (Status::Success, other) => other,
            (Status::NoAnswer, Status::Unexplained) => Status::Unexplained,
            (one, _) => one,
        }
    }
}
