//! What is wrong with the text of a time.
use std::error::Error;
use std::fmt::{self, Display, Formatter};

/// What is wrong with the text of a time.
#[derive(Clone, Copy, Debug, PartialEq, Eq)]
pub enum TimeFault {
    /// The text is not a time.
    BadTime,
    /// The time is before 1970, or after the planner's last year.
    OutOfYears,
}

impl TimeFault {
    ghost use Rattle.std.specs.Prelude.{◌≡◌};
    ghost use Rattle.plan_times.specs.Causes.{time_cause};

    /// Returns the name of the error, as error lines show it.
    pub fn name(&self) -> &'static str
        ensures { result.now ≡ time_cause self.now }
    {
        match self {
            TimeFault::BadTime => "BadTime",
            TimeFault::OutOfYears => "OutOfYears",
        }
    }
}

impl Display for TimeFault {
    ghost use Rattle.std.specs.Prelude.{Some};
    ghost use Rattle.plan_times.specs.Causes.{time_cause};

    ghost output = { λ fault. Some (time_cause fault) };

    fn fmt<W: fmt::Write>(&self, f: &mut Formatter<W>) -> fmt::Result {
        f.write_str(self.name())
    }
}

impl Error for TimeFault {}
