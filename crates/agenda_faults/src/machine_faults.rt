//! Why a question about a machine can't be answered.

use plan_rules::Text;
use plan_times::TimeFault;
use plan_write::LocalStamp;
use plan_zones::ZoneFault;

/// An option that gives a time.
#[derive(Clone, Copy, Debug, PartialEq, Eq)]
pub enum TimeOption {
    /// `--after`: starts are listed that are later.
    After,
    /// `--since`: the start of a span.
    Since,
    /// `--until` or `--upto`: the end of a span.
    Until,
}

impl TimeOption {
    ghost use Rattle.std.specs.Prelude.{◌≡◌};
    ghost use Rattle.agenda_faults.specs.MachineLines.{option_name};

    /// Returns the name of the option in a question about a machine.
    pub fn name(self) -> &'static str
        ensures { result.now ≡ option_name self }
    {
        match self {
            TimeOption::After => "--after",
            TimeOption::Since => "--since",
            TimeOption::Until => "--until",
        }
    }
}

/// An option that gives a number. Its range begins with 1.
#[derive(Clone, Copy, Debug, PartialEq, Eq)]
pub enum NumberOption {
    /// `--count`: how many starts of a rule are listed.
    Count,
    /// `--limit`: the maximum number of starts of a plan.
    Limit,
    /// `--planners`: how many planners make a plan.
    Planners,
    /// `--room`: how many messages of each planner may wait.
    Room,
}

impl NumberOption {
    ghost use Rattle.std.specs.Prelude.{◌≡◌};
    ghost use Rattle.agenda_faults.specs.MachineLines.{most_of, number_code, number_name};

    /// Returns the name of the option.
    pub fn name(self) -> &'static str
        ensures { result.now ≡ number_name self }
    {
        match self {
            NumberOption::Count => "--count",
            NumberOption::Limit => "--limit",
            NumberOption::Planners => "--planners",
            NumberOption::Room => "--room",
        }
    }

    /// Returns the greatest number that the option may have. The least is 1.
    pub fn most(self) -> u64
        ensures { result ≡ most_of self }
    {
        match self {
            NumberOption::Count => 1_000,
            NumberOption::Limit => 1_000_000,
            NumberOption::Planners => 8,
            NumberOption::Room => 1_024,
        }
    }

    // Returns the name of the code of a number that is out of range.
    pub(crate) fn code(self) -> &'static str
        ensures { result.now ≡ number_code self }
    {
        match self {
            NumberOption::Count => "BadCount",
            NumberOption::Limit => "BadLimit",
            NumberOption::Planners | NumberOption::Room => "BadSize",
        }
    }
}

/// Why a question about a machine can't be answered. The line is in words.
#[derive(Debug, Drop)]
pub enum MachineFault {
    /// The text of this option is not a time.
    Time(TimeOption, TimeFault, Text),
    /// The text of `--least` is not a length.
    Length(Text),
    /// The number of this option is out of its range.
    Number(NumberOption, u64),
    /// The end of a span is before its start, which is this time.
    Backwards(LocalStamp),
    /// The end of a span that is to be clear is its start, which is this time.
    EmptySpan(LocalStamp),
    /// Nothing has a name that fits this pattern of `--except`.
    NothingExcepted(Text),
    /// Nothing has a name that fits this pattern of `--only`.
    NothingChosen(Text),
    /// The zone with this text can't be used. If there is no such zone, the name of the zone that may be meant follows.
    Zone(Text, ZoneFault, Option<Text>),
    /// The system clock shows a time after the planner's years.
    Clock,
}
