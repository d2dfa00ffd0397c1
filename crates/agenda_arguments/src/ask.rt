//! What the arguments of the command line request.

ghost use Rattle.std.specs.Prelude.{◌≡◌};
ghost use Rattle.agenda_arguments.specs.Tables.{is_table};

use crate::names::JobNames;
use agenda_codes::Code;
use agenda_policy::Policy;
use agenda_sources::{Asked, SourcePaths};
use plan_collect::{PlanView, Sizes};
use plan_texts::Text;
use std::alloc::AllocError;
use thiserror::Error;

/// The time zones of a request.
#[derive(Debug, Drop)]
pub struct ZonesRequest {
    /// The text of the time zone of the rules. It is UTC if this is missing.
    pub zone: Option<Text>,
    /// Whether calendar events may end with a time zone other than UTC.
    pub event_zones: bool,
}

/// How an answer is written.
#[derive(Clone, Copy, Debug)]
pub struct FormatRequest {
    /// Whether each line is a JSON object.
    pub json: bool,
    /// Whether times are shown by the clock of the time zone.
    pub local: bool,
}

/// What jobs are read from.
#[derive(Debug, Drop)]
pub struct JobsRequest {
    /// The time zones of the rules.
    pub zones: ZonesRequest,
    /// The paths of the sources, in the order of their kinds. Those of one kind are in the order of the arguments.
    pub sources: SourcePaths,
    /// Whether what is invalid or can't be read is skipped and reported.
    pub keep_going: bool,
    /// Whether the delays of timers count, so that a start may happen later than planned.
    pub delays: bool,
    /// How the answer is written.
    pub format: FormatRequest,
}

/// What a plan is made from.
#[derive(Debug, Drop)]
pub struct PlanRequest {
    /// The text of a timestamp, the start of the span.
    pub since: Text,
    /// The text of a timestamp, the end of the span. It is outside the span.
    pub upto: Text,
    /// The jobs.
    pub jobs: JobsRequest,
    /// The number of planners, the capacity of each one's ring, and the maximum number of starts.
    pub sizes: Sizes,
}

/// What an earlier agenda is compared with.
#[derive(Debug, Drop)]
pub struct ChangesRequest {
    /// The path of the earlier agenda.
    pub before: Text,
    /// The jobs.
    pub jobs: JobsRequest,
    /// The number of planners, the capacity of each one's ring, and the maximum number of starts.
    pub sizes: Sizes,
}

/// What next starts are listed of.
#[derive(Debug, Drop)]
pub struct NextRequest {
    /// The text of a timestamp. The starts are later.
    pub after: Text,
    /// The time zones of the rule.
    pub zones: ZonesRequest,
    /// The number of starts.
    pub count: u32,
    /// The rule.
    pub rule: Asked,
    /// How the answer is written.
    pub format: FormatRequest,
}

/// A span of time.
#[derive(Debug, Drop)]
pub struct SpanRequest {
    /// The text of a time, the start of the span.
    pub since: Text,
    /// The text of a time, the end of the span. It is outside the span.
    pub until: Text,
}

/// What is made of the jobs of a machine.
#[derive(Debug, Drop)]
pub enum MachineGoal {
    /// The next start of each job.
    Upcoming {
        /// The text of a time. The starts are later.
        after: Text,
    },
    /// The agenda of a span.
    Plan {
        /// The span.
        span: SpanRequest,
        /// The number of planners, the capacity of each one's ring, and the maximum number of starts.
        sizes: Sizes,
        /// What is printed of the agenda.
        view: PlanView,
    },
    /// The gaps of a span in which no job starts.
    Quiet {
        /// The span.
        span: SpanRequest,
        /// The sizes of the plan that is searched for gaps.
        sizes: Sizes,
        /// The text of the minimum length of a gap.
        least: Text,
    },
    /// The scripts that the jobs start by run-parts, each with the next start of its job.
    Scripts {
        /// The text of a time. The starts are later.
        after: Text,
    },
    /// The differences from an earlier agenda.
    Changes {
        /// The path of the earlier agenda.
        before: Text,
        /// The sizes of the plan that it is compared with.
        sizes: Sizes,
    },
}

/// Whether an answer is a table.
#[derive(Clone, Copy, Debug, PartialEq, Eq)]
pub enum TableRequest {
    /// It is a table.
    Always,
    /// It isn't a table.
    Never,
    /// It is a table if standard output is a terminal.
    OnTerminal,
}

impl TableRequest {
    /// Returns whether the answer is a table, on a terminal or elsewhere.
    pub fn is_table(self, terminal: bool) -> bool
        ensures { result ≡ is_table self terminal }
    {
        match self {
            TableRequest::Always => true,
            TableRequest::Never => false,
            TableRequest::OnTerminal => terminal,
        }
    }
}

/// What is asked about the jobs of a machine.
#[derive(Debug, Drop)]
pub struct MachineJobs {
    /// What is made of the jobs.
    pub goal: MachineGoal,
    /// The text of the time zone of the rules. It is that of the machine if this is missing.
    pub zone: Option<Text>,
    /// The patterns of the names of what is left out of the answer: of jobs, timers and crontabs.
    pub except: JobNames,
    /// The patterns of the names of what isn't left out of it, or nothing if that is all.
    pub only: JobNames,
    /// Whether the delays of timers count, so that a start may happen later than planned.
    pub delays: bool,
    /// Whether an error in a file stops the answer. If it doesn't, errors are skipped and reported.
    pub strict: bool,
    /// Whether idle jobs, whose commands do nothing on the machine, are in the answer. If they aren't, they are reported.
    pub idle: bool,
    /// How the answer is written, unless it is a table.
    pub format: FormatRequest,
    /// Whether it is a table.
    pub table: TableRequest,
}

/// How the crontabs and timers of a machine are checked.
#[derive(Debug, Drop)]
pub struct MachineCheck {
    /// The text of the time zone of the rules. It is that of the machine if this is missing.
    pub zone: Option<Text>,
    /// Which warnings are errors, and which are left out.
    pub policy: Policy,
    /// Whether each line is a JSON object.
    pub json: bool,
}

/// How the jobs of a machine are described.
#[derive(Debug, Drop)]
pub struct MachineDescribe {
    /// The text of the time zone of the rules. It is that of the machine if this is missing.
    pub zone: Option<Text>,
    /// The patterns of the names of what is left out of the answer: of jobs, timers and crontabs.
    pub except: JobNames,
    /// The patterns of the names of what isn't left out of it, or nothing if that is all.
    pub only: JobNames,
    /// Whether an error in a file stops the answer. If it doesn't, errors are skipped and reported.
    pub strict: bool,
    /// Whether idle jobs, whose commands do nothing on the machine, are in the answer. If they aren't, they are reported.
    pub idle: bool,
    /// Whether each line is a JSON object, unless the answer is a table.
    pub json: bool,
    /// Whether it is a table.
    pub table: TableRequest,
}

/// A question about a machine.
#[derive(Debug, Drop)]
pub enum MachineQuestion {
    /// Print what is made of the machine's jobs.
    Jobs(MachineJobs),
    /// List the crontabs and timers of the machine.
    Sources {
        /// Whether each line is a JSON object.
        json: bool,
    },
    /// Print what is wrong with the crontabs and timers of the machine.
    Check(MachineCheck),
    /// Print in words when each of the machine's jobs starts.
    Describe(MachineDescribe),
}

/// What next starts are listed of by the clock of the machine that the program runs on.
#[derive(Debug, Drop)]
pub struct MachineNext {
    /// The rule.
    pub rule: Asked,
    /// The text of a time. The starts are later.
    pub after: Text,
    /// The number of starts.
    pub count: u32,
    /// The text of the time zone of the rule. It is that of the machine if this is missing.
    pub zone: Option<Text>,
    /// How the answer is written, unless it is a table.
    pub format: FormatRequest,
    /// Whether it is a table.
    pub table: TableRequest,
}

/// What is asked about a machine.
#[derive(Debug, Drop)]
pub struct MachineRequest {
    /// The path of the directory that is the root directory of the machine.
    pub root: Text,
    /// Whether timers that aren't enabled are included.
    pub all: bool,
    /// The question.
    pub question: MachineQuestion,
}

/// A request to the program.
#[derive(Debug, Drop)]
pub enum Ask {
    /// Print the next starts of one rule.
    Next(NextRequest),
    /// Print the agenda of the jobs of crontabs and timers.
    Plan {
        /// What the agenda is made from.
        plan: PlanRequest,
        /// What is printed of it.
        view: PlanView,
    },
    /// Print when each job of crontabs and timers starts next.
    Upcoming {
        /// The text of a timestamp. The starts are later.
        after: Text,
        /// The jobs.
        jobs: JobsRequest,
    },
    /// Print the gaps in which no job of crontabs and timers starts.
    Quiet {
        /// The plan that is searched for gaps.
        plan: PlanRequest,
        /// The minimum length of a gap, in seconds.
        least: u32,
    },
    /// Print how the agenda of the jobs of crontabs and timers differs from an earlier one.
    Changes(ChangesRequest),
    /// Print what is wrong with crontabs and timers.
    Check {
        /// The time zones of the rules.
        zones: ZonesRequest,
        /// The paths of the sources, in the same order as for a plan.
        sources: SourcePaths,
        /// Which warnings are errors, and which are left out.
        policy: Policy,
        /// Whether each line is a JSON object.
        json: bool,
    },
    /// Print in words when one rule starts its job.
    Describe {
        /// The rule.
        rule: Asked,
        /// The time zones of the rule.
        zones: ZonesRequest,
        /// Whether the answer is a JSON object.
        json: bool,
    },
    /// Print in words when each job of crontabs and timers starts.
    DescribeJobs(JobsRequest),
    /// Print the replies to the steps of a script.
    Steps {
        /// The path of the script.
        file: Text,
    },
    /// Print what a code of an error or of a warning means, or the list of all codes if none is given.
    Explain(Option<Code>),
    /// Answer a question about the crontabs and timers of a machine.
    Machine(MachineRequest),
    /// Print the next starts of one rule by the clock of the machine.
    MachineNext(MachineNext),
    /// Print in words when one rule starts its job, with the zones of the machine.
    MachineDescribe {
        /// The rule.
        rule: Asked,
        /// Whether the answer is a JSON object.
        json: bool,
    },
}

/// Why the arguments request no command.
#[derive(Debug, Drop, Error)]
pub enum UsageFault {
    /// An allocation failed.
    #[error("NoMemory")]
    NoMemory,
    /// The arguments are invalid. The text is for standard error.
    #[error("Usage")]
    Usage(Text),
    /// The arguments request help or the version. The text is for standard output.
    #[error("Help")]
    Help(Text),
}

impl From<AllocError> for UsageFault {
    ghost use Rattle.std.specs.Prelude.{◌≡◌};
    ghost use Rattle.agenda_arguments.specs.declared.ask.UsageFault.TheVariants.{NoMemory};

    ghost from_gives = { λ _ fault. fault ≡ NoMemory };

    fn from(_error: AllocError) -> UsageFault {
        UsageFault::NoMemory
    }
}
