//! Reads the timestamps of a request.

ghost use Rattle.std.specs.Prelude.{◌≡◌};
ghost use Rattle.agenda_answers.specs.Requests.{moment_of, planning_of, request_of, span_of};
ghost use Rattle.agenda_arguments.specs.declared.Ask.TheVariants.{Next, Plan, Quiet, Upcoming};

use agenda_arguments::{
    Ask, ChangesRequest, FormatRequest, JobsRequest, MachineNext, MachineRequest, NextRequest,
    PlanRequest, ZonesRequest,
};
use agenda_codes::Code;
use agenda_commands::{Goal, Planning};
use agenda_faults::{Failure, TimeOption};
use agenda_policy::Policy;
use agenda_sources::{Asked, SourcePaths};
use plan_collect::{PlanView, Span};
use plan_rules::Text;
use plan_sets::read_moment;

/// What next starts are listed of.
#[derive(Drop)]
pub(crate) struct StartsRequest {
    /// The starts are later than this, in seconds since 1970-01-01T00:00:00Z.
    pub after: u64,
    /// The time zones of the rule.
    pub zones: ZonesRequest,
    /// The number of starts.
    pub count: u64,
    /// The rule.
    pub rule: Asked,
    /// How the answer is written.
    pub format: FormatRequest,
}

/// A request whose timestamps were read.
#[derive(Drop)]
pub(crate) enum Request {
    /// Print the next starts of one rule.
    Starts(StartsRequest),
    /// Print what a goal makes of jobs.
    Jobs {
        /// The goal.
        goal: Goal,
        /// The jobs.
        jobs: JobsRequest,
    },
    /// Print how the agenda of jobs differs from an earlier one.
    Changes(ChangesRequest),
    /// Print what is wrong with crontabs and timers.
    Check {
        /// The time zones of the rules.
        zones: ZonesRequest,
        /// The paths of the sources.
        sources: SourcePaths,
        /// Which warnings are errors, and which are left out.
        policy: Policy,
        /// Whether each line is a JSON object.
        json: bool,
    },
    /// Print in words when one rule starts its job.
    Describe {
        /// The rule.
        rule: Asked,
        /// The time zones of the rule.
        zones: ZonesRequest,
        /// Whether the answer is a JSON object.
        json: bool,
    },
    /// Print in words when each job of crontabs and timers starts.
    DescribeJobs(JobsRequest),
    /// Print the replies to the steps of a script.
    Steps {
        /// The path of the script.
        file: Text,
    },
    /// Print what a code means, or the list of all codes.
    Explain(Option<Code>),
    /// Answer a question about a machine.
    Machine(MachineRequest),
    /// Print the next starts of one rule by the clock of the machine.
    MachineNext(MachineNext),
    /// Print in words when one rule starts its job, with the zones of the machine.
    MachineDescribe {
        /// The rule.
        rule: Asked,
        /// Whether the answer is a JSON object.
        json: bool,
    },
}

/// Reads the timestamps of what is requested.
///
/// # Errors
///
/// `Moment` if a text isn't a timestamp, and then `Span` if two of them bound no span.
pub(crate) fn request_of(ask: Ask) -> Result<Request, Failure>
    ensures { request_of ask result }
{
    match ask {
        Ask::Next(request) => starts_request(request),
        Ask::Plan { plan, view } => plan_request(plan, view),
        Ask::Upcoming { after, jobs } => upcoming_request(&after, jobs),
        Ask::Quiet { plan, least } => quiet_request(plan, least),
        Ask::Changes(request) => Ok(Request::Changes(request)),
        Ask::Check {
            zones,
            sources,
            policy,
            json,
        } => Ok(Request::Check {
            zones,
            sources,
            policy,
            json,
        }),
        Ask::Describe { rule, zones, json } => Ok(Request::Describe { rule, zones, json }),
        Ask::DescribeJobs(jobs) => Ok(Request::DescribeJobs(jobs)),
        Ask::Steps { file } => Ok(Request::Steps { file }),
        Ask::Explain(code) => Ok(Request::Explain(code)),
        Ask::Machine(request) => Ok(Request::Machine(request)),
        Ask::MachineNext(request) => Ok(Request::MachineNext(request)),
        Ask::MachineDescribe { rule, json } => Ok(Request::MachineDescribe { rule, json }),
    }
}

// Reads the timestamp of `next`.
fn starts_request(request: NextRequest) -> Result<Request, Failure>
    ensures { request_of (Next request) result }
{
    let after = moment_of(TimeOption::After, &request.after)?;
    Ok(Request::Starts(StartsRequest {
        after,
        zones: request.zones,
        count: u64::from(request.count),
        rule: request.rule,
        format: request.format,
    }))
}

// Reads the timestamps of a plan of which a view is printed.
fn plan_request(request: PlanRequest, view: PlanView) -> Result<Request, Failure>
    ensures { request_of (Plan request view) result }
{
    let planning = planning_of(&request)?;
    Ok(Request::Jobs {
        goal: Goal::Plan { planning, view },
        jobs: request.jobs,
    })
}

// Reads the timestamp of `upcoming`.
fn upcoming_request(after: &Text, jobs: JobsRequest) -> Result<Request, Failure>
    ensures { request_of (Upcoming after.now jobs) result }
{
    let after = moment_of(TimeOption::After, after)?;
    let delays = jobs.delays;
    Ok(Request::Jobs {
        goal: Goal::Upcoming { after, delays },
        jobs,
    })
}

// Reads the timestamps of `quiet`.
fn quiet_request(request: PlanRequest, least: u32) -> Result<Request, Failure>
    ensures { request_of (Quiet request least) result }
{
    let planning = planning_of(&request)?;
    Ok(Request::Jobs {
        goal: Goal::Quiet { planning, least },
        jobs: request.jobs,
    })
}

// Returns how the jobs of a request are planned.
fn planning_of(request: &PlanRequest) -> Result<Planning, Failure>
    ensures { planning_of request.now result }
{
    let span = span_between(&request.since, &request.upto)?;
    Ok(Planning {
        span,
        sizes: request.sizes,
        delays: request.jobs.delays,
    })
}

// Reads the timestamp of an option.
fn moment_of(option: TimeOption, text: &Text) -> Result<u64, Failure>
    ensures { moment_of option text.now result }
{
    match read_moment(text.as_str()) {
        Ok(moment) => Ok(moment),
        Err(fault) => Err(Failure::Moment(option, fault)),
    }
}

// Reads the two timestamps of a span.
fn span_between(since: &Text, upto: &Text) -> Result<Span, Failure>
    ensures { span_of since.now upto.now result }
{
    let begin = moment_of(TimeOption::Since, since)?;
    let end = moment_of(TimeOption::Until, upto)?;
    match Span::new(begin, end) {
        Ok(span) => Ok(span),
        Err(fault) => Err(Failure::Span(fault)),
    }
}
