//! What a request makes of jobs, before a byte of it is written.

ghost use Rattle.std.specs.Prelude.{◌≡◌, Err, IfErr, IfOk, IsTrue, List, Ok, OnOk, Option, false, length, option_map};
ghost use Rattle.plan_rules.specs.Delays.{counted};
ghost use Rattle.agenda_commands.specs.Form.{origin_at, origin_of};
ghost use Rattle.agenda_commands.specs.Goal.{AnswersGoal, AnswersWithFiles, CanBeWritten, Makes, checked_sizes, clock_of, ends_of, finds, finds_any, given_scripts, has_table, sized_goal, text_of, valid_goal, week_output};
ghost use Rattle.agenda_commands.specs.declared.goal.Goal.TheVariants.{Changes, Plan, Quiet, Scripts, Upcoming as Nexts};
ghost use Rattle.plan_collect.specs.declared.PlanView.TheVariants as view;
ghost use Rattle.plan_streams.specs.Stream.{Puts};
ghost use Rattle.plan_week.specs.Week.{week_of};
ghost use Rattle.plan_write.specs.declared.Format.{Format};

use crate::agenda_of::make_agenda;
use crate::earlier::Earlier;
use agenda_faults::RunFault;
use plan_changes::{Change, JobLines, changes, write_changes};
use plan_clear::first_entry;
use plan_clock::Clock;
use plan_collect::{Agenda, PlanView, Sizes, Span, Start};
use plan_downtime::{Missed, missed_starts, write_downtime};
use plan_rules::{Jobs, NamedZone};
use plan_streams::{Stream, WriteFault};
use plan_threads::Task;
use plan_week::{Week, write_week};
use plan_write::{
    Format, JobFile, JobScripts, LineEnds, Upcoming, write_agenda, write_entry, write_quiet,
    write_scripts, write_upcoming,
};
use std::alloc::{AllocError, Global};
use std::sync::Wait;
use std::thread::Threads;

/// How jobs are planned.
#[derive(Clone, Copy, Debug)]
pub struct Planning {
    /// The span of the plan.
    pub span: Span,
    /// The sizes of the plan.
    pub sizes: Sizes,
    /// Whether the delays of jobs count: a job may then start until its latest start, and not at the times of its
    /// rule alone.
    pub delays: bool,
}

/// What a command makes of its jobs.
#[derive(Debug, Drop)]
pub enum Goal {
    /// The agenda, or a view of it.
    Plan {
        /// How the agenda is made.
        planning: Planning,
        /// What is printed of it.
        view: PlanView,
    },
    /// The next start of each job.
    Upcoming {
        /// The starts are later than this, in seconds since 1970-01-01T00:00:00Z.
        after: u64,
        /// Whether the delays of jobs count.
        delays: bool,
    },
    /// The scripts that jobs start by run-parts, by the next starts of the jobs.
    Scripts {
        /// The starts are later than this, in seconds since 1970-01-01T00:00:00Z.
        after: u64,
    },
    /// The gaps in which no job starts.
    Quiet {
        /// How the plan is made that is searched for gaps.
        planning: Planning,
        /// The minimum length of a gap, in seconds.
        least: u32,
    },
    /// The differences between an earlier agenda and the present one.
    Changes {
        /// How the present agenda is made, over the span of the earlier one.
        planning: Planning,
        /// The earlier agenda.
        before: Earlier,
    },
}

// The result, which has a text.
#[derive(Drop)]
pub(crate) enum Made {
    // An agenda, with the ends of its lines, and whether its lines have the latest starts.
    Plan(Agenda, LineEnds, bool),
    // What jobs miss, with the ends of their lines.
    Downtime(Vec<Missed>, LineEnds),
    // The starts of the hours of an agenda.
    Week(Agenda, Week),
    // The first entry of an agenda, with the ends of its lines, and whether its lines have the latest starts.
    First(Option<Start>, LineEnds, bool),
    // The next starts of jobs, with the ends of their lines, and whether the lines have the latest starts.
    Upcoming(Upcoming, LineEnds, bool),
    // The next starts of jobs, with the scripts of these jobs.
    Scripts(Upcoming, JobScripts),
    // An agenda of these jobs that is searched for gaps of at least so many seconds.
    Quiet(Agenda, Jobs, u32),
    // The differences between an earlier agenda and another one, with what the lines of its jobs show.
    Changes(Vec<Change>, Earlier, Agenda, JobLines),
}

impl Goal {
    /// Returns the time from which a table counts: `now`, if the answer starts there.
    pub fn origin(&self, now: u64) -> Option<u64>
        ensures { result ≡ origin_of self.now now }
    {
        let start = match self {
            Goal::Plan { planning, .. } => planning.span.since(),
            Goal::Upcoming { after, .. } => *after,
            Goal::Scripts { after } => *after,
            Goal::Quiet { planning, .. } => planning.span.since(),
            Goal::Changes { planning, .. } => planning.span.since(),
        };
        origin_at(start, now)
    }

    // Returns whether the answer has a table of its own.
    pub(crate) fn has_table(&self) -> bool
        ensures { result ≡ has_table self.now }
    {
        !matches!(
            self,
            Goal::Plan {
                view: PlanView::Week | PlanView::First,
                ..
            } | Goal::Scripts { .. }
        )
    }

    // Checks the minimum length of a gap, which is at least 1 second.
    pub(crate) fn check(&self) -> Result<(), RunFault>
        ensures { result ≡ valid_goal self.now }
    {
        match self {
            Goal::Quiet { least: 0, .. } => Err(RunFault::BadLeast),
            _ => Ok(()),
        }
    }
}

/// Returns the time from which a table counts: `now`, if the answer starts there.
pub fn origin_at(start: u64, now: u64) -> Option<u64>
    ensures { result ≡ origin_at start now }
{
    if start == now { Some(now) } else { None }
}

// Makes what `goal` requests of jobs, in a format. If the files of the jobs are given, JSON and the scripts of jobs have them.
pub(crate) fn make<R: Threads + Wait + Sync>(
    rt: &R,
    alloc: Global,
    jobs: Jobs,
    goal: &Goal,
    format: &Format,
    files: Option<&[JobFile]>,
) -> Result<Made, RunFault>
    ensures made { Makes (AnswersWithFiles (option_map (λ files. files.now) files.entry) format.now goal.now (Ok jobs))
        (text_of format.now) result }
    ensures written { IfOk result CanBeWritten }
    ensures finds { IfOk result (λ made. finds made ≡ finds_any goal.now jobs) }

    // These errors are found before any memory is requested.
    ensures at_once { IfErr (sized_goal goal.now) (λ fault. result ≡ Err fault) }
{
    match goal {
        Goal::Plan { planning, view } => {
            make_view(rt, alloc, jobs, planning, *view, format, files)
        }
        Goal::Upcoming { after, delays } => {
            make_upcoming(alloc, jobs, *after, *delays, format, files)
        }
        Goal::Scripts { after } => make_scripts(alloc, jobs, *after, files),
        Goal::Quiet { planning, least } => make_quiet(rt, alloc, jobs, planning, *least, format),
        Goal::Changes { planning, before } => {
            make_changes(rt, alloc, jobs, planning, before, format)
        }
    }
}

// Makes a view of the agenda of jobs.
fn make_view<R: Threads + Wait + Sync>(
    rt: &R,
    alloc: Global,
    jobs: Jobs,
    planning: &Planning,
    view: PlanView,
    format: &Format,
    files: Option<&[JobFile]>,
) -> Result<Made, RunFault>
    ensures made { Makes (AnswersWithFiles (option_map (λ files. files.now) files.entry) format.now (Plan planning.now view) (Ok jobs))
        (text_of format.now) result }
    ensures written { IfOk result CanBeWritten }
    ensures finds { IfOk result (λ made. finds made ≡ finds_any (Plan planning.now view) jobs) }
    ensures at_once { IfErr (checked_sizes planning.now) (λ fault. result ≡ Err fault) }
{
    match view {
        PlanView::Starts => make_plan(rt, alloc, jobs, planning, format, files),
        PlanView::Downtime => make_downtime(rt, alloc, jobs, planning, format, files),
        PlanView::Week => make_week(rt, alloc, jobs, planning, format),
        PlanView::First => make_first(alloc, jobs, planning, format, files),
    }
}

// Makes what jobs miss while the machine is down.
fn make_downtime<R: Threads + Wait + Sync>(
    rt: &R,
    alloc: Global,
    jobs: Jobs,
    planning: &Planning,
    format: &Format,
    files: Option<&[JobFile]>,
) -> Result<Made, RunFault>
    ensures made { Makes (AnswersWithFiles (option_map (λ files. files.now) files.entry) format.now (Plan planning.now view.Downtime) (Ok jobs))
        (text_of format.now) result }
    ensures written { IfOk result CanBeWritten }
    ensures finds { IfOk result (λ made. finds made ≡ false) }
    ensures at_once { IfErr (checked_sizes planning.now) (λ fault. result ≡ Err fault) }
{
    let jobs = counted(jobs, planning.delays);
    let agenda = make_agenda(rt, alloc, &jobs, planning)?;
    let missed = missed_starts(alloc, &agenda, &jobs)?;
    let ends = ends_of(alloc, &jobs, format, files)?;
    Ok(Made::Downtime(missed, ends))
}

// Makes the starts of the hours of the agenda of jobs.
fn make_week<R: Threads + Wait + Sync>(
    rt: &R,
    alloc: Global,
    jobs: Jobs,
    planning: &Planning,
    format: &Format,
) -> Result<Made, RunFault>
    ensures made { Makes (λ answer. week_output format.now (counted planning.now.delays jobs) planning.now ≡ answer) (text_of format.now) result }
    ensures written { IfOk result CanBeWritten }
    ensures finds { IfOk result (λ made. finds made ≡ false) }
    ensures at_once { IfErr (checked_sizes planning.now) (λ fault. result ≡ Err fault) }
{
    let jobs = counted(jobs, planning.delays);
    let agenda = make_agenda(rt, alloc, &jobs, planning)?;
    let week = week_of(alloc, &agenda, &format.local)?;
    Ok(Made::Week(agenda, week))
}

// Returns the starts of the hours of an agenda, by the clock of a zone if one is given, and otherwise in UTC.
fn week_of(alloc: Global, agenda: &Agenda, local: &Option<NamedZone>) -> Result<Week, AllocError>
    ensures { IfOk result (λ week. week ≡ week_of (clock_of local.now) agenda.now) }
{
    match local {
        Some(zone) => Week::new(alloc, agenda, &zone.clock),
        None => Week::new(alloc, agenda, &Clock::utc()),
    }
}

// Makes the first entry of the agenda of jobs, which is searched for by itself.
fn make_first(
    alloc: Global,
    jobs: Jobs,
    planning: &Planning,
    format: &Format,
    files: Option<&[JobFile]>,
) -> Result<Made, RunFault>
    ensures made { Makes (AnswersWithFiles (option_map (λ files. files.now) files.entry) format.now (Plan planning.now view.First) (Ok jobs))
        (text_of format.now) result }
    ensures written { IfOk result CanBeWritten }
    ensures finds { IfOk result (λ made. finds made ≡ finds_any (Plan planning.now view.First) jobs) }
    ensures at_once { IfErr (checked_sizes planning.now) (λ fault. result ≡ Err fault) }
{
    check_sizes(planning)?;
    let jobs = counted(jobs, planning.delays);
    let first = first_entry(&jobs, planning.span);
    let ends = ends_of(alloc, &jobs, format, files)?;
    Ok(Made::First(first, ends, planning.delays))
}

// Checks the sizes of a plan.
fn check_sizes(planning: &Planning) -> Result<(), RunFault>
    ensures valid { IfOk result (λ _. checked_sizes planning.now ≡ Ok planning.now.sizes) }
    ensures fault { IfErr result (λ fault. checked_sizes planning.now ≡ Err fault) }
{
    match Task::new(planning.span, planning.sizes) {
        Ok(_) => Ok(()),
        Err(fault) => Err(RunFault::from(fault)),
    }
}

// Makes the agenda of jobs.
fn make_plan<R: Threads + Wait + Sync>(
    rt: &R,
    alloc: Global,
    jobs: Jobs,
    planning: &Planning,
    format: &Format,
    files: Option<&[JobFile]>,
) -> Result<Made, RunFault>
    ensures made { Makes (AnswersWithFiles (option_map (λ files. files.now) files.entry) format.now (Plan planning.now view.Starts) (Ok jobs))
        (text_of format.now) result }
    ensures written { IfOk result CanBeWritten }
    ensures finds { IfOk result (λ made. finds made ≡ false) }
    ensures at_once { IfErr (checked_sizes planning.now) (λ fault. result ≡ Err fault) }
{
    let jobs = counted(jobs, planning.delays);
    let agenda = make_agenda(rt, alloc, &jobs, planning)?;
    let ends = ends_of(alloc, &jobs, format, files)?;
    Ok(Made::Plan(agenda, ends, planning.delays))
}

// Makes the next starts of jobs.
fn make_upcoming(
    alloc: Global,
    jobs: Jobs,
    after: u64,
    delays: bool,
    format: &Format,
    files: Option<&[JobFile]>,
) -> Result<Made, RunFault>
    ensures made { Makes (AnswersWithFiles (option_map (λ files. files.now) files.entry) format.now (Nexts after delays) (Ok jobs))
        (text_of format.now) result }
    ensures written { IfOk result CanBeWritten }
    ensures finds { IfOk result (λ made. finds made ≡ false) }
{
    let upcoming = Upcoming::new(alloc, &jobs, after)?;
    let ends = ends_of(alloc, &jobs, format, files)?;
    Ok(Made::Upcoming(upcoming, ends, delays))
}

// Makes the next starts of jobs, with the scripts of these jobs, which are known if the files of the jobs are given.
fn make_scripts(
    alloc: Global,
    jobs: Jobs,
    after: u64,
    files: Option<&[JobFile]>,
) -> Result<Made, RunFault>
    ensures made { (format : Format) → Makes (AnswersWithFiles (option_map (λ files. files.now) files.entry) format (Scripts after) (Ok jobs))
        (text_of format) result }
    ensures written { IfOk result CanBeWritten }
    ensures finds { IfOk result (λ made. finds made ≡ false) }
{
    let nexts = Upcoming::new(alloc, &jobs, after)?;
    let scripts = scripts_of(alloc, &jobs, files)?;
    Ok(Made::Scripts(nexts, scripts))
}

// Collects the scripts of jobs, if the files of the jobs are given.
fn scripts_of(
    alloc: Global,
    jobs: &Jobs,
    files: Option<&[JobFile]>,
) -> Result<JobScripts, AllocError>
    ensures { IfOk result (λ scripts. scripts ≡ given_scripts (option_map (λ files. files.now) files.entry) jobs.now) }
{
    match files {
        Some(files) => JobScripts::new(alloc, jobs, files),
        None => JobScripts::new(alloc, jobs, &[]),
    }
}

// Makes the ends of the lines of jobs, in JSON with their files, if these are given.
fn ends_of(
    alloc: Global,
    jobs: &Jobs,
    format: &Format,
    files: Option<&[JobFile]>,
) -> Result<LineEnds, AllocError>
    ensures ends { IfOk result (λ ends. ends ≡ ends_of format.now (option_map (λ files. files.now) files.entry) jobs.now) }
    ensures count { IfOk result (λ ends. length ends ≡ length jobs.now) }
{
    match files {
        Some(files) if format.json => LineEnds::with_files(alloc, jobs, files),
        _ => LineEnds::new(alloc, jobs, format.json),
    }
}

// Makes the agenda of jobs that is searched for gaps.
fn make_quiet<R: Threads + Wait + Sync>(
    rt: &R,
    alloc: Global,
    jobs: Jobs,
    planning: &Planning,
    least: u32,
    format: &Format,
) -> Result<Made, RunFault>
    ensures made { Makes (AnswersGoal format.now (Quiet planning.now least) (Ok jobs)) (text_of format.now) result }
    ensures written { IfOk result CanBeWritten }
    ensures at_once { IfErr (checked_sizes planning.now) (λ fault. result ≡ Err fault) }
    ensures finds { IfOk result (λ made. finds made ≡ false) }
{
    let jobs = counted(jobs, planning.delays);
    let agenda = make_agenda(rt, alloc, &jobs, planning)?;
    Ok(Made::Quiet(agenda, jobs, least))
}

// Makes the differences between an earlier agenda and that of jobs.
fn make_changes<R: Threads + Wait + Sync>(
    rt: &R,
    alloc: Global,
    jobs: Jobs,
    planning: &Planning,
    before: &Earlier,
    format: &Format,
) -> Result<Made, RunFault>
    ensures made { Makes (AnswersGoal format.now (Changes planning.now before.now) (Ok jobs)) (text_of format.now) result }
    ensures written { IfOk result CanBeWritten }
    ensures at_once { IfErr (checked_sizes planning.now) (λ fault. result ≡ Err fault) }
    ensures finds { IfOk result (λ made. finds made ≡ finds_any (Changes planning.now before.now) jobs) }
{
    let jobs = counted(jobs, planning.delays);
    let agenda = make_agenda(rt, alloc, &jobs, planning)?;
    let lines = JobLines::new(alloc, &jobs)?;
    let changes = changes(alloc, before.agenda(), &agenda, &lines)?;
    let before = before.share()?;
    Ok(Made::Changes(changes, before, agenda, lines))
}

impl Made {
    // Returns whether it says that a job may start in the span, or that something changed.
    pub(crate) fn finds_any(&self) -> bool
        ensures { result ≡ finds self.now }
    {
        match self {
            Made::First(first, _, _) => first.is_some(),
            Made::Changes(changes, ..) => !changes.is_empty(),
            _ => false,
        }
    }

    // Writes the text of the result.
    pub(crate) fn write<S: Stream>(&self, format: &Format, out: &mut S) -> Result<(), WriteFault>
        requires { CanBeWritten self.now }
        ensures text { Puts S.takes_all result (S.holds out.old) (S.holds out.new) (text_of format.now self.now) }
        ensures flushed { OnOk result (IsTrue (S.is_flushed out.new)) }
    {
        match self {
            Made::Plan(agenda, ends, delays) => write_agenda(agenda, ends, format, *delays, out),
            Made::Downtime(missed, ends) => write_downtime(missed, ends, format, out),
            Made::Week(agenda, week) => write_week(week, agenda, format, out),
            Made::First(first, ends, delays) => write_entry(*first, ends, format, *delays, out),
            Made::Upcoming(upcoming, ends, delays) => {
                write_upcoming(upcoming, ends, format, *delays, out)
            }
            Made::Scripts(upcoming, scripts) => {
                write_scripts(upcoming, scripts, &format.local, out)
            }
            Made::Quiet(agenda, jobs, least) => {
                write_quiet(agenda, jobs, u64::from(*least), format, out)
            }
            Made::Changes(changes, before, agenda, lines) => {
                write_changes(changes, before.agenda(), agenda, lines, format, out)
            }
        }
    }
}

// Returns the jobs that are planned: without their delays, unless these count.
pub(crate) fn counted(jobs: Jobs, delays: bool) -> Jobs
    ensures { result ≡ counted delays jobs }
{
    if delays { jobs } else { jobs.without_delays() }
}
