//! What a request makes of jobs, or of a rule, as a table, before a byte of it is written.

ghost use Rattle.std.specs.Prelude.{◌≡◌, ◌==◌, Err, IfErr, IfOk, IsTrue, None, Ok, OnOk, false, length, not, option_map, true};
ghost use Rattle.agenda_table.specs.Dates.{AreInYears};
ghost use Rattle.agenda_commands.specs.Goal.{Makes, checked_sizes, finds_any, has_table, sized_goal};
ghost use Rattle.agenda_commands.specs.Table.{AnswersTable, IsChangesTable, IsDowntimeTable, IsNextsTable, IsPlanTable, IsQuietTable, IsViewTable, IsStartsTable, look_of, text_of_table, texts_of};
ghost use Rattle.agenda_commands.specs.declared.goal.Goal.TheVariants.{Changes, Plan, Quiet, Upcoming as Nexts};
ghost use Rattle.plan_changes.specs.Changes.{AreChanges};
ghost use Rattle.plan_changes.specs.Lines.{lines_of};
ghost use Rattle.plan_streams.specs.Stream.{Puts};

use crate::agenda_of::make_agenda;
use crate::earlier::Earlier;
use crate::goal::{Goal, Planning, counted};
use agenda_changes::{ChangeRows, change_text, dates_of_changes, write_change_table};
use agenda_downtime::{MissedRows, dates_of_missed, missed_text, write_downtime_table};
use agenda_faults::RunFault;
use agenda_table::{
    Frame, GapRows, Gaps, JobCells, JobRows, Look, StartRows, after_text, dates_of_gaps,
    dates_of_jobs, dates_of_starts, span_text, write_gap_table, write_job_table, write_start_table,
};
use plan_baseline::Baseline;
use plan_changes::{Change, JobLines, changes};
use plan_collect::{Agenda, PlanView};
use plan_downtime::missed_starts;
use plan_rules::{Jobs, NamedZone, Text};
use plan_sets::END_SECOND;
use plan_streams::{Stream, WriteFault};
use plan_write::{JobFile, Upcoming};
use std::alloc::{AllocError, Global};
use std::sync::Wait;
use std::thread::Threads;

/// How a table is shown.
#[derive(Drop)]
pub struct TableForm {
    /// The zone by whose clock times are shown.
    pub zone: NamedZone,
    /// The time from which times are counted in the column `FROM NOW`, if the table has it.
    pub origin: Option<u64>,
    /// Where the table is shown.
    pub frame: Frame,
}

// The rows of a table.
#[derive(Drop)]
pub(crate) enum TableRows {
    // Those of an agenda, and whether they have the latest starts.
    Plan(Agenda, JobCells, bool),
    // Those of what jobs miss while the machine is down.
    Downtime(MissedRows),
    // Those of changes from an earlier agenda.
    Changes(ChangeRows),
    // Those of the next starts of jobs, and whether they have the latest starts.
    Upcoming(Upcoming, JobCells, bool),
    // Those of gaps.
    Quiet(Gaps),
    // Those of the next starts of a rule, and how many of these are requested.
    Next(Vec<u64>, u64),
}

// A table.
#[derive(Drop)]
pub(crate) struct MadeTable {
    rows: TableRows,
    // The dates on which times have their offset.
    dates: Vec<u64>,
    last: Text,
    // Whether something has changed.
    pub(crate) finds_any: bool,
}

// Makes what `goal` requests of jobs, as a table, with the scripts of the jobs if their files are given. The answer must have one.
pub(crate) fn make_table<R: Threads + Wait + Sync>(
    rt: &R,
    alloc: Global,
    jobs: Jobs,
    goal: &Goal,
    form: &TableForm,
    files: Option<&[JobFile]>,
) -> Result<MadeTable, RunFault>
    requires { has_table goal.now ≡ true }
    ensures made { Makes (AnswersTable (option_map (λ files. files.now) files.entry) form.now goal.now (Ok jobs)) (text_of_table form.now) result }
    ensures finds { IfOk result (λ made. made.finds_any ≡ finds_any goal.now jobs) }

    // These errors are found before any memory is requested.
    ensures at_once { IfErr (sized_goal goal.now) (λ fault. result ≡ Err fault) }
{
    match goal {
        Goal::Plan { planning, view } => make_plan(rt, alloc, jobs, planning, *view, form, files),
        Goal::Upcoming { after, delays } => {
            let table = upcoming_table(alloc, &jobs, *after, *delays, form, files)?;
            Ok(table)
        }
        Goal::Scripts { .. } => unreachable!(),
        Goal::Quiet { planning, least } => make_quiet(rt, alloc, jobs, planning, *least, form),
        Goal::Changes { planning, before } => make_changes(rt, alloc, jobs, planning, before, form),
    }
}

// Makes the table of a view of the agenda of jobs.
fn make_plan<R: Threads + Wait + Sync>(
    rt: &R,
    alloc: Global,
    jobs: Jobs,
    planning: &Planning,
    view: PlanView,
    form: &TableForm,
    files: Option<&[JobFile]>,
) -> Result<MadeTable, RunFault>
    ensures made { Makes (AnswersTable (option_map (λ files. files.now) files.entry) form.now (Plan planning.now view) (Ok jobs))
        (text_of_table form.now) result }
    ensures finds { IfOk result (λ made. made.finds_any ≡ false) }
    ensures at_once { IfErr (checked_sizes planning.now) (λ fault. result ≡ Err fault) }
{
    let jobs = counted(jobs, planning.delays);
    let agenda = make_agenda(rt, alloc, &jobs, planning)?;
    let table = view_table(alloc, view, agenda, &jobs, planning.delays, form, files)?;
    Ok(table)
}

// Returns the table of a view of an agenda of jobs. A view without a table of its own has that of all starts.
fn view_table(
    alloc: Global,
    view: PlanView,
    agenda: Agenda,
    jobs: &Jobs,
    delays: bool,
    form: &TableForm,
    files: Option<&[JobFile]>,
) -> Result<MadeTable, AllocError>
    ensures table { IfOk result (λ made. IsViewTable view form.now (option_map (λ files. files.now) files.entry) delays agenda jobs.now
        (text_of_table form.now made)) }
    ensures finds { IfOk result (λ made. made.finds_any ≡ false) }
{
    match view {
        PlanView::Downtime => downtime_table(alloc, &agenda, jobs, form),
        PlanView::Starts | PlanView::Week | PlanView::First => {
            plan_table(alloc, agenda, jobs, delays, form, files)
        }
    }
}

// Makes the table of how the agenda of jobs differs from an earlier one.
fn make_changes<R: Threads + Wait + Sync>(
    rt: &R,
    alloc: Global,
    jobs: Jobs,
    planning: &Planning,
    before: &Earlier,
    form: &TableForm,
) -> Result<MadeTable, RunFault>
    ensures made { Makes (AnswersTable None form.now (Changes planning.now before.now) (Ok jobs)) (text_of_table form.now) result }
    ensures finds { IfOk result (λ made. made.finds_any ≡ finds_any (Changes planning.now before.now) jobs) }
    ensures at_once { IfErr (checked_sizes planning.now) (λ fault. result ≡ Err fault) }
{
    let jobs = counted(jobs, planning.delays);
    let agenda = make_agenda(rt, alloc, &jobs, planning)?;
    let lines = JobLines::new(alloc, &jobs)?;
    let earlier = before.agenda();
    let changes = changes(alloc, earlier, &agenda, &lines)?;
    let table = changes_table(alloc, &changes, earlier, &agenda, &lines, form)?;
    Ok(table)
}

// Makes the table of the gaps of the agenda of jobs.
fn make_quiet<R: Threads + Wait + Sync>(
    rt: &R,
    alloc: Global,
    jobs: Jobs,
    planning: &Planning,
    least: u32,
    form: &TableForm,
) -> Result<MadeTable, RunFault>
    ensures made { Makes (AnswersTable None form.now (Quiet planning.now least) (Ok jobs)) (text_of_table form.now) result }
    ensures finds { IfOk result (λ made. made.finds_any ≡ false) }
    ensures at_once { IfErr (checked_sizes planning.now) (λ fault. result ≡ Err fault) }
{
    let jobs = counted(jobs, planning.delays);
    let agenda = make_agenda(rt, alloc, &jobs, planning)?;
    let table = quiet_table(alloc, &agenda, &jobs, u64::from(least), form)?;
    Ok(table)
}

// Returns the table of an agenda of jobs.
fn plan_table(
    alloc: Global,
    agenda: Agenda,
    jobs: &Jobs,
    delays: bool,
    form: &TableForm,
    files: Option<&[JobFile]>,
) -> Result<MadeTable, AllocError>
    ensures table { IfOk result (λ made. IsPlanTable form.now (option_map (λ files. files.now) files.entry) delays agenda jobs.now
        (text_of_table form.now made)) }
    ensures finds { IfOk result (λ made. made.finds_any ≡ false) }
{
    let (clock, zone) = (&form.zone.clock, form.zone.name.as_str());
    let (since, upto) = (agenda.since(), agenda.upto());
    let cells = cells_of(alloc, jobs, files)?;
    let dates = dates_of_jobs(
        alloc,
        clock,
        &[since, upto],
        agenda.entries(),
        &cells,
        delays,
    )?;
    let look = Look::new(clock, &dates, form.origin);
    let last = span_text(alloc, &look, agenda.len(), "start", since, upto, zone)?;
    Ok(MadeTable {
        rows: TableRows::Plan(agenda, cells, delays),
        dates,
        last: Text::new(last),
        finds_any: false,
    })
}

// Makes what the rows of jobs have of them, with the names of their scripts if their files are given.
fn cells_of(alloc: Global, jobs: &Jobs, files: Option<&[JobFile]>) -> Result<JobCells, AllocError>
    ensures { IfOk result (λ cells. cells ≡ texts_of (option_map (λ files. files.now) files.entry) jobs.now) }
{
    match files {
        Some(files) => JobCells::with_files(alloc, jobs, files),
        None => JobCells::new(alloc, jobs),
    }
}

// Returns the table of what jobs miss while the machine is down for the span of their agenda.
fn downtime_table(
    alloc: Global,
    agenda: &Agenda,
    jobs: &Jobs,
    form: &TableForm,
) -> Result<MadeTable, AllocError>
    ensures table { IfOk result (λ made. IsDowntimeTable form.now agenda.now jobs.now (text_of_table form.now made)) }
    ensures finds { IfOk result (λ made. made.finds_any ≡ false) }
{
    let (clock, zone) = (&form.zone.clock, form.zone.name.as_str());
    let (since, upto) = (agenda.since(), agenda.upto());
    let missed = missed_starts(alloc, agenda, jobs)?;
    let rows = MissedRows::new(alloc, &missed, jobs)?;
    let dates = dates_of_missed(alloc, clock, since, upto, &rows)?;
    let look = Look::new(clock, &dates, form.origin);
    let last = missed_text(alloc, &look, &rows, since, upto, zone)?;
    Ok(MadeTable {
        rows: TableRows::Downtime(rows),
        dates,
        last,
        finds_any: false,
    })
}

// Returns the table of changes from an earlier agenda to another one, whose jobs have these lines.
fn changes_table(
    alloc: Global,
    changes: &[Change],
    before: &Baseline,
    agenda: &Agenda,
    lines: &JobLines,
    form: &TableForm,
) -> Result<MadeTable, AllocError>
    requires { AreChanges before.now.lines (lines_of lines.now agenda.now.entries) changes.now }
    ensures table { IfOk result (λ made. IsChangesTable form.now before.now.lines agenda.now lines.now (text_of_table form.now made)) }
    ensures finds { IfOk result (λ made. made.finds_any ≡ not (length changes.now == 0)) }
{
    let (clock, zone) = (&form.zone.clock, form.zone.name.as_str());
    let (since, upto) = (agenda.since(), agenda.upto());
    let rows = ChangeRows::new(alloc, changes, before, agenda, lines)?;
    let dates = dates_of_changes(alloc, clock, since, upto, &rows)?;
    let look = Look::new(clock, &dates, form.origin);
    let last = change_text(alloc, &look, changes, since, upto, zone)?;
    Ok(MadeTable {
        rows: TableRows::Changes(rows),
        dates,
        last,
        finds_any: !changes.is_empty(),
    })
}

// Returns the table of the next starts of jobs.
fn upcoming_table(
    alloc: Global,
    jobs: &Jobs,
    after: u64,
    delays: bool,
    form: &TableForm,
    files: Option<&[JobFile]>,
) -> Result<MadeTable, AllocError>
    ensures table { IfOk result (λ made. IsNextsTable form.now (option_map (λ files. files.now) files.entry) jobs.now after delays
        (text_of_table form.now made)) }
    ensures finds { IfOk result (λ made. made.finds_any ≡ false) }
{
    let (clock, zone) = (&form.zone.clock, form.zone.name.as_str());
    let upcoming = Upcoming::new(alloc, jobs, after)?;
    let cells = cells_of(alloc, jobs, files)?;
    let shown = after.min(END_SECOND);
    let dates = dates_of_jobs(alloc, clock, &[shown], upcoming.nexts(), &cells, delays)?;
    let look = Look::new(clock, &dates, form.origin);
    let last = after_text(alloc, &look, upcoming.nexts().len(), "job", shown, zone)?;
    Ok(MadeTable {
        rows: TableRows::Upcoming(upcoming, cells, delays),
        dates,
        last: Text::new(last),
        finds_any: false,
    })
}

// Returns the table of the gaps of an agenda of jobs.
pub(crate) fn quiet_table(
    alloc: Global,
    agenda: &Agenda,
    jobs: &Jobs,
    least: u64,
    form: &TableForm,
) -> Result<MadeTable, AllocError>
    ensures table { IfOk result (λ made. IsQuietTable form.now least agenda.now jobs.now (text_of_table form.now made)) }
    ensures finds { IfOk result (λ made. made.finds_any ≡ false) }
{
    let (clock, zone) = (&form.zone.clock, form.zone.name.as_str());
    let (since, upto) = (agenda.since(), agenda.upto());
    let gaps = Gaps::new(alloc, agenda, jobs, least)?;
    let dates = dates_of_gaps(alloc, clock, &[since, upto], &gaps)?;
    let look = Look::new(clock, &dates, form.origin);
    let last = span_text(
        alloc,
        &look,
        gaps.as_slice().len(),
        "gap",
        since,
        upto,
        zone,
    )?;
    Ok(MadeTable {
        rows: TableRows::Quiet(gaps),
        dates,
        last: Text::new(last),
        finds_any: false,
    })
}

// Returns the table of these starts of a rule after a time, of which so many are requested.
pub(crate) fn starts_table(
    alloc: Global,
    starts: Vec<u64>,
    after: u64,
    count: u64,
    form: &TableForm,
) -> Result<MadeTable, AllocError>
    requires { AreInYears starts.items }
    ensures { IfOk result (λ made. IsStartsTable form.now after count starts.items (text_of_table form.now made)) }
{
    let (clock, zone) = (&form.zone.clock, form.zone.name.as_str());
    let shown = after.min(END_SECOND);
    let dates = dates_of_starts(alloc, clock, shown, &starts)?;
    let look = Look::new(clock, &dates, form.origin);
    let found = starts.as_slice().len();
    let last = after_text(alloc, &look, found, "start", shown, zone)?;
    Ok(MadeTable {
        rows: TableRows::Next(starts, count),
        dates,
        last: Text::new(last),
        finds_any: false,
    })
}

impl MadeTable {
    // Writes the table.
    pub(crate) fn write<S: Stream>(&self, form: &TableForm, out: &mut S) -> Result<(), WriteFault>
        ensures text { Puts S.takes_all result (S.holds out.old) (S.holds out.new) (text_of_table form.now self.now) }
        ensures flushed { OnOk result (IsTrue (S.is_flushed out.new)) }
    {
        let look = Look::new(&form.zone.clock, &self.dates, form.origin);
        let last = self.last.as_str();
        match &self.rows {
            TableRows::Plan(agenda, jobs, delays) => {
                let table = JobRows {
                    look: &look,
                    starts: agenda.entries(),
                    jobs,
                    delays: *delays,
                };
                write_job_table(&table, last, form.frame, out)
            }
            TableRows::Downtime(rows) => {
                write_downtime_table(rows, &look, last, form.frame, out)
            }
            TableRows::Changes(rows) => write_change_table(rows, &look, last, form.frame, out),
            TableRows::Upcoming(upcoming, jobs, delays) => {
                let table = JobRows {
                    look: &look,
                    starts: upcoming.nexts(),
                    jobs,
                    delays: *delays,
                };
                write_job_table(&table, last, form.frame, out)
            }
            TableRows::Quiet(gaps) => {
                let table = GapRows { look: &look, gaps };
                write_gap_table(&table, last, form.frame, out)
            }
            TableRows::Next(starts, count) => {
                let table = StartRows {
                    look: &look,
                    starts,
                    count: *count,
                };
                write_start_table(&table, last, form.frame, out)
            }
        }
    }
}
