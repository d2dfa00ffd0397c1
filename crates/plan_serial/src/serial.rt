//! A plan by one planner, without threads.

ghost use Rattle.std.specs.Prelude.{◌≡◌, ◌≢◌, ◌<◌, ◌≤◌, false, [], ◌∷◌, length, slice_get, slice_set, Some, IfOk, IfErr, OnOk};
ghost use Rattle.std.specs.Arc.{arc_value};
ghost use Rattle.plan_next.specs.Piece.{piece_of};
ghost use Rattle.plan_collect.specs.Agenda.{IsOfJobs};
ghost use Rattle.plan_collect.specs.Limits.{is_limit, most_starts};
ghost use Rattle.plan_collect.specs.Planning.{Gives, agenda_within, plan_answer};
ghost use Rattle.plan_collect.specs.Windows.{first_second, timing_of, timings_of};

use plan_collect::{Agenda, Collector, Note, PIECE_STARTS, PlanFault, Span, first_second};
use plan_match::Rule;
use plan_next::{NoMemory, Piece, next_piece};
use plan_rules::{Job, Jobs};
use std::alloc::Global;
use std::sync::Arc;

/// Makes the agenda of jobs over a span, if it has at most `limit` entries. One planner and a collector do
/// the work, without threads.
///
/// # Errors
///
/// `BadLimit` if the limit isn't 1 to 1,000,000; else `Collect(TooMany)` if the agenda has more entries than
/// the limit, or `NoMemory` if an allocation failed.
pub fn plan_serial(alloc: Global, jobs: &Jobs, span: Span, limit: u64) -> Result<Agenda, PlanFault>
    ensures planned { Gives result
        (plan_answer (timings_of jobs.now) span (record { planners = 1; room = 1; limit = limit })) }
    ensures at_once { is_limit limit ≡ false → result ≡ Err PlanFault.BadLimit }
    ensures jobs { IfOk result (λ made. IsOfJobs (length jobs.now) made.entries) }
{
    let mut collector = Collector::new(alloc, jobs, span, 1, limit)?;
    for number in 0..jobs.len() {
        if let Some(job) = jobs.get(number) {
            collect_job(alloc, &mut collector, number as u32, job, span)?;
        }
    }
    collector.accept(0, Note::Last)?;
    Ok(collector.finish()?)
}

// Collects all starts of a job that belong to the span, in pieces that adjoin: at least one piece, each with at most
// 1,024 starts.
fn collect_job(
    alloc: Global,
    collector: &mut Collector,
    number: u32,
    job: &Job,
    span: Span,
) -> Result<(), PlanFault>
    requires one { collector.old.ended ≡ false ∷ [] }
    requires span { collector.old.span ≡ span }
    requires timing { slice_get collector.old.timings number ≡ Some (timing_of job.now) }
    requires open { slice_get collector.old.covered number ≡ Some (first_second span job.now.delay) }
    ensures covered { OnOk result (collector.new ≡ record collector.old { covered = slice_set collector.old.covered number span.upto }) }
    ensures fails { IfErr result (λ fault. fault ≢ PlanFault.NoMemory
        → agenda_within collector.old.timings collector.old.span collector.old.limit ≡ Err fault) }
{
    let mut since = first_second(span, job.delay());
    loop {
        let piece = next_part(alloc, job.rule(), since, span)?;
        since = piece.upto();
        collector.accept(0, Note::Part(number, piece))?;
        if since >= span.upto() {
            return Ok(());
        }
    }
}

// Returns the piece of a job's starts from a second on, within the span, with at most 1,024 starts.
fn next_part(alloc: Global, rule: &Arc<Rule>, since: u64, span: Span) -> Result<Piece, NoMemory>
    requires { since ≤ span.upto }
    ensures piece { IfOk result (λ piece. piece ≡ piece_of (arc_value rule.now) since span.upto most_starts) }

    // A caller that continues where the piece ends reaches the end of the span.
    ensures within { IfOk result (λ piece. piece.upto ≤ span.upto) }
    ensures moves { IfOk result (λ piece. since < span.upto → since < piece.upto) }
{
    next_piece(alloc, rule, since, span.upto(), PIECE_STARTS)
}
