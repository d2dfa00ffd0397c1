//! What the planners of a plan have to do.

ghost use Rattle.std.specs.Prelude.{◌≡◌, ◌≤◌, true};
ghost use Rattle.plan_collect.specs.Limits.{is_limit, is_size};

use plan_collect::{MOST_ENTRIES, MOST_PLANNERS, PlanFault, Sizes, Span};
use plan_mailbox::MOST_ROOM;

/// The task of planning jobs: over which span, and by sizes that are in their ranges.
#[derive(Drop)]
pub struct Task {
    pub(crate) span: Span,
    pub(crate) sizes: Sizes,

    pub ghost size: { is_size sizes.planners ≡ true },
    pub ghost limit: { is_limit sizes.limit ≡ true },
    pub ghost ordered: { span.since ≤ span.upto },
}

impl Task {
    ghost use Rattle.std.specs.Prelude.{◌≡◌, IfErr, IfOk, Ok, Err};
    ghost use Rattle.plan_collect.specs.Planning.{valid_sizes};

    /// Makes the task of planning over a span.
    ///
    /// # Errors
    ///
    /// `BadSize` if the number of planners or the capacity is out of its range; else `BadLimit` if the limit
    /// is out of its range.
    pub fn new(span: Span, sizes: Sizes) -> Result<Task, PlanFault>
        ensures span { IfOk result (λ task. task.span ≡ span) }
        ensures sizes { IfOk result (λ task. task.sizes ≡ sizes) }
        ensures valid { IfOk result (λ _. valid_sizes sizes ≡ Ok sizes) }
        ensures fault { IfErr result (λ fault. valid_sizes sizes ≡ Err fault) }
    {
        let Sizes {
            planners,
            room,
            limit,
        } = sizes;
        if planners < 1 || planners > MOST_PLANNERS || room < 1 || room > MOST_ROOM {
            return Err(PlanFault::BadSize);
        }
        if limit < 1 || limit > MOST_ENTRIES {
            return Err(PlanFault::BadLimit);
        }
        Ok(Task { span, sizes })
    }
}
