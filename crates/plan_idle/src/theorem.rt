//! What an idle command is: nothing with an effect runs, whatever the values are that aren't known.

ghost use Rattle.plan_idle.specs.Law.{IdleRunsNothing};

/// A command that is idle in a tree runs nothing with an effect, in no tree that has the same at each place that is known to
/// its user, whatever the values are of the simple commands whose value isn't known.
pub fn idle_runs_nothing()
    ensures { IdleRunsNothing }
{}
