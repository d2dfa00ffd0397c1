//! Which commands are idle.

ghost use Rattle.std.specs.Prelude.{◌≡◌, ℕ, Bool, true, false, IfOk, OnSome};
ghost use Rattle.plan_shell.specs.Tree.{tree_of};
ghost use Rattle.plan_idle.specs.Reason.{reason_of};
ghost use Rattle.plan_idle.specs.Run.{run};

use crate::answer::Look;
use crate::reason::reason_text;
use crate::weighing::gathered_of;
use plan_shell::ShellList;
use plan_texts::Text;
use std::alloc::{AllocError, Global};

/// Returns why a command is idle: the last thing that it looks at. Returns `None` if something with an effect may run.
///
/// # Errors
///
/// `AllocError` if an allocation fails.
#[tactic(auto, using(crate::proofs::RunLemmas::outcomes_weighed))]
pub fn idle_reason<L: Look>(
    alloc: Global,
    list: &ShellList,
    looks: &L,
) -> Result<Option<Text>, AllocError>
    ensures reason { L.is_known ≡ true → IfOk result (λ reason. reason ≡ reason_of (L.looks looks.now) (tree_of list.now)) }
    ensures idle { L.is_known ≡ true → IfOk result (λ reason. OnSome reason (
        (values : ℕ → Bool) → (run (L.looks looks.now) values 0 (tree_of list.now)).acts ≡ false)) }
{
    let gathered = gathered_of(alloc, list.steps(), looks)?;
    if gathered.outcomes.may_act {
        return Ok(None);
    }
    Ok(Some(reason_text(alloc, gathered.outcomes.last)?))
}
