//! Runs scripts: steps on a mailbox, and its replies to them.

ghost use Rattle.std.specs.Prelude.{◌≡◌, IfErr, IfOk, IsTrue, OnOk, vec_len};
ghost use Rattle.plan_mailbox.specs.History.{IsLawful, record_of};
ghost use Rattle.plan_mailbox.specs.Lanes.{mailbox_of};
ghost use Rattle.plan_mailbox.specs.Mailbox.{IsNew, senders_of};
ghost use Rattle.plan_mailbox.specs.Reply.{RepliesInTurn};
ghost use Rattle.agenda_commands.specs.Command.{Fails, Writes};
ghost use Rattle.agenda_commands.specs.Script.{IsTextOfRun, RejectsRun};

use agenda_faults::RunFault;
use agenda_script::{Script, read_script};
use plan_mailbox::{Reply, Rings, Step, run_steps};
use plan_streams::Stream;
use plan_write::write_replies;
use std::alloc::Global;

/// Runs the steps of a script on a new mailbox, and writes one line for each reply.
///
/// The first line of a script is `mailbox SENDERS ROOM`. Each of the others is `send S TEXT`, `take` or `close S`.
///
/// # Errors
///
/// `Script` with the first error in the script's bytes, or `NoMemory` if an allocation failed. Nothing is
/// written then. `Device` if the stream failed, which then accepted the first bytes of the text.
pub fn run_script<S: Stream>(alloc: Global, script: &[u8], out: &mut S) -> Result<(), RunFault>
    ensures written { OnOk result (Writes (IsTextOfRun script.now) (S.holds out.old) (S.holds out.new)) }
    ensures failed { IfErr result (λ fault. Fails S.takes_all (IsTextOfRun script.now) (RejectsRun script.now) fault
        (S.holds out.old) (S.holds out.new)) }
    ensures flushed { OnOk result (IsTrue (S.is_flushed out.new)) }
{
    let Script { mut mailbox, steps } = read_script(alloc, script)?;
    let Ok(replies) = replies_to(alloc, &mut mailbox, steps) else {
        return Err(RunFault::NoMemory);
    };
    write_replies(replies.as_slice(), out)?;
    Ok(())
}

// Returns the replies of new rings to steps, for any type of messages. The messages of a script are borrowed,
// and a call of a trait names no lifetime.
fn replies_to<M: Drop>(
    alloc: Global,
    rings: &mut Rings<M>,
    steps: Vec<Step<M>>,
) -> Result<Vec<Reply<M>>, Vec<Step<M>>>
    requires { IsNew (mailbox_of rings.old) }
    ensures as_many { IfOk result (λ replies. vec_len replies ≡ vec_len steps) }
    ensures in_turn { let before = mailbox_of rings.old in IfOk result (λ replies.
        RepliesInTurn (senders_of before) before.room steps.items replies.items) }
    ensures lawful { let before = mailbox_of rings.old in IfOk result (λ replies.
        IsLawful (senders_of before) before.room (record_of steps.items replies.items)) }
{
    run_steps(alloc, rings, steps)
}
