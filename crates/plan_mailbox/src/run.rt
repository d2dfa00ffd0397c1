//! Performs a list of steps on a mailbox.

ghost use Rattle.std.specs.Prelude.{◌≡◌, ℕ, IfErr, IfOk, OnErr, vec_len};
ghost use Rattle.plan_mailbox.specs.History.{IsLawful, record_of, waiting_of};
ghost use Rattle.plan_mailbox.specs.Mailbox.{IsLeftBy, IsNew, after, reply_of, senders_of, waiting_at};
ghost use Rattle.plan_mailbox.specs.Reply.{RepliesInTurn};

use crate::mailbox::Post;
use crate::replies::{Reply, Step};
use std::alloc::Global;

/// Performs the steps on a new mailbox, in order, and returns its reply to each of them.
///
/// Memory for all replies is allocated first. No other memory is requested.
///
/// # Errors
///
/// If that allocation fails, the steps come back, and the mailbox is unchanged.
pub fn run_steps<M: Drop, P: Post<M>>(
    alloc: Global,
    post: &mut P,
    steps: Vec<Step<M>>,
) -> Result<Vec<Reply<M>>, Vec<Step<M>>>
    requires { IsNew (P.seen post.old) }
    ensures returned { IfErr result (λ back. back.items ≡ steps.items) }
    ensures unchanged { OnErr result (post.new ≡ post.old) }
    ensures as_many { IfOk result (λ replies. vec_len replies ≡ vec_len steps) }

    // `before` is the mailbox before the call. Each reply follows from the steps before it, the history that
    // all steps record is lawful, and that history leaves the mailbox as it is afterwards.
    ensures in_turn { let before = P.seen post.old in IfOk result (λ replies.
        RepliesInTurn (senders_of before) before.room steps.items replies.items) }
    ensures lawful { let before = P.seen post.old in IfOk result (λ replies.
        IsLawful (senders_of before) before.room (record_of steps.items replies.items)) }
    ensures left { let before = P.seen post.old in IfOk result (λ replies.
        IsLeftBy (senders_of before) before.room (record_of steps.items replies.items)
        (P.seen post.new)) }
    ensures waits { IfOk result (λ replies. (s : ℕ) →
        waiting_at (P.seen post.new) s ≡ waiting_of (record_of steps.items replies.items) s) }
{
    let Ok(mut replies) = Vec::with_capacity(alloc, steps.len()) else {
        return Err(steps);
    };
    for step in steps {
        let reply = take_step(post, step);
        replies.push_reserved(reply);
    }
    Ok(replies)
}

/// Performs one step on a mailbox.
fn take_step<M, P: Post<M>>(post: &mut P, step: Step<M>) -> Reply<M>
    ensures reply { result ≡ reply_of (P.seen post.old) step }
    ensures after { P.seen post.new ≡ after (P.seen post.old) step }
{
    match step {
        Step::Send(sender, message) => post.send(sender, message),
        Step::Take => post.take(),
        Step::Close(sender) => post.close(sender),
    }
}
