//! A plain mailbox behind a lock, for several threads.

ghost use Rattle.std.specs.Prelude.{◌≡◌, ◌<◌, ◌≤◌, ◌↔◌, IfOk, IsErrOf, MatchOption, MatchResult, false};
ghost use Rattle.plan_mailbox.specs.Lanes.{mailbox_of};
ghost use Rattle.plan_mailbox.specs.Locked.{IsCloseReply, IsSendReply, IsTakeReply, answer_to_close, answer_to_send, answer_to_take, senders_in};
ghost use Rattle.plan_mailbox.specs.Mailbox.{after_close, after_send, after_take, close_reply, is_size, send_reply, take_reply};

use crate::faults::NewFault;
use crate::lane::Lane;
use crate::mailbox::Post;
use crate::queues::{Core, QueueLane};
use crate::replies::Reply;
use std::alloc::Global;
use std::sync::{Condvar, Mutex, Wait};

/// A plain mailbox behind a lock, which threads share. A send waits for a free place, and a take for a
/// message.
///
/// Whenever a thread holds the lock, the mailbox has 1 to 8 senders, no more messages of each wait than its
/// capacity, and the turn is one of the senders. The type guarantees that. A caller doesn't know what was
/// sent before.
#[derive(Drop)]
pub struct Locked<M: Drop>
where
    QueueLane<M>: Lane<M>,
{
    senders: usize,
    core: Mutex<Core<M>>,
    sent: Condvar,
    freed: Condvar,
}

impl<M: Drop> Locked<M> {
    /// Makes an empty mailbox of 1 to 8 senders, each with a capacity of 1 to 1,024 messages. No other call
    /// allocates memory.
    ///
    /// # Errors
    ///
    /// `BadSize` if a size is out of its range, else `NoMemory` if an allocation failed.
    pub fn new(alloc: Global, senders: usize, room: usize) -> Result<Self, NewFault>
        ensures senders { IfOk result (λ locked. senders_in locked ≡ senders) }
        ensures bad_size { IsErrOf result NewFault.BadSize ↔ (is_size senders room ≡ false) }
    {
        let core = Core::new(alloc, senders, room)?;
        Ok(Locked {
            senders,
            core: Mutex::new(core),
            sent: Condvar::new(),
            freed: Condvar::new(),
        })
    }

    /// Sends the message, and waits for a free place if its sender has none. Replies `NoSender` if there is
    /// no such sender, else `Closed` if the sender is closed, else `Sent`.
    pub fn send<R: Wait>(&self, rt: &R, sender: usize, message: M) -> Reply<M>
        ensures no_sender { senders_in self.now ≤ sender → result ≡ Reply.NoSender message }
        ensures sender { sender < senders_in self.now → IsSendReply message result }
    {
        if sender >= self.senders {
            return Reply::NoSender(message);
        }
        let mut message = message;
        let mut core = self.core.lock(rt);
        for _ in rt.forever() {
            match offer(&mut core, sender, message) {
                Ok(reply) => {
                    self.sent.notify_one();
                    return reply;
                }
                Err(back) => message = back,
            }
            core = self.freed.wait(rt, core);
        }
        unreachable!()
    }

    /// Takes the oldest message of the first sender, from the turn on and then from sender 0, that has one
    /// waiting. If there is none, waits for one. Replies `Took`, or `Ended` if no message waits and all
    /// senders are closed.
    pub fn take<R: Wait>(&self, rt: &R) -> Reply<M>
        ensures { IsTakeReply result }
    {
        let mut core = self.core.lock(rt);
        for _ in rt.forever() {
            if let Some(reply) = next(&mut core) {
                self.freed.notify_all();
                return reply;
            }
            core = self.sent.wait(rt, core);
        }
        unreachable!()
    }

    /// Closes the sender, and wakes all threads that wait. Replies `Unknown` if there is no such sender, else
    /// `AlreadyShut` if it was closed before, else `Shut`. Its waiting messages stay.
    pub fn close<R: Wait>(&self, rt: &R, sender: usize) -> Reply<M>
        ensures no_sender { senders_in self.now ≤ sender → result ≡ Reply.Unknown }
        ensures sender { sender < senders_in self.now → IsCloseReply result }
    {
        if sender >= self.senders {
            return Reply::Unknown;
        }
        let reply = close_sender(&mut self.core.lock(rt), sender);
        self.sent.notify_all();
        self.freed.notify_all();
        reply
    }
}

// Sends a message to the mailbox. Returns it as the error if the sender's capacity is used up.
fn offer<M: Drop>(core: &mut Core<M>, sender: usize, message: M) -> Result<Reply<M>, M>
    ensures reply { MatchResult result (IsSendReply message) (λ back. back ≡ message) }
    ensures answer { result ≡ answer_to_send (send_reply (mailbox_of core.old) sender message) }
    ensures after { mailbox_of core.new ≡ after_send (mailbox_of core.old) sender message }
{
    match core.send(sender, message) {
        Reply::Full(back) => Err(back),
        Reply::NoSender(back) => Ok(Reply::Closed(back)),
        reply => Ok(reply),
    }
}

// Takes a message, or replies that none will come. Returns `None` if one may still come.
fn next<M: Drop>(core: &mut Core<M>) -> Option<Reply<M>>
    ensures reply { MatchOption result (Unit {0}) IsTakeReply }
    ensures answer { result ≡ answer_to_take (take_reply (mailbox_of core.old)) }
    ensures after { mailbox_of core.new ≡ after_take (mailbox_of core.old) }
{
    match core.take() {
        Reply::Nothing => None,
        reply => Some(reply),
    }
}

// Closes a sender.
fn close_sender<M: Drop>(core: &mut Core<M>, sender: usize) -> Reply<M>
    ensures reply { IsCloseReply result }
    ensures answer { result ≡ answer_to_close (close_reply (mailbox_of core.old) sender) }
    ensures after { mailbox_of core.new ≡ after_close (mailbox_of core.old) sender }
{
    match core.close(sender) {
        Reply::Unknown => Reply::AlreadyShut,
        reply => reply,
    }
}
