//! What every mailbox can do, and what each call does to it.

ghost use Rattle.std.specs.Prelude.{◌≡◌, ◌↔◌, IsTrue};
ghost use Rattle.plan_mailbox.specs.Mailbox.{Mailbox, IsNew, IsUnused, after_close, after_send, after_take, close_reply, send_reply, senders_of, take_reply};

use crate::replies::Reply;

/// A mailbox of messages `M`: a number of senders, each with the same capacity, and one receiver.
///
/// Senders are numbered from 0. No call allocates memory. A message that is rejected comes back unchanged.
pub trait Post<M> {
    /// What a caller sees of the mailbox, however it is represented.
    ghost seen: { Self → Mailbox M };

    /// Sends the message. Replies `NoSender` if there is no such sender, else `Closed` if the sender is
    /// closed, else `Full` if its capacity is used up, else `Sent`.
    fn send(&mut self, sender: usize, message: M) -> Reply<M>
        ensures reply { result ≡ send_reply (seen self.old) sender message }
        ensures after { seen self.new ≡ after_send (seen self.old) sender message };

    /// Takes the oldest message of the first sender, from the turn on and then from sender 0, that has one
    /// waiting. Replies `Took`, and the turn passes to the next sender. If no message waits, replies `Ended`
    /// if all senders are closed, else `Nothing`.
    fn take(&mut self) -> Reply<M>
        ensures reply { result ≡ take_reply (seen self.old) }
        ensures after { seen self.new ≡ after_take (seen self.old) };

    /// Closes the sender. Replies `Unknown` if there is no such sender, else `AlreadyShut` if it was closed
    /// before, else `Shut`. Its waiting messages stay.
    fn close(&mut self, sender: usize) -> Reply<M>
        ensures reply { result ≡ close_reply (seen self.old) sender }
        ensures after { seen self.new ≡ after_close (seen self.old) sender };

    /// Returns whether no message was ever sent and no sender is closed. Then no message waits, and the turn
    /// is 0.
    fn is_new(&self) -> bool
        ensures unused { IsTrue result ↔ IsUnused (seen self.now) }
        ensures new { IsTrue result ↔ IsNew (seen self.now) };

    /// Returns the number of senders.
    fn senders(&self) -> usize
        ensures { result ≡ senders_of (seen self.now) };

    /// Returns the capacity of each sender, in messages.
    fn room(&self) -> usize
        ensures { result ≡ (seen self.now).room };
}
