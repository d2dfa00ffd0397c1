//! The sending end of a ring, and the receipt that remains when it is closed.

ghost use Rattle.std.specs.Prelude.{◌≡◌, IsOk, OnOk, OnErr, IfErr};

use rtrb::{Producer, PushError};

/// The sending end of a ring, which belongs to one sender. It can move to another thread.
///
/// Contracts see the sender's number, its ring, the messages that it sent, and how many places of the ring it
/// knows to be free.
#[derive(Drop)]
pub struct Outlet<M> {
    sender: usize,
    producer: Producer<M>,
}

/// What remains of a closed outlet. The inlet learns from it everything that the outlet sent.
#[derive(Drop)]
pub struct Receipt<M> {
    outlet: Outlet<M>,
}

impl<M> Outlet<M> {
    ghost use Rattle.std.specs.Prelude.{◌+◌, ◌<◌, ◌≤◌, [], ◌∷◌, ◌++◌};
    ghost use Rattle.rtrb.specs.Ring.{known_free, sent};
    ghost use Rattle.plan_mailbox.specs.Ends.{free_of, outlet_of, producer_ring, receipt_of};

    /// Makes the outlet of the sender with this number, from the sending end of its ring.
    pub(crate) fn new(sender: usize, producer: Producer<M>) -> Self
        ensures free { free_of result ≡ known_free producer }
        ensures outlet { outlet_of result ≡ record { sender = sender; ring = producer_ring producer; sent = sent producer } }
    {
        Outlet { sender, producer }
    }

    /// Returns the sender's number.
    pub fn sender(&self) -> usize
        ensures { result ≡ (outlet_of self.now).sender }
    {
        self.sender
    }

    /// Sends the message if the ring has a free place. Returns at once, whatever the receiver does.
    ///
    /// An outlet that knows of a free place sends without error, and uses up no more than that place.
    ///
    /// # Errors
    ///
    /// If the ring is full, nothing is sent, and the message comes back.
    pub fn try_send(&mut self, message: M) -> Result<(), M>
        ensures sent { let before = outlet_of self.old in OnOk result
            (outlet_of self.new ≡ record before { sent = before.sent ++ message ∷ [] }) }
        ensures unsent { OnErr result (outlet_of self.new ≡ outlet_of self.old) }
        ensures back { IfErr result (λ back. back ≡ message) }
        ensures succeeds { 0 < free_of self.old → IsOk result }
        ensures one_place { OnOk result (free_of self.old ≤ free_of self.new + 1) }
        ensures full { OnErr result (free_of self.new ≡ 0) }
    {
        match self.producer.push(message) {
            Ok(()) => Ok(()),
            Err(PushError::Full(back)) => Err(back),
        }
    }

    /// Closes the outlet. The receipt accounts for everything that was sent.
    pub fn close(self) -> Receipt<M>
        ensures { receipt_of result ≡ outlet_of self }
    {
        Receipt { outlet: self }
    }
}

impl<M> Receipt<M> {
    ghost use Rattle.rtrb.specs.Ring.{sent};
    ghost use Rattle.plan_mailbox.specs.Ends.{producer_ring, receipt_of};

    /// Returns the number of the outlet's sender.
    pub fn sender(&self) -> usize
        ensures { result ≡ (receipt_of self.now).sender }
    {
        self.outlet.sender
    }

    /// Returns the sending end of the outlet's ring.
    pub(crate) fn into_producer(self) -> Producer<M>
        ensures ring { producer_ring result ≡ (receipt_of self).ring }
        ensures sent { sent result ≡ (receipt_of self).sent }
    {
        let Receipt { outlet } = self;
        let Outlet {
            sender: _,
            producer,
        } = outlet;
        producer
    }
}
