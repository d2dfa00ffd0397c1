//! The receiving end of all rings of a mailbox.

ghost use Rattle.std.specs.Prelude.{◌<◌, vec_len};

use crate::outlet::Receipt;
use crate::ring_end::{RingEnd, take_among};
use thiserror::Error;

/// The receiving end of all rings of a mailbox, which belongs to the receiver.
///
/// Contracts see the turn and, for each sender, its ring, the messages taken from it, the messages known to
/// wait, and whether its receipt was settled.
#[derive(Drop)]
pub struct Inlet<M> {
    ends: Vec<RingEnd<M>>,
    turn: usize,
    ghost turn_in_range: { turn < vec_len ends },
}

/// The error of a receipt that can't be settled. Only `Inlet::settle` can make it, and that always succeeds.
#[derive(Clone, Copy, Debug, PartialEq, Eq, Error)]
#[error("NotSettled")]
pub struct NotSettled {
    pub(crate) made_by_settle: (),
}

impl<M> Inlet<M> {
    ghost use Rattle.std.specs.Prelude.{◌≡◌, IfSome, IfNone};
    ghost use Rattle.plan_mailbox.specs.Ends.{IsTake, NothingKnown, inlet_of, receiving};

    /// Makes the inlet of these ends. The first sender has the turn.
    pub(crate) fn new(ends: Vec<RingEnd<M>>) -> Self
        requires { 0 < vec_len ends }
        ensures { inlet_of result ≡ receiving 0 ends.items }
    {
        Inlet { ends, turn: 0 }
    }

    /// Takes the oldest message of the first sender, from the turn on and then from sender 0, that has one in its ring.
    /// Returns the sender's number and the message. The turn then passes to the next sender. Returns at once,
    /// whatever the senders do.
    pub fn try_take(&mut self) -> Option<(usize, M)>
        ensures took { IfSome result (λ took. IsTake (inlet_of self.old) took.0 took.1 (inlet_of self.new)) }
        ensures unchanged { IfNone result (inlet_of self.new ≡ inlet_of self.old) }
        ensures nothing_known { IfNone result (NothingKnown (inlet_of self.old)) }
    {
        let senders = self.ends.len();
        let turn = self.turn;
        if let Some((sender, message)) = take_among(&mut self.ends, turn, senders) {
            self.turn = (sender + 1) % senders;
            return Some((sender, message));
        }
        let (sender, message) = take_among(&mut self.ends, 0, turn)?;
        self.turn = (sender + 1) % senders;
        Some((sender, message))
    }
}

impl<M: Drop> Inlet<M> {
    ghost use Rattle.std.specs.Prelude.{◌≡◌, IsOk, slice_get};
    ghost use Rattle.plan_mailbox.specs.Ends.{Accounts, after_settle, inlet_of, known_at, receipt_of};

    /// Learns from the receipt of a closed outlet which messages of its sender still wait. Returns at once,
    /// and always succeeds.
    pub fn settle(&mut self, sender: usize, receipt: Receipt<M>) -> Result<(), NotSettled>
        // The receipt comes from the outlet of this sender, of the same split.
        requires { slice_get (inlet_of self.old).rings sender ≡ Some (receipt_of receipt).ring }
        ensures succeeds { IsOk result }
        ensures accounts { Accounts (inlet_of self.new) sender (receipt_of receipt).sent }
        ensures settled { inlet_of self.new ≡ after_settle (inlet_of self.old) sender (known_at (inlet_of self.new) sender) }
    {
        self.ends[sender].settle(receipt.into_producer());
        Ok(())
    }
}
