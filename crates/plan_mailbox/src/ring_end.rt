//! The receiving end of one ring.

ghost use Rattle.std.specs.Prelude.{◌≡◌, ◌<◌, ◌≤◌, ◌↔◌, ℕ, [], ◌∷◌, ◌++◌, IsTrue, IfSome, IfNone, false, length, slice_set, true, vec_len};
ghost use mathlib.Core.List.{IsPrefix};
ghost use Rattle.rtrb.specs.Ring.{IsPair, known_items, received, sent};
ghost use Rattle.plan_mailbox.specs.Ends.{IsTakeAmong, consumer_ring, known_at, receiving};

use rtrb::{Consumer, Producer};

/// The receiving end of a ring, and whether the receipt of its sender was settled.
#[derive(Drop)]
pub(crate) struct RingEnd<M> {
    consumer: Consumer<M>,
    is_settled: bool,
}

impl<M> RingEnd<M> {
    /// Makes the receiving end of a ring. The receipt isn't settled yet.
    pub(crate) fn new(consumer: Consumer<M>) -> Self
        ensures { result ≡ record { consumer = consumer; is_settled = false } }
    {
        RingEnd {
            consumer,
            is_settled: false,
        }
    }

    /// Takes the oldest message, if there is one. Once the receipt is settled, it takes only messages that
    /// are known to wait.
    fn try_take(&mut self) -> Option<M>
        ensures ring { consumer_ring self.new.consumer ≡ consumer_ring self.old.consumer }
        ensures settled { self.new.is_settled ≡ self.old.is_settled }
        ensures taken { IfSome result (λ message.
            received self.new.consumer ≡ received self.old.consumer ++ message ∷ []) }
        ensures oldest { IfSome result (λ message.
            IsPrefix (known_items self.old.consumer) (message ∷ known_items self.new.consumer)) }
        ensures all_known { IfSome result (λ message. self.old.is_settled ≡ true →
            known_items self.old.consumer ≡ message ∷ known_items self.new.consumer) }
        ensures untaken { IfNone result (received self.new.consumer ≡ received self.old.consumer) }
        ensures was_empty { IfNone result (known_items self.old.consumer ≡ []) }
        ensures empty { IfNone result (known_items self.new.consumer ≡ []) }
    {
        if !self.has_message() {
            return None;
        }
        Some(self.consumer.pop_known())
    }

    /// Returns whether a message waits. Once the receipt is settled, all waiting messages are known, and the
    /// ring isn't read.
    fn has_message(&mut self) -> bool
        ensures value { IsTrue result ↔ (0 < length (known_items self.new.consumer)) }
        ensures ring { consumer_ring self.new.consumer ≡ consumer_ring self.old.consumer }
        ensures settled { self.new.is_settled ≡ self.old.is_settled }
        ensures untaken { received self.new.consumer ≡ received self.old.consumer }
        ensures oldest { IsPrefix (known_items self.old.consumer) (known_items self.new.consumer) }
        ensures all_known { self.old.is_settled ≡ true →
            known_items self.new.consumer ≡ known_items self.old.consumer }
    {
        if self.is_settled {
            return self.consumer.cached_slots() > 0;
        }
        !self.consumer.is_empty()
    }
}

impl<M: Drop> RingEnd<M> {
    /// Learns which messages still wait from the sending end, which sends no more.
    pub(crate) fn settle(&mut self, producer: Producer<M>)
        requires { IsPair producer self.old.consumer }
        ensures ring { consumer_ring self.new.consumer ≡ consumer_ring self.old.consumer }
        ensures settled { self.new.is_settled ≡ true }
        ensures untaken { received self.new.consumer ≡ received self.old.consumer }
        ensures accounts { received self.new.consumer ++ known_items self.new.consumer ≡ sent producer }
    {
        let mut producer = producer;
        self.consumer.slots_beside(&mut producer);
        self.is_settled = true;
    }
}

/// Takes the oldest message of the first sender, from `from` to before `upto`, that has one in its ring.
pub(crate) fn take_among<M>(
    ends: &mut Vec<RingEnd<M>>,
    from: usize,
    upto: usize,
) -> Option<(usize, M)>
    requires { upto ≤ vec_len ends.old }
    ensures some { IfSome result (λ took.
        IsTakeAmong from upto (receiving 0 ends.old.items) took.0 took.1 (receiving 0 ends.new.items)) }
    ensures none { IfNone result (receiving 0 ends.new.items ≡ receiving 0 ends.old.items) }
    ensures nothing_known { IfNone result ((s : ℕ) → from ≤ s → s < upto →
        known_at (receiving 0 ends.old.items) s ≡ []) }
{
    for sender in from..upto {
        if let Some(message) = ends[sender].try_take() {
            return Some((sender, message));
        }
    }
    None
}
