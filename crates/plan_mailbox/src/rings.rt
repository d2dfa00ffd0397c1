//! The mailbox of rings, and how it is split into the ends that threads hold.

ghost use Rattle.std.specs.Prelude.{◌≡◌, ◌++◌, []};
ghost use Rattle.rtrb.specs.Ring.{IsPair, known_free, known_items, producer_capacity, received, sent};

use crate::inlet::Inlet;
use crate::lane::Lane;
use crate::lanes::Lanes;
use crate::outlet::Outlet;
use crate::ring_end::RingEnd;
use rtrb::{Consumer, Producer, RingBuffer};
use std::alloc::{AllocError, Global};

/// The mailbox of rings: a ring for each sender, with as many places as the sender's capacity.
pub type Rings<M> = Lanes<M, RingLane<M>>;

/// Both ends of a sender's ring, and whether the sender is closed.
#[derive(Drop)]
pub struct RingLane<M> {
    producer: Producer<M>,
    consumer: Consumer<M>,
    is_closed: bool,
    ghost pair: { IsPair producer consumer },
    ghost fifo: { received consumer ++ known_items consumer ≡ sent producer },
    ghost all_free: { sent producer ≡ [] → known_free producer ≡ producer_capacity producer },
}

impl<M: Drop> Lane<M> for RingLane<M> {
    ghost use Rattle.plan_mailbox.specs.Rings.{length_left};

    ghost waiting = { λ lane. known_items lane.consumer };

    ghost closed = { λ lane. lane.is_closed };

    ghost places = { λ lane. producer_capacity lane.producer };

    ghost sent = { λ lane. sent lane.producer };

    fn new(alloc: Global, room: usize) -> Result<Self, AllocError> {
        let (producer, consumer) = RingBuffer::new(alloc, room)?;
        Ok(RingLane {
            producer,
            consumer,
            is_closed: false,
        })
    }

    fn len(&self) -> usize {
        self.consumer.cached_slots()
    }

    fn is_closed(&self) -> bool {
        self.is_closed
    }

    fn push(&mut self, message: M) {
        self.producer.slots_beside(&mut self.consumer);
        self.producer.push_reserved(message);
        self.consumer.slots_beside(&mut self.producer);
    }

    fn pop(&mut self) -> M {
        self.consumer.pop_known()
    }

    fn close(&mut self) {
        self.is_closed = true;
    }

    ghost waits_sent = { λ lane. length_left (received lane.consumer) (known_items lane.consumer) (sent lane.producer) lane.fifo };
}

impl<M: Drop> Lanes<M, RingLane<M>> {
    ghost use Rattle.std.specs.Prelude.{◌≡◌, All, IfErr, IfOk, map, vec_len};
    ghost use Rattle.plan_mailbox.specs.Ends.{free_of, inlet_of, new_inlet, new_outlets, outlet_of};
    ghost use Rattle.plan_mailbox.specs.Lanes.{mailbox_of};
    ghost use Rattle.plan_mailbox.specs.Mailbox.{IsNew, senders_of};
    ghost use Rattle.plan_mailbox.specs.Splits.{rings_of};

    /// Splits a new mailbox into the ends of its rings: an outlet for each sender, in the order of the
    /// senders, and the inlet for the receiver. Each outlet knows that its whole capacity is free.
    ///
    /// # Errors
    ///
    /// If an allocation fails, the mailbox comes back unchanged.
    pub fn split(self, alloc: Global) -> Result<(Vec<Outlet<M>>, Inlet<M>), Self>
        requires { IsNew (mailbox_of self) }
        ensures returned { IfErr result (λ back. back ≡ self) }
        ensures as_many { IfOk result (λ ends. vec_len ends.0 ≡ senders_of (mailbox_of self)) }
        ensures outlets { IfOk result (λ ends. map outlet_of ends.0.items ≡ new_outlets (rings_of self)) }
        ensures room { IfOk result (λ ends. All (λ outlet. free_of outlet ≡ (mailbox_of self).room) ends.0.items) }
        ensures inlet { IfOk result (λ ends. inlet_of ends.1 ≡ new_inlet (rings_of self)) }
    {
        let senders = self.lanes.len();
        let Ok(mut outlets) = Vec::with_capacity(alloc, senders) else {
            return Err(self);
        };
        let Ok(mut ends) = Vec::with_capacity(alloc, senders) else {
            return Err(self);
        };
        for lane in self.into_lanes() {
            let (producer, consumer) = lane.into_ends();
            outlets.push_reserved(Outlet::new(outlets.len(), producer));
            ends.push_reserved(RingEnd::new(consumer));
        }
        Ok((outlets, Inlet::new(ends)))
    }
}

impl<M> RingLane<M> {
    /// Returns both ends of the ring.
    fn into_ends(self) -> (Producer<M>, Consumer<M>)
        ensures producer { result.0 ≡ self.producer }
        ensures consumer { result.1 ≡ self.consumer }
    {
        let RingLane {
            producer,
            consumer,
            is_closed: _,
        } = self;
        (producer, consumer)
    }
}
