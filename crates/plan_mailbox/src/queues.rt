//! The plain mailbox, which keeps a queue for each sender.

ghost use Rattle.std.specs.Prelude.{◌≤◌, length};
ghost use Rattle.std.specs.VecDeque.{deque_capacity, deque_len};

use crate::lane::Lane;
use crate::lanes::Lanes;
use std::alloc::{AllocError, Global};
use std::collections::VecDeque;

/// The plain mailbox: a queue for each sender.
pub type Core<M> = Lanes<M, QueueLane<M>>;

/// The queue of a sender, and whether the sender is closed. `new` allocates its capacity.
#[derive(Drop)]
pub struct QueueLane<M> {
    queue: VecDeque<M>,
    room: usize,
    is_closed: bool,
    ghost fits: { deque_len queue ≤ room },
    ghost reserved: { room ≤ deque_capacity queue },
}

impl<M: Drop> Lane<M> for QueueLane<M> {
    ghost use Rattle.std.proofs.Common.{le_refl};

    ghost waiting = { λ lane. lane.queue.items };

    ghost closed = { λ lane. lane.is_closed };

    ghost places = { λ lane. lane.room };

    ghost sent = { λ lane. lane.queue.items };

    fn new(alloc: Global, room: usize) -> Result<Self, AllocError> {
        Ok(QueueLane {
            queue: VecDeque::with_capacity(alloc, room)?,
            room,
            is_closed: false,
        })
    }

    fn len(&self) -> usize {
        self.queue.len()
    }

    fn is_closed(&self) -> bool {
        self.is_closed
    }

    fn push(&mut self, message: M) {
        self.queue.push_back_reserved(message);
    }

    fn pop(&mut self) -> M {
        self.queue.pop_front().unwrap()
    }

    fn close(&mut self) {
        self.is_closed = true;
    }

    ghost waits_sent = { λ lane. le_refl (length lane.queue.items) };
}
