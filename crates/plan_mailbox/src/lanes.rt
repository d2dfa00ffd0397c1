//! The mailbox whose code `Core` and `Rings` share: a lane for each sender.

ghost use Rattle.std.specs.Prelude.{◌≡◌, ◌<◌, ◌≤◌, All, length, vec_len, false};
ghost use Rattle.plan_mailbox.specs.Mailbox.{is_size, most_room, most_senders};

use crate::faults::NewFault;
use crate::lane::Lane;
use crate::mailbox::Post;
use crate::replies::Reply;
use crate::scan::{all_closed, any_closed, first_waiting, new_lanes};
use crate::sizes::{MOST_ROOM, MOST_SENDERS};
use std::alloc::Global;
use std::marker::PhantomData;

/// A mailbox of messages `M` that keeps a lane `L` for each sender. `new` allocates its capacity.
///
/// `Core` and `Rings` are both of this type. So one implementation meets every clause of `Post` for both.
#[derive(Drop)]
pub struct Lanes<M, L: Lane<M>> {
    room: usize,
    pub(crate) lanes: Vec<L>,
    turn: usize,
    has_sent: bool,
    of: PhantomData<M>,
    ghost has_senders: { 0 < vec_len lanes },
    ghost few_senders: { vec_len lanes ≤ most_senders },
    ghost has_room: { 0 < room },
    ghost little_room: { room ≤ most_room },
    ghost turn_in_range: { turn < vec_len lanes },
    ghost reserved: { All (λ lane. L.places lane ≡ room) lanes.items },
    ghost fits: { All (λ lane. length (L.waiting lane) ≤ room) lanes.items },
    ghost begins: { has_sent ≡ false → turn ≡ 0 },
    ghost unused: { has_sent ≡ false → All (λ lane. length (L.sent lane) ≡ 0) lanes.items },
}

impl<M: Drop, L: Lane<M>> Lanes<M, L> {
    ghost use Rattle.std.specs.Prelude.{◌≡◌, ◌↔◌, IfOk, IsErrOf, false};
    ghost use Rattle.plan_mailbox.specs.Mailbox.{IsNew, new_mailbox};
    ghost use Rattle.plan_mailbox.specs.Lanes.{mailbox_of};

    /// Makes an empty mailbox of 1 to 8 senders, each with a capacity of 1 to 1,024 messages. No other call
    /// allocates memory.
    ///
    /// # Errors
    ///
    /// `BadSize` if a size is out of its range, else `NoMemory` if an allocation failed.
    pub fn new(alloc: Global, senders: usize, room: usize) -> Result<Self, NewFault>
        ensures made { IfOk result (λ made. mailbox_of made ≡ new_mailbox senders room) }
        ensures is_new { IfOk result (λ made. IsNew (mailbox_of made)) }
        ensures bad_size { IsErrOf result NewFault.BadSize ↔ (is_size senders room ≡ false) }
    {
        if !is_size(senders, room) {
            return Err(NewFault::BadSize);
        }
        Ok(Lanes {
            room,
            lanes: new_lanes(alloc, senders, room)?,
            turn: 0,
            has_sent: false,
            of: PhantomData,
        })
    }
}

impl<M, L: Lane<M>> Lanes<M, L> {
    ghost use Rattle.std.specs.Prelude.{◌≡◌};

    /// Returns the lanes, in the order of the senders.
    pub(crate) fn into_lanes(self) -> Vec<L>
        ensures { result ≡ self.lanes }
    {
        let Lanes {
            room: _,
            lanes,
            turn: _,
            has_sent: _,
            of: _,
        } = self;
        lanes
    }
}

impl<M: Drop, L: Lane<M>> Post<M> for Lanes<M, L> {
    ghost use Rattle.plan_mailbox.specs.Lanes.{mailbox_of};

    ghost seen = { mailbox_of };

    fn send(&mut self, sender: usize, message: M) -> Reply<M> {
        let Some(lane) = self.lanes.get(sender) else {
            return Reply::NoSender(message);
        };
        if lane.is_closed() {
            return Reply::Closed(message);
        }
        if lane.len() == self.room {
            return Reply::Full(message);
        }
        self.lanes[sender].push(message);
        self.has_sent = true;
        Reply::Sent
    }

    fn take(&mut self) -> Reply<M> {
        match first_waiting(&self.lanes, self.turn) {
            Some(sender) => {
                let message = self.lanes[sender].pop();
                self.turn = (sender + 1) % self.lanes.len();
                Reply::Took(sender, message)
            }
            None => {
                if all_closed(&self.lanes) {
                    Reply::Ended
                } else {
                    Reply::Nothing
                }
            }
        }
    }

    fn close(&mut self, sender: usize) -> Reply<M> {
        let Some(lane) = self.lanes.get(sender) else {
            return Reply::Unknown;
        };
        if lane.is_closed() {
            return Reply::AlreadyShut;
        }
        self.lanes[sender].close();
        Reply::Shut
    }

    fn is_new(&self) -> bool {
        !self.has_sent && !any_closed(&self.lanes)
    }

    fn senders(&self) -> usize {
        self.lanes.len()
    }

    fn room(&self) -> usize {
        self.room
    }
}

// Returns whether a mailbox may have this many senders, each with this capacity.
fn is_size(senders: usize, room: usize) -> bool
    ensures { result ≡ is_size senders room }
{
    (1..=MOST_SENDERS).contains(&senders) && (1..=MOST_ROOM).contains(&room)
}
