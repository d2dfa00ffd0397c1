//! Messages from one thread to another: through a ring, and through a mailbox behind a lock.

use plan_mailbox::{Inlet, Locked, Outlet, Reply, Rings};
use std::alloc::Global;
use std::sync::Wait;
use std::thread;
use std::thread::Threads;

// A message of four numbers.
type Message = [u64; 4];

/// Sends this many messages from one thread to another through a ring, and returns how many were taken.
pub fn through_ring<R: Threads + Wait + Sync>(
    rt: &R,
    alloc: Global,
    room: usize,
    count: u64,
) -> Option<u64> {
    let rings = Rings::new(alloc, 1, room).ok()?;
    let (mut outlets, inlet) = rings.split(alloc).ok()?;
    let outlet = outlets.pop()?;
    let (_, taken) = thread::join(
        rt,
        || send_all(rt, outlet, count),
        || take_all(rt, inlet, count),
    );
    Some(taken)
}

// Sends the messages. Sends each again while the ring is full.
fn send_all<R: Wait>(rt: &R, mut outlet: Outlet<Message>, count: u64) {
    for number in 0..count {
        for _ in rt.forever() {
            if outlet.try_send([number, 1, 2, 3]).is_ok() {
                break;
            }
            thread::yield_now();
        }
    }
}

// Takes the messages, and returns how many there were.
fn take_all<R: Wait>(rt: &R, mut inlet: Inlet<Message>, count: u64) -> u64 {
    let mut taken = 0u64;
    for _ in rt.forever() {
        if taken >= count {
            break;
        }
        match inlet.try_take() {
            Some(_) => taken = taken.saturating_add(1),
            None => thread::yield_now(),
        }
    }
    taken
}

/// Sends this many messages from one thread to another through a mailbox behind a lock, and returns how many
/// were taken.
pub fn through_lock<R: Threads + Wait + Sync>(
    rt: &R,
    alloc: Global,
    room: usize,
    count: u64,
) -> Option<u64> {
    let locked = Locked::<Message>::new(alloc, 1, room).ok()?;
    let shared = &locked;
    let (_, taken) = thread::join(
        rt,
        || send_all_locked(rt, shared, count),
        || take_all_locked(rt, shared),
    );
    Some(taken)
}

// Sends the messages, and closes the sender.
fn send_all_locked<R: Wait>(rt: &R, locked: &Locked<Message>, count: u64) {
    for number in 0..count {
        locked.send(rt, 0, [number, 1, 2, 3]);
    }
    locked.close(rt, 0);
}

// Takes messages until the sender is closed, and returns how many there were.
fn take_all_locked<R: Wait>(rt: &R, locked: &Locked<Message>) -> u64 {
    let mut taken = 0u64;
    for _ in rt.forever() {
        match locked.take(rt) {
            Reply::Ended => break,
            _ => taken = taken.saturating_add(1),
        }
    }
    taken
}
