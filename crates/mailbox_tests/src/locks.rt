//! Tests of `Locked`, a mailbox behind a lock, with threads that send and take at the same time.

use crate::ends::count_in;
use plan_mailbox::{Locked, Reply};
use std::process::Abort;
use std::sync::Wait;
use std::thread;
use std::thread::Threads;

/// Sends the thousand numbers of a sender, and closes it.
fn send_thousand<R: Wait + Abort>(rt: &R, locked: &Locked<usize>, sender: usize) {
    let first = sender.saturating_mul(1_000);
    for number in 0..1_000 {
        let reply = locked.send(rt, sender, first.saturating_add(number));
        assert!(rt; reply == Reply::Sent);
    }
    assert!(rt; locked.close(rt, sender) == Reply::Shut);
}

/// Takes all numbers of three senders until no more will come, and checks that those of each sender are in order.
fn take_thousands<R: Wait + Abort>(rt: &R, locked: &Locked<usize>) {
    let mut next = [0, 1_000, 2_000];
    for _ in 0..3_000 {
        match locked.take(rt) {
            Reply::Took(sender, message) => count_in(rt, &mut next, sender, message),
            _ => panic!(rt; "no message"),
        }
    }
    assert!(rt; next == [1_000, 2_000, 3_000]);
    assert!(rt; locked.take(rt) == Reply::Ended);
}

// Sends the numbers of two senders, in two threads.
fn send_two_thousand<R: Threads + Wait + Abort + Sync>(rt: &R, locked: &Locked<usize>) {
    thread::join(
        rt,
        || send_thousand(rt, locked, 0),
        || send_thousand(rt, locked, 1),
    );
}

// Sends the numbers of a third sender, and takes all numbers, in two threads.
fn send_and_take<R: Threads + Wait + Abort + Sync>(rt: &R, locked: &Locked<usize>) {
    thread::join(
        rt,
        || send_thousand(rt, locked, 2),
        || take_thousands(rt, locked),
    );
}

#[test]
fn three_threads_send_in_order_over_room_for_one(rt: HostRuntime) {
    let Ok(locked) = Locked::new(rt.alloc(), 3, 1) else {
        panic!(rt; "memory");
    };
    let (rt, locked) = (&rt, &locked);
    thread::join(
        rt,
        || send_two_thousand(rt, locked),
        || send_and_take(rt, locked),
    );
}
