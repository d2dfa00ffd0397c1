//! Tests of the ends of rings, `Outlet` and `Inlet`, in threads. `locks` uses its count of messages.

use plan_mailbox::{Inlet, Outlet, Rings};
use std::process::Abort;
use std::sync::Wait;
use std::test::Fail;
use std::thread;
use std::thread::Threads;

/// Checks that the message is the next of its sender, and counts it.
pub fn count_in(rt: &impl Abort, next: &mut [usize], sender: usize, message: usize) {
    assert!(rt; sender < next.len());
    assert!(rt; message == next[sender], "of sender {sender}");
    next[sender] = message.saturating_add(1);
}

/// Sends the numbers from 0 to 9,999 through the outlet.
fn send_ten_thousand<R: Wait>(rt: &R, outlet: &mut Outlet<usize>) {
    let mut next = 0;
    for _ in rt.forever() {
        if next >= 10_000 {
            return;
        }
        match outlet.try_send(next) {
            Ok(()) => next += 1,
            Err(_) => thread::yield_now(),
        }
    }
}

/// Takes all messages of two senders, and checks that those of each sender are in order.
fn take_ten_thousands<R: Wait + Abort>(rt: &R, inlet: &mut Inlet<usize>) {
    let mut next = [0, 0];
    for _ in rt.forever() {
        if next == [10_000, 10_000] {
            break;
        }
        match inlet.try_take() {
            Some((sender, message)) => count_in(rt, &mut next, sender, message),
            None => thread::yield_now(),
        }
    }
    assert!(rt; inlet.try_take().is_none());
}

// Sends through two outlets, in two threads.
fn send_twice<R: Threads + Wait + Sync>(
    rt: &R,
    first: &mut Outlet<usize>,
    second: &mut Outlet<usize>,
) {
    thread::join(
        rt,
        || send_ten_thousand(rt, first),
        || send_ten_thousand(rt, second),
    );
}

#[test]
fn two_threads_send_in_order_over_room_for_one(rt: HostRuntime) -> Result<(), Fail> {
    let rings = Rings::new(rt.alloc(), 2, 1)?;
    let Ok((mut outlets, mut inlet)) = rings.split(rt.alloc()) else {
        panic!(rt; "memory");
    };
    let [first, second] = outlets.as_mut_slice() else {
        panic!(rt; "no two outlets");
    };
    let rt = &rt;
    thread::join(
        rt,
        || send_twice(rt, first, second),
        || take_ten_thousands(rt, &mut inlet),
    );
    Ok(())
}
