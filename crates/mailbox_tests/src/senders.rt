//! Tests of a mailbox behind a lock, with two and three senders, also with threads that use it at the same time.
//!
//! What a thread does is a text of steps, with a space between them. A step is the digit of a sender, a sign,
//! and the letter of a message:
//!
//! - `1+a`: sender 1 sends `a`.
//! - `1!a`: the same, but `a` comes back, since the sender is closed.
//! - `1-a`: a take gives `a` of sender 1.
//! - `1.`: sender 1 is closed.
//! - `1:`: sender 1 was closed before.
//! - `$`: a take gives the answer that no message will come.
//! - `~2`: two steps get done, by all threads together, and no third within a while.

use plan_mailbox::{Locked, Reply};
use std::process::Abort;
use std::sync::Wait;
use std::sync::atomic::AtomicU64;
use std::sync::atomic::Ordering::SeqCst;
use std::thread;
use std::thread::Threads;

// Returns the number of a digit.
fn number(digit: u8) -> u8 {
    digit.wrapping_sub(b'0')
}

// Returns the character at this place of a step, or `0` if it has none.
fn character(step: &[u8], place: usize) -> u8 {
    step.get(place).copied().unwrap_or(b'0')
}

// Does the step with this sign, and returns whether the mailbox replies as wanted.
fn take_step<R: Wait>(rt: &R, locked: &Locked<u8>, sign: u8, sender: usize, message: u8) -> bool {
    match sign {
        b'+' => locked.send(rt, sender, message) == Reply::Sent,
        b'!' => locked.send(rt, sender, message) == Reply::Closed(message),
        b'-' => locked.take(rt) == Reply::Took(sender, message),
        b'.' => locked.close(rt, sender) == Reply::Shut,
        b':' => locked.close(rt, sender) == Reply::AlreadyShut,
        _ => locked.take(rt) == Reply::Ended,
    }
}

// Waits until this many steps are done, and checks that no more get done within a while.
fn assert_done(rt: &impl Abort, done: &AtomicU64, wanted: u64) {
    for _ in 0..10_000_000 {
        if done.load(SeqCst) >= wanted {
            break;
        }
        thread::yield_now();
    }
    for _ in 0..10_000 {
        assert_eq!(rt; done.load(SeqCst), wanted);
        thread::yield_now();
    }
}

// Does the steps of a text, and counts each one that is done.
fn play<R: Wait + Abort>(rt: &R, locked: &Locked<u8>, done: &AtomicU64, steps: &str) {
    for step in steps.split(' ') {
        let (first, sign) = (character(step.as_bytes(), 0), character(step.as_bytes(), 1));
        if first == b'~' {
            assert_done(rt, done, u64::from(number(sign)));
        } else if !step.is_empty() {
            let sender = usize::from(number(first));
            let message = character(step.as_bytes(), 2);
            assert!(rt;
                take_step(rt, locked, sign, sender, message),
                "{step} of {steps}"
            );
            done.fetch_add(1, SeqCst);
        }
    }
}

// Does the steps of three texts on a new mailbox, in three threads at the same time. An empty text has no step.
fn assert_plays<R: Threads + Wait + Abort + AllocGlobal + Sync>(
    rt: &R,
    senders: usize,
    room: usize,
    first: &str,
    others: (&str, &str),
) {
    let Ok(locked) = Locked::new(rt.alloc(), senders, room) else {
        panic!(rt; "memory");
    };
    let (locked, done) = (&locked, &AtomicU64::new(0));
    thread::join(
        rt,
        || play(rt, locked, done, first),
        || play_both(rt, locked, done, others),
    );
}

// Does the steps of two texts, in two threads at the same time.
fn play_both<R: Threads + Wait + Abort + Sync>(
    rt: &R,
    locked: &Locked<u8>,
    done: &AtomicU64,
    steps: (&str, &str),
) {
    thread::join(
        rt,
        || play(rt, locked, done, steps.0),
        || play(rt, locked, done, steps.1),
    );
}

// The rule of the turn: a take checks first the sender after the one that gave the last message.
#[test]
fn the_turn_goes_round_the_senders(rt: HostRuntime) {
    let of_two = "1+c 0+a 0+b 1+d 0-a 1-c 0-b 1-d 0. 1. $";
    assert_plays(&rt, 2, 2, of_two, ("", ""));
    let of_three = "2+e 0+a 0+b 1+c 2+f 0-a 1-c 2-e 0-b 2-f 2+g 1+d 1-d 2-g 0. 1. 2. $";
    assert_plays(&rt, 3, 2, of_three, ("", ""));
    assert_plays(
        &rt,
        3,
        1,
        "0+a 0-a 0+b 1+c 1-c 2+e 2-e 1+f 0-b 1-f",
        ("", ""),
    );
}

// The other senders are full, and then closed.
#[test]
fn room_and_marks_are_those_of_one_sender(rt: HostRuntime) {
    let full = "0+a 0+b 1+c 1+d 2+e 2+f 0-a 0+g 1-c 1+h 2-e 2+i";
    assert_plays(&rt, 3, 2, full, ("", ""));
    let closed = "1. 0+a 2+c 1!b 0-a 0+d 0. 0!e 2-c 0-d 2+f 1: 0: 2. 2-f $ $";
    assert_plays(&rt, 3, 1, closed, ("", ""));
    assert_plays(&rt, 2, 1, "0+a 1+b 0. 1. 0!c 1!d 0-a 1-b $ 0: 1:", ("", ""));
}

#[test]
fn a_take_waits(rt: HostRuntime) {
    // Until another sender, which is open, sends.
    assert_plays(&rt, 2, 1, "1-a", ("0.", "~1 1+a"));
    // Two takes wait until the last sender is closed.
    assert_plays(&rt, 2, 1, "$", ("$", "~0 0. ~1 1."));
}

#[test]
fn a_send_waits(rt: HostRuntime) {
    // With a capacity of two, a third message waits until one of the same sender is taken.
    assert_plays(&rt, 2, 2, "1+a 1+b 1+c", ("0+x", "~3 0-x ~4 1-a 1-b 1-c"));
    // Two sends wait, each until its own earlier message is taken. Either of them may be the first to wait.
    let takes = "2. ~4 0-a ~6 1-c ~8 0-b 1-d";
    assert_plays(&rt, 3, 1, "0+a ~3 2!x 0+b", ("1+c 1+d", takes));
    assert_plays(&rt, 3, 1, "0+a 0+b", ("1+c ~3 2!x 1+d", takes));
    // Two sends wait, each until its own sender is closed.
    assert_plays(&rt, 2, 1, "0+a 0!b", ("1+c 1!d", "~2 1. ~4 0. 0-a 1-c $"));
}
