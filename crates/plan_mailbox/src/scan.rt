//! Searches through the lanes of a mailbox.

ghost use Rattle.std.specs.Prelude.{◌≡◌, ◌<◌, ◌≤◌, All, IfOk, IfSome, [], false, find, length, nat_lt, vec_len};
ghost use Rattle.std.specs.List.{list_all, list_any};
ghost use Rattle.plan_mailbox.specs.Places.{waiting_in};
ghost use Rattle.plan_mailbox.specs.Turn.{in_turn};

use crate::lane::Lane;
use std::alloc::{AllocError, Global};

/// Returns the first sender, from the turn on and then from sender 0, that has a message waiting.
pub(crate) fn first_waiting<M, L: Lane<M>>(lanes: &[L], turn: usize) -> Option<usize>
    requires { turn < length lanes.now }
    ensures first { result ≡ find (λ s. nat_lt 0 (length (waiting_in L.waiting lanes.now s)))
        (in_turn (length lanes.now) turn) }
    ensures known { IfSome result (λ s. s < length lanes.now) }
    ensures waits { IfSome result (λ s. 0 < length (waiting_in L.waiting lanes.now s)) }
{
    (turn..lanes.len())
        .chain(0..turn)
        .find(|sender| has_waiting(lanes, *sender))
}

/// Returns whether all senders are closed.
pub(crate) fn all_closed<M, L: Lane<M>>(lanes: &[L]) -> bool
    ensures { result ≡ list_all L.closed lanes.now }
{
    lanes.iter().all(|lane| lane.is_closed())
}

/// Returns whether any sender is closed.
pub(crate) fn any_closed<M, L: Lane<M>>(lanes: &[L]) -> bool
    ensures { result ≡ list_any L.closed lanes.now }
{
    lanes.iter().any(|lane| lane.is_closed())
}

/// Returns whether a message of the sender waits.
fn has_waiting<M, L: Lane<M>>(lanes: &[L], sender: usize) -> bool
    ensures { result ≡ nat_lt 0 (length (waiting_in L.waiting lanes.now sender)) }
{
    lanes.get(sender).is_some_and(|lane| lane.len() > 0)
}

/// Makes empty lanes, as many as there are senders, each with the capacity `room`.
pub(crate) fn new_lanes<M, L: Lane<M>>(
    alloc: Global,
    senders: usize,
    room: usize,
) -> Result<Vec<L>, AllocError>
    ensures many { IfOk result (λ lanes. vec_len lanes ≡ senders) }
    ensures reserved { IfOk result (λ lanes. All (λ lane. L.places lane ≡ room) lanes.items) }
    ensures empty { IfOk result (λ lanes. All (λ lane. L.waiting lane ≡ []) lanes.items) }
    ensures not_closed { IfOk result (λ lanes. All (λ lane. L.closed lane ≡ false) lanes.items) }
    ensures unused { IfOk result (λ lanes. All (λ lane. length (L.sent lane) ≡ 0) lanes.items) }
{
    let mut lanes = Vec::with_capacity(alloc, senders)?;
    for _ in 0..senders {
        let lane = L::new(alloc, room)?;
        lanes.push_reserved(lane);
    }
    Ok(lanes)
}
