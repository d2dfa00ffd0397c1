//! A lane: what a mailbox keeps for one sender.

ghost use Rattle.std.specs.Prelude.{◌≡◌, ◌≢◌, ◌<◌, ◌≤◌, ℕ, Bool, List, [], ◌∷◌, ◌++◌, IfOk, false, length, true};

use std::alloc::{AllocError, Global};

/// What a mailbox keeps for one sender: its waiting messages, and whether it is closed.
pub trait Lane<M>: Drop {
    /// The waiting messages, oldest first.
    ghost waiting: { Self → List M };

    /// Whether the sender is closed.
    ghost closed: { Self → Bool };

    /// The capacity of the lane, in messages.
    ghost places: { Self → ℕ };

    /// Messages that were sent, including those that wait.
    ghost sent: { Self → List M };

    /// Makes an empty lane with this capacity. No other call allocates memory.
    fn new(alloc: Global, room: usize) -> Result<Self, AllocError>
        ensures places { IfOk result (λ lane. places lane ≡ room) }
        ensures empty { IfOk result (λ lane. waiting lane ≡ []) }
        ensures open { IfOk result (λ lane. closed lane ≡ false) }
        ensures unused { IfOk result (λ lane. length (sent lane) ≡ 0) };

    /// Returns how many messages wait.
    fn len(&self) -> usize
        ensures { result ≡ length (waiting self.now) };

    /// Returns whether the sender is closed.
    fn is_closed(&self) -> bool
        ensures { result ≡ closed self.now };

    /// Appends a message to those that wait. The lane must have a free place.
    fn push(&mut self, message: M)
        requires { length (waiting self.old) ≢ places self.old }
        ensures waits { waiting self.new ≡ waiting self.old ++ message ∷ [] }
        ensures closed_stays { closed self.new ≡ closed self.old }
        ensures places_stay { places self.new ≡ places self.old };

    /// Takes the oldest message. At least one message must wait.
    fn pop(&mut self) -> M
        requires { 0 < length (waiting self.old) }
        ensures oldest { waiting self.old ≡ result ∷ waiting self.new }
        ensures closed_stays { closed self.new ≡ closed self.old }
        ensures places_stay { places self.new ≡ places self.old };

    /// Closes the sender. Its waiting messages stay.
    fn close(&mut self)
        ensures closed { closed self.new ≡ true }
        ensures waiting_stays { waiting self.new ≡ waiting self.old }
        ensures places_stay { places self.new ≡ places self.old }
        ensures sent_stays { sent self.new ≡ sent self.old };

    /// No more messages wait than were sent.
    ghost waits_sent: { (lane : Self) → length (waiting lane) ≤ length (sent lane) };
}
