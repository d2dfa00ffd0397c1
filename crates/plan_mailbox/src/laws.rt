//! Laws of mailboxes, as functions that do nothing: the contract of each function is the law.

ghost use Rattle.std.specs.Prelude.{◌≡◌, ℕ, List, [], Some, drop, length, slice_get, true};
ghost use Rattle.plan_mailbox.specs.Ends.{Accounts, IsTake, ReceivingEnd, inlet_of, is_settled_at, known_at, taken_at};
ghost use Rattle.plan_mailbox.specs.History.{Event, IsInOrder, IsLawful, IsPrefix, SendsBeforeClose, sent_of, taken_of};
ghost use Rattle.plan_mailbox.specs.declared.inlet.Inlet.{Inlet};

/// States the law of lawful histories: what is taken from each sender is a prefix of what it sent, each
/// message once and in order, and a sender sends nothing after its close.
///
/// The steps of `run_steps` record a lawful history, whatever they are.
pub fn takes_what_was_sent<M>()
    ensures prefix { (senders room : ℕ) (h : List (Event M)) → IsLawful senders room h →
        (s : ℕ) → IsPrefix (taken_of h s) (sent_of h s) }
    ensures in_order { (senders room : ℕ) (h : List (Event M)) → IsLawful senders room h → IsInOrder h }
    ensures closed { (senders room : ℕ) (h : List (Event M)) → IsLawful senders room h → SendsBeforeClose h }
{}

/// States the law of settled receipts: what was taken from a sender, followed by what is known to wait, is
/// what its outlet sent. So each message is taken once and in order. If none is known to wait any more, all
/// were taken.
///
/// `Inlet::settle` establishes this for the sender that it settles, and every take keeps it.
pub fn takes_what_outlets_sent<M>()
    ensures prefix { (b : ReceivingEnd M) (s : ℕ) (sent : List M) → Accounts b s sent → IsPrefix (taken_at b s) sent }
    ensures in_order { (b : ReceivingEnd M) (s : ℕ) (sent : List M) → Accounts b s sent →
        (k : ℕ) (m : M) → slice_get (taken_at b s) k ≡ Some m → slice_get sent k ≡ Some m }
    ensures left { (b : ReceivingEnd M) (s : ℕ) (sent : List M) → Accounts b s sent →
        known_at b s ≡ drop (length (taken_at b s)) sent }
    ensures all { (b : ReceivingEnd M) (s : ℕ) (sent : List M) → Accounts b s sent →
        known_at b s ≡ [] → taken_at b s ≡ sent }

    // A take from this sender or another keeps what is accounted for.
    ensures stays { (before after : Inlet M) (t : ℕ) (m : M) → IsTake (inlet_of before) t m (inlet_of after) →
        (s : ℕ) (sent : List M) → is_settled_at (inlet_of before) s ≡ true →
        Accounts (inlet_of before) s sent → Accounts (inlet_of after) s sent }
{}
