//! The steps on a mailbox, and its replies.

/// A step on a mailbox.
#[derive(Debug, PartialEq, Eq, Drop)]
pub enum Step<M> {
    /// The sender with this number sends a message.
    Send(usize, M),
    /// The receiver takes a message.
    Take,
    /// The sender with this number is closed. It sends no more.
    Close(usize),
}

/// What a mailbox replies to a step.
#[derive(Debug, PartialEq, Eq, Drop)]
pub enum Reply<M> {
    /// The message was sent, and waits.
    Sent,
    /// The capacity of this sender is used up. The message comes back.
    Full(M),
    /// The sender is closed. The message comes back.
    Closed(M),
    /// The mailbox has no sender with this number. The message comes back.
    NoSender(M),
    /// The message that was taken, after the number of its sender.
    Took(usize, M),
    /// No message waits, and a sender isn't closed yet.
    Nothing,
    /// No message waits, and all senders are closed.
    Ended,
    /// The sender is closed from now on.
    Shut,
    /// The sender was closed before.
    AlreadyShut,
    /// The mailbox has no sender with this number.
    Unknown,
}
