//! The limits for the sizes of a mailbox.

/// The maximum number of senders of a mailbox.
pub const MOST_SENDERS: usize = 8;

/// The maximum capacity of a sender, in messages.
pub const MOST_ROOM: usize = 1024;
