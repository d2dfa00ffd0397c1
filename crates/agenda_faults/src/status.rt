//! The exit statuses of the program. Each is defined only here.

/// The exit status after success, and after help.
pub const DONE: u8 = 0;

/// The exit status if input, a size, a count or a limit is rejected, or if an error in a file is reported.
pub const REJECTED: u8 = 1;

/// The exit status if the arguments are invalid.
pub const USAGE: u8 = 2;

/// The exit status of `clear` if no planned job may start, but something may start at times that can't be told.
pub const UNKNOWN: u8 = 4;

/// The exit status if an allocation, a device or a file failed, or if the planners' accounts don't agree.
pub const FAILED: u8 = 3;
