//! A buffer of bytes that wait until they are written together.

ghost use Rattle.std.specs.Prelude.{◌≡◌, ◌≤◌, ◌-◌, ◌++◌, [], length, nat_le};

use std::marker::Model;

/// The maximum number of waiting bytes.
pub(crate) const MOST_WAITING: usize = 65_536;

/// The waiting bytes. Contracts see this value as their list.
#[derive(Drop)]
pub(crate) struct Buffer {
    bytes: [u8; MOST_WAITING],
    len: usize,
}

impl Model for Buffer {
    ghost use Rattle.std.specs.Prelude.{◌≤◌, ℕ, List, take};

    ghost Value = { List ℕ };

    ghost view = { λ buffer. take buffer.len buffer.bytes };

    ghost invariant = { λ buffer. buffer.len ≤ 65_536 };
}

impl Buffer {
    /// Returns an empty buffer.
    pub(crate) fn new() -> Buffer
        ensures { result ≡ [] }
    {
        Buffer {
            bytes: [0; MOST_WAITING],
            len: 0,
        }
    }

    /// Returns whether this many more bytes fit.
    #[inline(always)]
    pub(crate) fn has_room(&self, more: usize) -> bool
        ensures { result ≡ nat_le more (MOST_WAITING - length self.now) }
    {
        more <= MOST_WAITING - self.len
    }

    /// Appends a text to the waiting bytes. The text must fit.
    #[inline(always)]
    pub(crate) fn append(&mut self, text: &[u8])
        requires { length text.now ≤ MOST_WAITING - length self.old }
        ensures { self.new ≡ self.old ++ text.now }
    {
        let end = self.len + text.len();
        self.bytes[self.len..end].copy_from_slice(text);
        self.len = end;
    }

    /// Lends the waiting bytes.
    pub(crate) fn as_slice(&self) -> &[u8]
        ensures { result.now ≡ self.now }
    {
        &self.bytes[..self.len]
    }

    /// Drops the waiting bytes.
    pub(crate) fn clear(&mut self)
        ensures { self.new ≡ [] }
    {
        self.len = 0;
    }
}
