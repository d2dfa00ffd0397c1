//! Writers that accept a limited number of calls.
use std::io::{self, ErrorKind, Write};

/// A writer that accepts a number of calls, which are writes and flushes, and then fails.
#[derive(Drop)]
pub struct Limited {
    // The first bytes that were written.
    kept: [u8; 512],
    /// How many bytes were written.
    pub len: usize,
    /// How many calls are accepted.
    accepted: usize,
    /// How many bytes are accepted per write.
    at_a_call: usize,
    /// The error after the accepted calls. Without one, a write takes no bytes then.
    end: Option<ErrorKind>,
    /// The number of calls.
    pub calls: usize,
    /// The number of flushes.
    pub flushes: usize,
}

impl Limited {
    /// Returns a writer that accepts this many calls, and at most `at_a_call` bytes per write.
    pub fn new(accepted: usize, at_a_call: usize, end: Option<ErrorKind>) -> Limited {
        Limited {
            kept: [0; 512],
            len: 0,
            accepted,
            at_a_call,
            end,
            calls: 0,
            flushes: 0,
        }
    }

    /// Returns a writer that accepts every text whole.
    pub fn ample() -> Limited {
        Limited::new(usize::MAX, usize::MAX, None)
    }

    /// Returns whether exactly this text was written, of at most 512 bytes.
    pub fn has(&self, text: &str) -> bool {
        self.kept.get(..self.len) == Some(text.as_bytes())
    }

    /// Returns whether exactly these two texts were written, one after the other.
    pub fn has_both(&self, first: &str, second: &str) -> bool {
        match self.kept.get(..self.len) {
            Some(kept) => kept.strip_prefix(first.as_bytes()) == Some(second.as_bytes()),
            None => false,
        }
    }

    /// Returns whether the first `len` bytes of a text were written, and no more.
    pub fn has_front(&self, text: &str, len: usize) -> bool {
        self.len == len && self.kept.get(..len) == text.as_bytes().get(..len)
    }
}

impl Write for Limited {
    fn write(&mut self, bytes: &[u8]) -> io::Result<usize> {
        self.calls = self.calls.saturating_add(1);
        if self.calls > self.accepted {
            return match self.end {
                Some(kind) => Err(io::Error::from(kind)),
                None => Ok(0),
            };
        }
        let count = bytes.len().min(self.at_a_call);
        for byte in &bytes[..count] {
            if self.len < 512 {
                self.kept[self.len] = *byte;
            }
            self.len = self.len.saturating_add(1);
        }
        Ok(count)
    }

    fn flush(&mut self) -> io::Result<()> {
        self.calls = self.calls.saturating_add(1);
        self.flushes = self.flushes.saturating_add(1);
        if self.calls > self.accepted {
            return Err(io::Error::from(self.end.unwrap_or(ErrorKind::Other)));
        }
        Ok(())
    }
}
