//! Streams, to which the program writes its texts.

ghost use Rattle.std.specs.Prelude.{◌≡◌, IsTrue, OnErr, OnOk};
ghost use Rattle.std.specs.Io.KnownBytes.{Appends};
ghost use Rattle.plan_streams.specs.Stream.{AppendsPrefix, Puts, fault_of_kind};

use std::io::{ErrorKind, Write};
use thiserror::Error;

/// Why a text was not written.
#[derive(Clone, Copy, Debug, PartialEq, Eq, Error)]
pub enum WriteFault {
    /// A write or the flush returned another error than that of `Closed`, or a write took no bytes.
    #[error("Device")]
    Device,
    /// The stream is a pipe, and its reader has closed it.
    #[error("Closed")]
    Closed,
}

/// A destination for whole texts, such as standard output.
pub trait Stream {
    ghost use Rattle.std.specs.Prelude.{ℕ, Bool, List, Option};

    /// The bytes that it holds, if they are known.
    ghost holds: { Self → Option (List ℕ) };

    /// Whether it never fails.
    ghost takes_all: { Bool };

    /// Whether no byte that it took waits for a flush.
    ghost is_flushed: { Self → Bool };

    /// Writes a whole text, and flushes it. Requests no memory itself.
    ///
    /// # Errors
    ///
    /// `Device` or `Closed` if the stream fails. Then only the first bytes of the text were written, perhaps none
    /// or all.
    fn put(&mut self, text: &[u8]) -> Result<(), WriteFault>
        ensures text { Puts takes_all result (holds self.old) (holds self.new) text.now }
        ensures flushed { OnOk result (IsTrue (is_flushed self.new)) };

    /// Writes a whole text that is followed by more. Works like `put`, but doesn't flush: the text may wait.
    fn put_part(&mut self, text: &[u8]) -> Result<(), WriteFault>
        ensures { Puts takes_all result (holds self.old) (holds self.new) text.now };
}

/// Each writer is a stream, which may fail. What a flush does is not known of it, so no contract sees that `put`
/// flushes it.
impl<W: Write> Stream for W {
    ghost use Rattle.std.specs.Prelude.{false, true};

    ghost holds = { W.contents };

    ghost takes_all = { false };

    ghost is_flushed = { λ out. true };

    fn put(&mut self, text: &[u8]) -> Result<(), WriteFault> {
        write_text(text, self)
    }

    fn put_part(&mut self, text: &[u8]) -> Result<(), WriteFault> {
        write_bytes(text, self)
    }
}

// Writes a text and flushes the writer.
fn write_text<W: Write>(text: &[u8], out: &mut W) -> Result<(), WriteFault>
    ensures written { OnOk result (Appends (W.contents out.old) (W.contents out.new) text.now) }
    ensures prefix { OnErr result (AppendsPrefix (W.contents out.old) (W.contents out.new) text.now) }
{
    write_bytes(text, out)?;
    match out.flush() {
        Ok(()) => Ok(()),
        Err(error) => Err(fault_of_kind(error.kind())),
    }
}

// Writes a text.
fn write_bytes<W: Write>(bytes: &[u8], out: &mut W) -> Result<(), WriteFault>
    ensures written { OnOk result (Appends (W.contents out.old) (W.contents out.new) bytes.now) }
    ensures prefix { OnErr result (AppendsPrefix (W.contents out.old) (W.contents out.new) bytes.now) }
{
    let mut rest = bytes;
    while !rest.is_empty() {
        match out.write(rest) {
            Ok(taken) if taken > 0 => rest = &rest[taken..],
            Ok(_) => return Err(WriteFault::Device),
            Err(error) => return Err(fault_of_kind(error.kind())),
        }
    }
    Ok(())
}

// Returns why a text was not written, by the kind of the writer's error.
fn fault_of_kind(kind: ErrorKind) -> WriteFault
    ensures { result ≡ fault_of_kind kind }
{
    match kind {
        ErrorKind::BrokenPipe => WriteFault::Closed,
        _ => WriteFault::Device,
    }
}
