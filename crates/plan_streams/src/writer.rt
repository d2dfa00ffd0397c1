//! A writer of texts, which collects them and writes many together.

ghost use Rattle.std.specs.Prelude.{◌≡◌, ℕ, IsTrue, List, OnOk, [], Option};
ghost use Rattle.plan_streams.specs.Stream.{Puts, PutsAllBut};

use crate::buffer::Buffer;
use crate::stream::{Stream, WriteFault};

/// A stream, and the texts that wait until they are written to it together.
///
/// If the stream fails, the writer drops what waits and all later texts, and `finish` returns the error. The
/// writer requests no memory.
#[derive(Drop)]
pub struct TextWriter<'a, S> {
    out: &'a mut S,
    waiting: Buffer,
    state: Result<(), WriteFault>,
}

impl<'a, S: Stream> TextWriter<'a, S> {
    ghost use Rattle.std.specs.Prelude.{◌≡◌, ◌++◌, []};
    ghost use Rattle.plan_streams.specs.Writer.{Finishes, IsNew, Takes};

    /// Returns a writer to a stream.
    pub fn new(out: &'a mut S) -> TextWriter<'a, S>
        ensures { IsNew S.holds S.takes_all out.entry result }
    {
        TextWriter {
            out,
            waiting: Buffer::new(),
            state: Ok(()),
        }
    }

    /// Takes two texts, one after the other. If both fit, that is checked only once.
    #[inline(always)]
    pub fn put_both(&mut self, first: &[u8], second: &[u8])
        ensures { Takes S.holds S.takes_all self.old self.new (first.now ++ second.now) }
    {
        if self
            .waiting
            .has_room(first.len().saturating_add(second.len()))
        {
            self.waiting.append(first);
            self.waiting.append(second);
        } else {
            self.put(first);
            self.put(second);
        }
    }

    /// Takes a text. If it doesn't fit, what waits is written first.
    #[inline(never)]
    pub fn put(&mut self, text: &[u8])
        ensures { Takes S.holds S.takes_all self.old self.new text.now }
    {
        if !self.waiting.has_room(text.len()) {
            self.write_waiting();
        }
        if self.waiting.has_room(text.len()) {
            self.waiting.append(text);
        } else {
            self.state = put_part(self.state, text, self.out);
        }
    }

    // Writes what waits.
    fn write_waiting(&mut self)
        ensures same_texts { Takes S.holds S.takes_all self.old self.new [] }
        ensures none { self.new.waiting ≡ [] }
    {
        self.state = put_part(self.state, self.waiting.as_slice(), self.out);
        self.waiting.clear();
    }

    /// Writes what waits, and flushes the stream.
    ///
    /// # Errors
    ///
    /// `Device` or `Closed` if the stream failed. Then only the first bytes of the texts were written.
    pub fn finish(&mut self) -> Result<(), WriteFault>
        ensures texts { Finishes S.holds S.takes_all result self.old self.new }
        ensures flushed { OnOk result (IsTrue (S.is_flushed self.new.out.now)) }
    {
        put_rest(self.state, self.waiting.as_slice(), self.out)
    }
}

// Writes what waits to a stream, unless it failed before.
fn put_part<S: Stream>(
    state: Result<(), WriteFault>,
    waiting: &[u8],
    out: &mut S,
) -> Result<(), WriteFault>
    ensures { (start : Option (List ℕ)) → (text : List ℕ) →
        PutsAllBut S.takes_all state start (S.holds out.old) text waiting.now →
        PutsAllBut S.takes_all result start (S.holds out.new) text [] }
{
    state?;
    out.put_part(waiting)
}

// Writes what waits to a stream and flushes it, unless it failed before.
fn put_rest<S: Stream>(
    state: Result<(), WriteFault>,
    waiting: &[u8],
    out: &mut S,
) -> Result<(), WriteFault>
    ensures texts { (start : Option (List ℕ)) → (text : List ℕ) →
        PutsAllBut S.takes_all state start (S.holds out.old) text waiting.now →
        Puts S.takes_all result start (S.holds out.new) text }
    ensures flushed { OnOk result (IsTrue (S.is_flushed out.new)) }
{
    state?;
    out.put(waiting)
}
