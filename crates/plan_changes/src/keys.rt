//! The keys of starts: their seconds, and the numbers of what they run.

ghost use Rattle.std.specs.Prelude.{◌≡◌, [], IfOk, IsTrue, OnOk, Some, length, slice_get};
ghost use Rattle.plan_changes.specs.Keys.{AreEachOnce, HaveStayed};

use indexmap::IndexSet;
use std::alloc::{AllocError, Global};
use std::marker::Model;

/// A start as numbers. Two starts are the same if their keys are.
#[derive(Clone, Copy)]
pub(crate) struct Key {
    /// The second of the start.
    pub(crate) second: u64,
    /// The number of what it runs, from 0.
    pub(crate) runs: usize,
}

/// The keys of the starts of an agenda, in order. They are made when they are read, from what takes less memory.
pub(crate) trait Keys {
    ghost use Rattle.std.specs.Prelude.{◌≡◌, ◌<◌, List, Some, length, slice_get};
    ghost use Rattle.plan_changes.specs.declared.keys.Key.{Key};

    /// All keys, in order.
    ghost keys: { Self → List Key };

    /// Returns the number of keys.
    fn len(&self) -> usize
        ensures { result ≡ length (keys self.now) };

    /// Returns the key at a place, from 0. There must be one.
    fn at(&self, place: usize) -> Key
        requires { place < length (keys self.now) }
        ensures { slice_get (keys self.now) place ≡ Some result };
}

/// The texts that starts run, each once: the number of a text is its place.
#[derive(Drop)]
pub(crate) struct RunTexts<'a> {
    texts: IndexSet<&'a [u8]>,
    // The number of the text that was looked up last.
    last: usize,
}

impl<'a> Model for RunTexts<'a> {
    ghost use Rattle.std.specs.Prelude.{ℕ, List, map};

    ghost Value = { List (List ℕ) };

    ghost view = { λ run. map (λ text. text.now) run.texts.keys };
}

impl<'a> RunTexts<'a> {
    /// Returns no texts.
    pub(crate) fn new(alloc: Global) -> RunTexts<'a>
        ensures { result ≡ [] }
    {
        RunTexts {
            texts: IndexSet::new(alloc),
            last: 0,
        }
    }

    /// Returns the number of texts.
    pub(crate) fn len(&self) -> usize
        ensures len { result ≡ length self.now }
        ensures once { AreEachOnce self.now }
    {
        self.texts.len()
    }

    /// Returns the number of a text, which is added if it is new.
    ///
    /// # Errors
    ///
    /// `AllocError` if an allocation fails.
    pub(crate) fn number_of(&mut self, text: &'a [u8]) -> Result<usize, AllocError>
        ensures number { IfOk result (λ number. slice_get self.new number ≡ Some text.now) }
        ensures kept { OnOk result (HaveStayed self.old self.new) }
    {
        let number = self.find(text)?;
        self.last = number;
        Ok(number)
    }

    // Returns the number of a text, which is added if it is new. Most often it is that of the last text, or the next one.
    fn find(&mut self, text: &'a [u8]) -> Result<usize, AllocError>
        ensures number { IfOk result (λ number. slice_get self.new number ≡ Some text.now) }
        ensures kept { OnOk result (HaveStayed self.old self.new) }
    {
        let last = self.last;
        if self.has_at(last, text) {
            return Ok(last);
        }
        if last < self.texts.len() && self.has_at(last + 1, text) {
            return Ok(last + 1);
        }
        let (number, _) = self.texts.insert_full(text)?;
        Ok(number)
    }

    // Returns whether this is the text with a number.
    fn has_at(&self, number: usize, text: &[u8]) -> bool
        ensures { IsTrue result → slice_get self.now number ≡ Some text.now }
    {
        match self.texts.get_index(number) {
            Some(found) => *found == text,
            None => false,
        }
    }
}
