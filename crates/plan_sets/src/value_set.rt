//! Sets of small numbers, such as the values that a field of a rule matches.

ghost use Rattle.std.specs.Prelude.{◌≡◌, ℕ, ◌+◌, ◌*◌, ◌-◌, ◌^◌, ◌<◌, ◌≤◌, ◌||◌, ◌↔◌, IsTrue};
ghost use Rattle.std.specs.FinSet as set;
ghost use Rattle.plan_sets.specs.Limits.{set_span};
ghost use Rattle.plan_sets.specs.Items.{is_within};
ghost use Rattle.plan_sets.specs.Values.{Values, no_values, with_value, has_value, IsLeastFrom};
ghost use Rattle.plan_sets.specs.Words.{has_bit, word_bits, word_count};

use std::marker::Model;

/// The number of words that a set is kept in.
const WORDS: usize = 9;

/// The number of bits in a word. Each bit is for one number.
const WORD_BITS: u16 = 128;

/// A set of numbers from a base `lo` to `lo + 1,151`.
#[derive(Debug, Drop)]
pub struct ValueSet {
    base: u16,
    /// A bit for each number from the base on, 1 for a member. The lowest bit of the first word is for the base.
    words: [u128; WORDS],
    /// The number of words that can have a member. All later words are 0, and no search reads them.
    used: u16,
}

impl Model for ValueSet {
    ghost use Rattle.std.specs.Prelude.{◌+◌, ◌^◌, ◌≤◌};
    ghost use Rattle.plan_sets.specs.Limits.{set_span};
    ghost use Rattle.plan_sets.specs.Values.{Values, values_code, values_at};
    ghost use Rattle.plan_sets.specs.Words.{is_marked, word_count, AreUnused, AreWords};

    ghost Value = { Values };

    ghost coded = { values_code };

    ghost view = { λ s. values_at s.base (is_marked s.words) };

    ghost invariant = { λ s. (s.base + set_span ≤ 2 ^ 16) × AreWords s.words × (s.used ≤ word_count) × AreUnused s.words s.used };
}

// Two sets are equal if they have the same base and the same members.
impl PartialEq for ValueSet {
    ghost use Rattle.std.specs.Prelude.{◌==◌};
    ghost use Rattle.std.specs.Ordering.{on};
    ghost use Rattle.std.specs.Cmp.Rules.{comparing};
    ghost use Rattle.std.specs.Cmp.Lexicographic.{pointwise};
    ghost use Rattle.std.proofs.Common.{rules};
    ghost use Rattle.plan_sets.specs.Values.{listing};

    ghost eq = { on listing (pointwise ◌==◌) };

    ghost laws = { Prim.search (comparing, rules) };

    fn eq(&self, other: &ValueSet) -> bool {
        self.base == other.base && self.words == other.words
    }
}

impl Eq for ValueSet {
    ghost use Rattle.std.specs.Cmp.Rules.{comparing};
    ghost use Rattle.std.proofs.Common.{rules};

    ghost laws = { Prim.search (comparing, rules) };
}

impl ValueSet {
    /// Returns the empty set with the base `lo`.
    pub fn empty(lo: u16) -> Self
        requires { lo + set_span ≤ 2 ^ 16 }
        ensures { result ≡ no_values lo }
    {
        ValueSet {
            base: lo,
            words: [0; WORDS],
            used: 0,
        }
    }

    /// Returns a copy of the set.
    pub fn copy(&self) -> ValueSet
        ensures { result ≡ self.now }
    {
        ValueSet {
            base: self.base,
            words: self.words,
            used: self.used,
        }
    }

    /// Adds a value, which must be within the span of the set.
    pub fn insert(&mut self, v: u16)
        requires from { self.old.base ≤ v }
        requires to { v < self.old.base + set_span }
        ensures { self.new ≡ with_value self.old v }
    {
        let offset = v - self.base;
        let index = offset / WORD_BITS;
        self.words[usize::from(index)] |= 1 << (offset % WORD_BITS);
        self.used = self.used.max(index + 1);
    }

    /// Adds every value from `first` to `last`, which must be within the span of the set.
    pub(crate) fn insert_range(&mut self, first: u16, last: u16)
        requires from { self.old.base ≤ first }
        requires forwards { first ≤ last }
        requires to { last < self.old.base + set_span }
        ensures base { self.new.base ≡ self.old.base }
        ensures added { (v : ℕ) → has_value self.new v ≡ (has_value self.old v || is_within first last v) }
    {
        let low = first - self.base;
        let high = last - self.base;
        let end = high / WORD_BITS + 1;
        for index in low / WORD_BITS..end {
            let start = index * WORD_BITS;
            let bits = bits_from_to(low.saturating_sub(start), (high - start).min(WORD_BITS - 1));
            self.words[usize::from(index)] |= bits;
        }
        self.used = self.used.max(end);
    }

    /// Returns whether a number is in the set. Any number is allowed.
    pub fn contains(&self, v: u16) -> bool
        ensures { result ≡ has_value self.now v }
    {
        let Some(offset) = v.checked_sub(self.base) else {
            return false;
        };
        let Some(word) = self.words.get(usize::from(offset / WORD_BITS)) else {
            return false;
        };
        (word >> (offset % WORD_BITS)) & 1 == 1
    }

    /// Returns the smallest value of the set that is at least `v`, or `None` if there is none. `v` may be any
    /// number.
    pub fn first_from(&self, v: u16) -> Option<u16>
        ensures { IsLeastFrom self.now v result }
    {
        let start = v.saturating_sub(self.base);
        let index = start / WORD_BITS;
        if index >= self.used {
            return None;
        }
        // The word's bits from the start on.
        let rest = self.words[usize::from(index)] >> (start % WORD_BITS);
        if rest == 0 {
            return self.first_of_later_words(index);
        }
        Some(self.base + start + rest.trailing_zeros() as u16)
    }

    // Returns the smallest value of the words after this one.
    #[inline(never)]
    fn first_of_later_words(&self, index: u16) -> Option<u16>
        requires { index < word_count }
        ensures { IsLeastFrom self.now (self.now.base + (index + 1) * word_bits) result }
    {
        for later in index + 1..self.used {
            let word = self.words[usize::from(later)];
            if word != 0 {
                return Some(self.base + later * WORD_BITS + word.trailing_zeros() as u16);
            }
        }
        None
    }

    /// Returns whether the set is empty.
    pub fn is_empty(&self) -> bool
        ensures { IsTrue result ↔ (self.now.members ≡ set.empty) }
    {
        self.words == [0; WORDS]
    }
}

// Returns the word with the bits from `low` to `high` set, and no others.
fn bits_from_to(low: u16, high: u16) -> u128
    requires forwards { low ≤ high }
    requires within { high < word_bits }
    ensures { (i : ℕ) → has_bit result i ≡ is_within low high i }
{
    (u128::MAX << low) & (u128::MAX >> (WORD_BITS - 1 - high))
}
