//! An agenda that was written earlier.

ghost use Rattle.std.specs.Prelude.{◌≡◌, ◌+◌, ◌≤◌, All, Err, IfErr, IfOk, IfSome, Ok, drop, length, map, option_map, slice_get};
ghost use Rattle.plan_collect.specs.Limits.{most_entries};
ghost use Rattle.plan_sets.specs.Limits.{end_second};
ghost use Rattle.plan_baseline.specs.Line.{AreOrdered, IsPlace, line_at, line_of};
ghost use Rattle.plan_baseline.specs.Reading.{AreReadAfter, head_of, IsFaultOf, IsReading};
ghost use Rattle.plan_baseline.specs.Tails.{IsTail};

use crate::fault::BaselineFault;
use crate::known::KnownTime;
use crate::lines::{Header, Place, read_header, read_second};
use crate::listed::Listed;
use crate::tails::{GUESSES, Tail, tail_of};
use plan_next::Span;
use std::alloc::Global;
use std::marker::Model;

/// An agenda that was written earlier: its span, and its starts in order.
#[derive(Debug, Drop)]
pub struct Baseline {
    span: Span,
    text: Vec<u8>,
    tails: Vec<Tail>,
    places: Vec<Place>,
}

impl Model for Baseline {
    ghost use Rattle.std.specs.Prelude.{All, map};
    ghost use Rattle.plan_baseline.specs.Line.{AreOrdered, IsPlace, Listing, line_at, listing_code};
    ghost use Rattle.plan_baseline.specs.Tails.{IsTail};

    ghost Value = { Listing };

    ghost coded = { listing_code };

    ghost view = { λ baseline. record {
      span = baseline.span;
      lines = map (line_at baseline.text.items baseline.tails.items) baseline.places.items;
    } };

    ghost invariant = { λ baseline. All (IsTail baseline.text.items) baseline.tails.items
        × All (IsPlace baseline.tails.items) baseline.places.items
        × AreOrdered (map (line_at baseline.text.items baseline.tails.items) baseline.places.items) };
}

impl Baseline {
    /// Reads the text of an agenda, as `agenda plan` writes it.
    ///
    /// # Errors
    ///
    /// `BadLine` with the number of the first wrong line, or of the first missing one; `NoMemory` if an allocation fails.
    pub fn read(alloc: Global, text: Vec<u8>) -> Result<Baseline, BaselineFault>
        ensures read { IfOk result (λ baseline. IsReading text.items (Ok baseline)) }
        ensures fault { IfErr result (IsFaultOf (λ number. IsReading text.items (Err number))) }
    {
        let (span, tails, places) = parts_of(alloc, &text)?;
        Ok(Baseline {
            span,
            text,
            tails,
            places,
        })
    }

    /// Returns the span of the agenda.
    pub fn span(&self) -> Span
        ensures { result ≡ self.now.span }
    {
        self.span
    }

    /// Returns the number of its starts.
    pub fn len(&self) -> usize
        ensures len { result ≡ length self.now.lines }
        ensures ordered { AreOrdered self.now.lines }
    {
        self.places.len()
    }

    /// Returns the start at a place, from 0.
    pub fn get(&self, place: usize) -> Option<Listed<'_>>
        ensures line { option_map line_of result ≡ slice_get self.now.lines place }
        ensures years { IfSome result (λ listed. listed.second ≤ end_second) }
    {
        let place = self.places.get(place)?;
        let tail = self.tails[place.tail];
        Some(Listed {
            second: place.second,
            job: &self.text[tail.job..tail.runs - 1],
            runs: &self.text[tail.runs..tail.end],
        })
    }
}

// Returns the span of the agenda of a text, the tails of its lines, and the places of its lines.
fn parts_of(alloc: Global, text: &[u8]) -> Result<(Span, Vec<Tail>, Vec<Place>), BaselineFault>
    ensures tails { IfOk result (λ parts. All (IsTail text.now) parts.1.items) }
    ensures places { IfOk result (λ parts. All (IsPlace parts.1.items) parts.2.items) }
    ensures read { IfOk result (λ parts. IsReading text.now (Ok (record { span = parts.0; lines = map (line_at text.now parts.1.items) parts.2.items }))) }
    ensures fault { IfErr result (IsFaultOf (λ number. IsReading text.now (Err number))) }
{
    let Some(header) = read_header(text) else {
        return Err(BaselineFault::BadLine(1));
    };
    let (tails, places) = places_of(alloc, text, header)?;
    Ok((header.span(), tails, places))
}

// Returns the tails and the places of the lines after the header of a text.
fn places_of(
    alloc: Global,
    text: &[u8],
    header: Header,
) -> Result<(Vec<Tail>, Vec<Place>), BaselineFault>
    requires start { header.start ≤ length text.now }
    requires few { header.count ≤ most_entries }
    ensures tails { IfOk result (λ parts. All (IsTail text.now) parts.0.items) }
    ensures places { IfOk result (λ parts. All (IsPlace parts.0.items) parts.1.items) }
    ensures read { IfOk result (λ parts. AreReadAfter (head_of header) (drop header.start text.now) (Ok (map (line_at text.now parts.0.items) parts.1.items))) }
    ensures fault { IfErr result (IsFaultOf (λ number. AreReadAfter (head_of header) (drop header.start text.now) (Err number))) }
{
    let mut known = KnownTime::first();
    let mut tails = Vec::new(alloc);
    let mut guesses = [0; GUESSES];
    let mut places = Vec::with_capacity(alloc, header.count as usize)?;
    let (mut left, mut from, mut last) = (&text[header.start..], header.span.since(), 0);
    for number in 0..header.count {
        let Some((second, rest)) = read_second(left, from, header.span.upto(), &mut known) else {
            return Err(BaselineFault::BadLine(number + 2));
        };
        let Some((tail, after)) = tail_of(text, &mut tails, &mut guesses, last, rest)? else {
            return Err(BaselineFault::BadLine(number + 2));
        };
        places.push(Place { second, tail })?;
        (left, from, last) = (after, second, tail);
    }
    if !left.is_empty() {
        return Err(BaselineFault::BadLine(header.count + 2));
    }
    Ok((tails, places))
}
