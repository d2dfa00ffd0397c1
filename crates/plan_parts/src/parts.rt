//! The parts of a source, and the text that is read of them.

ghost use Rattle.std.specs.Prelude.{◌≡◌, ◌<◌, IfOk, length, slice_get};
ghost use Rattle.std.specs.Option.{option_map};
ghost use Rattle.plan_parts.specs.Files.{texts_of, unit_text};
ghost use Rattle.plan_parts.specs.Origin.{IsAdded, line_at, line_in, origin_of};

use crate::merging::merged;
use crate::origin::{Origin, origin_of};
use crate::part::Part;
use crate::specifiers::{expanded, has_byte};
use plan_texts::Text;
use std::alloc::{AllocError, Global};
use std::marker::Model;
use std::slice;

/// The parts of a source, in the order in which they are merged.
#[derive(Debug, Drop)]
pub enum Parts {
    /// A file that is read unchanged, such as a crontab, or a timer without drop-ins that isn't an instance.
    One(Part),
    /// The file of a unit, and its drop-ins. A unit's name has its type, such as `.timer`.
    OfUnit(UnitParts),
}

/// The file of a unit and its drop-ins, with the text that they are merged into.
#[derive(Debug, Drop)]
pub struct UnitParts {
    unit: Text,
    files: Vec<Part>,
    text: Vec<u8>,
}

impl Model for UnitParts {
    ghost use Rattle.std.specs.Prelude.{◌≡◌};
    ghost use Rattle.plan_parts.specs.Files.{UnitFiles, unit_text};

    ghost Value = { UnitFiles };

    ghost view = { λ parts. record { unit = parts.unit; files = parts.files.items } };

    ghost invariant = { λ parts. parts.text.items ≡ unit_text (record { unit = parts.unit; files = parts.files.items }) };
}

impl UnitParts {
    /// Merges the file of a unit and its drop-ins, in this order, as `merged` does. If the unit is an instance, the
    /// specifiers in the text are replaced, as `expanded` does.
    ///
    /// # Errors
    ///
    /// `AllocError` if an allocation fails.
    pub fn new(alloc: Global, unit: Text, files: Vec<Part>) -> Result<UnitParts, AllocError>
        ensures { IfOk result (λ parts. parts ≡ record { unit = unit; files = files.items }) }
    {
        let text = unit_text(alloc, unit.as_str(), files.as_slice())?;
        Ok(UnitParts { unit, files, text })
    }

    // Borrows the text.
    fn text(&self) -> &[u8]
        ensures { result.now ≡ unit_text self.now }
    {
        self.text.as_slice()
    }

    // Borrows the files.
    fn files(&self) -> &[Part]
        ensures { result.now ≡ self.now.files }
    {
        self.files.as_slice()
    }
}

// Returns the text of a unit with these files.
#[tactic(auto, using(crate::proofs::SpecifierLemmas::expanded_unmarked))]
fn unit_text(alloc: Global, unit: &str, files: &[Part]) -> Result<Vec<u8>, AllocError>
    ensures { IfOk result (λ text. text.items ≡ unit_text (record { unit = unit.now; files = files.now })) }
{
    let merged = merged(alloc, files)?;
    if has_byte(merged.as_slice(), b'%') {
        return expanded(alloc, unit, merged.as_slice());
    }
    Ok(merged)
}

impl Parts {
    ghost use Rattle.plan_parts.specs.Parts.{files_of, read_line, text_of};

    /// Borrows the text that is read.
    ///
    /// One file is read unchanged. The files of a unit are merged, and the specifiers of an instance are replaced.
    pub fn text(&self) -> &[u8]
        ensures { result.now ≡ text_of self.now }
    {
        match self {
            Parts::One(part) => part.bytes(),
            Parts::OfUnit(parts) => parts.text(),
        }
    }

    /// Returns where the line of the text with a number comes from, as `origin_of` says.
    pub fn origin(&self, line: u32) -> Origin
        ensures value { result ≡ origin_of (texts_of (files_of self.now)) line }
        // The law: the line at the origin is that line, before its specifiers are replaced.
        ensures same { 0 < result.line
            → line_at (text_of self.now) line ≡ option_map (read_line self.now) (line_in (texts_of (files_of self.now)) result) }
        // Only the lines that are added before a part come from no line of a part.
        ensures added { 0 < line → result.line ≡ 0 → IsAdded (line_at (text_of self.now) line) }
        ensures inside { 0 < length (files_of self.now) → result.part < length (files_of self.now) }
    {
        match self {
            Parts::One(_) => Origin { part: 0, line },
            Parts::OfUnit(parts) => origin_of(parts.files(), line),
        }
    }

    /// Borrows the parts.
    pub fn files(&self) -> &[Part]
        ensures { result.now ≡ files_of self.now }
    {
        match self {
            Parts::One(part) => slice::from_ref(part),
            Parts::OfUnit(parts) => parts.files(),
        }
    }

    /// Borrows the path of the part at a place, from 0.
    pub fn path(&self, place: usize) -> Option<&str>
        ensures { option_map (λ path. path.now) result ≡ option_map (λ file. file.path) (slice_get (files_of self.now) place) }
    {
        match self {
            Parts::One(part) if place == 0 => Some(part.path()),
            Parts::One(_) => None,
            Parts::OfUnit(parts) => parts.files().get(place).map(|part| part.path()),
        }
    }
}
