//! Where a line of a merged text comes from.

ghost use Rattle.std.specs.Prelude.{◌≡◌, ◌<◌, ◌⊎◌, length, map};
ghost use Rattle.plan_parts.specs.Files.{texts_of};
ghost use Rattle.plan_parts.specs.Merging.{merged};
ghost use Rattle.plan_parts.specs.Origin.{IsAdded, line_at, line_in, origin_of};

use crate::part::Part;

/// Where a line of a merged text comes from: a part, and a line of it.
#[derive(Debug, Clone, Copy, PartialEq, Eq)]
pub struct Origin {
    /// The place of the part, from 0.
    pub part: usize,
    /// The number of the line in that part, from 1. 0 is the whole part.
    pub line: u32,
}

/// Returns where the line with a number comes from, in the text that parts are merged into.
///
/// Lines are counted from 1, and 0 is the whole text: its origin is the whole of the first part. The two lines that
/// are added before a part come from the whole of that part. Lines after the end come from the last part.
pub fn origin_of(parts: &[Part], line: u32) -> Origin
    ensures value { result ≡ origin_of (texts_of parts.now) line }
    // The law: the line at the origin is that line.
    ensures same { 0 < result.line → line_at (merged (texts_of parts.now)) line ≡ line_in (texts_of parts.now) result }
    // Only the lines that are added before a part come from no line of a part.
    ensures added { 0 < line → result.line ≡ 0 → IsAdded (line_at (merged (texts_of parts.now)) line) }
    ensures inside { 0 < length parts.now → result.part < length parts.now }
{
    found_origin(parts, line)
}

// Returns the origin of a line, found part by part.
fn found_origin(parts: &[Part], line: u32) -> Origin
    ensures { result ≡ origin_of (texts_of parts.now) line }
{
    let mut left = line;
    for (place, part) in parts.iter().enumerate() {
        let lines = part.lines();
        if place + 1 == parts.len() || left as usize <= lines {
            return Origin {
                part: place,
                line: left,
            };
        }
        left = (left as usize - lines).saturating_sub(2) as u32;
    }
    Origin { part: 0, line }
}
