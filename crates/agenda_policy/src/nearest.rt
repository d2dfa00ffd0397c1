//! Finds the code that may be meant by a name that no code has.
ghost use Rattle.std.specs.Prelude.{◌≡◌, IfOk};
ghost use Rattle.agenda_policy.specs.Nearest.{distance, edits, nearer, nearest, nearest_of};

use agenda_codes::Code;
use std::alloc::{AllocError, Global};
use strsim::generic_levenshtein;

/// Returns the code whose name is nearest to a name: the first of those that the fewest edits lead to. Upper and lower
/// case are the same.
///
/// # Errors
///
/// `AllocError` if an allocation fails.
#[tactic(auto, unfolding(crate::specs::Nearest::nearest))]
pub(crate) fn nearest(alloc: Global, name: &str) -> Result<Code, AllocError>
    ensures { IfOk result (λ code. code ≡ nearest name.now) }
{
    nearest_of(alloc, name.as_bytes(), Code::Backwards, &Code::all())
}

// Returns the nearest of codes, the first of which is given by itself.
fn nearest_of(alloc: Global, name: &[u8], first: Code, more: &[Code]) -> Result<Code, AllocError>
    ensures { IfOk result (λ code. code ≡ nearest_of name.now first more.now) }
{
    let mut nearest = first;
    for code in more {
        nearest = nearer(alloc, name, nearest, *code)?;
    }
    Ok(nearest)
}

// Returns the nearer of two codes.
fn nearer(alloc: Global, name: &[u8], one: Code, other: Code) -> Result<Code, AllocError>
    ensures { IfOk result (λ code. code ≡ nearer name.now one other) }
{
    if distance(alloc, name, other)? < distance(alloc, name, one)? {
        Ok(other)
    } else {
        Ok(one)
    }
}

// Returns how many edits lead from a name to that of a code.
#[tactic(auto, unfolding(crate::specs::Nearest::distance))]
fn distance(alloc: Global, name: &[u8], code: Code) -> Result<usize, AllocError>
    ensures { IfOk result (λ count. count ≡ distance name.now code) }
{
    let one = name.to_ascii_lowercase(alloc)?;
    let other = code.name().as_bytes().to_ascii_lowercase(alloc)?;
    edits(alloc, one.as_slice(), other.as_slice())
}

// Returns how many edits of a byte lead from one text to another.
fn edits(alloc: Global, one: &[u8], other: &[u8]) -> Result<usize, AllocError>
    ensures { IfOk result (λ count. count ≡ edits one.now other.now) }
{
    generic_levenshtein(alloc, one, other)
}
