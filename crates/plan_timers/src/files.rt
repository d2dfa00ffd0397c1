//! Which of some files can be read, and their bytes.

ghost use Rattle.std.specs.Prelude.{◌≡◌, true, IfOk};
ghost use Rattle.std.specs.Option.{option_map};
ghost use Rattle.plan_timers.specs.Files.{file_by, files_among, found_file, skipped_among};

use crate::reports::{Skipped, Why, copy_of};
use plan_parts::Part;
use plan_texts::Text;
use plan_tree::{Tree, contents};
use plan_units::{Entry, is_mask};
use std::alloc::{AllocError, Global};

/// Files that can be read, and what is skipped.
#[derive(Debug, Drop)]
pub struct FoundFiles {
    /// The files that can be read.
    pub files: Vec<Part>,
    /// What is skipped.
    pub skipped: Vec<Skipped>,
}

// Returns the file that is found at a path and read by another one, with its first `most` bytes, or why it is skipped: it
// is a mask, or no regular file that can be read. The outer error is a failed allocation.
pub(crate) fn found_file<T: Tree>(
    alloc: Global,
    tree: &T,
    most: u64,
    path: &str,
    real: &str,
) -> Result<Result<Part, Skipped>, AllocError>
    ensures { T.is_known ≡ true → IfOk result (λ file.
        file ≡ found_file (T.held tree.now) most path.now real.now) }
{
    let path = copy_of(alloc, path)?;
    if is_mask(alloc, tree, real)? {
        let why = Why::Masked;
        return Ok(Err(Skipped { path, why }));
    }
    let bytes = contents(alloc, tree, real, most)?;
    Ok(file_by(path, bytes))
}

// Returns the file with a path by what was read of it, or that it is skipped.
fn file_by(path: Text, bytes: Option<Vec<u8>>) -> Result<Part, Skipped>
    ensures { result ≡ file_by path (option_map (λ read. read.items) bytes) }
{
    match bytes {
        Some(bytes) => Ok(Part::new(path, bytes)),
        None => Err(Skipped {
            path,
            why: Why::NotReadable,
        }),
    }
}

/// Returns which of some entries are files that can be read, in their order, with their first `most` bytes, and what is
/// skipped of them.
///
/// # Errors
///
/// `AllocError` if an allocation fails.
pub fn found_files<T: Tree>(
    alloc: Global,
    tree: &T,
    most: u64,
    entries: &[Entry],
) -> Result<FoundFiles, AllocError>
    ensures files { T.is_known ≡ true → IfOk result (λ found.
        found.files.items ≡ files_among (T.held tree.now) most entries.now) }
    ensures skipped { T.is_known ≡ true → IfOk result (λ found.
        found.skipped.items ≡ skipped_among (T.held tree.now) most entries.now) }
{
    let mut files = Vec::new(alloc);
    let mut skipped = Vec::new(alloc);
    for entry in entries {
        match found_file(alloc, tree, most, entry.path.as_str(), entry.real.as_str())? {
            Ok(file) => files.push(file)?,
            Err(other) => skipped.push(other)?,
        }
    }
    Ok(FoundFiles { files, skipped })
}
