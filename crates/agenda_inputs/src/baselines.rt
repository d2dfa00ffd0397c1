//! Reads an agenda that was made earlier.

ghost use Rattle.std.specs.Prelude.{◌≡◌};
ghost use Rattle.agenda_inputs.specs.Baselines.{baseline_of, given_path, listing_in};

use crate::files::{Files, failure_of_kind};
use agenda_faults::{Failure, RunFault};
use plan_baseline::{Baseline, BaselineFault};
use plan_rules::Text;
use std::alloc::Global;

// The maximum number of bytes that are read: one more than an agenda may have.
const MOST_BASELINE: u64 = 268_435_457;

/// Reads an agenda that was made earlier from the file with a path. The path `-` is that of standard input.
///
/// # Errors
///
/// `File` with the path if the file can't be opened or read, or `BadBaseline` with the path and the first line that isn't
/// one of an agenda. `Run(NoMemory)` if an allocation failed.
pub fn read_baseline<F: Files>(
    alloc: Global,
    files: &mut F,
    path: &str,
) -> Result<Baseline, Failure>
    ensures read { baseline_of (F.held files.old) path.now result }
    ensures same { F.held files.new ≡ F.held files.old }
{
    let given = Text::new(String::from_str(alloc, path)?);
    match files.front(alloc, given_path(path), MOST_BASELINE) {
        Ok(text) => listing_in(alloc, path, text),
        Err(fault) => Err(failure_of_kind(fault.kind(), Failure::File(given))),
    }
}

// Returns the path of a file that is given. That of standard input may be given as `-`.
fn given_path(path: &str) -> &str
    ensures { result.now ≡ given_path path.now }
{
    if path == "-" { "/dev/stdin" } else { path }
}

// Reads the agenda in the text of the file with a path.
fn listing_in(alloc: Global, path: &str, text: Vec<u8>) -> Result<Baseline, Failure>
    ensures { listing_in path.now text.items result }
{
    match Baseline::read(alloc, text) {
        Ok(baseline) => Ok(baseline),
        Err(BaselineFault::NoMemory) => Err(Failure::Run(RunFault::NoMemory)),
        Err(BaselineFault::BadLine(line)) => {
            let path = Text::new(String::from_str(alloc, path)?);
            Err(Failure::BadBaseline(path, line))
        }
    }
}
