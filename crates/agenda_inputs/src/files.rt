//! Files, of which the first bytes are read.

ghost use Rattle.std.specs.Prelude.{◌≡◌, ◌≢◌, ◌⊎◌, [], ◌∷◌, Err, IfErr, IfOk};
ghost use Rattle.agenda_inputs.specs.Files.{IsFrontOf, front_of};
ghost use Rattle.agenda_inputs.specs.Opened.{IsOfError, OpensFirst, failure_of_kind, followed_by};
ghost use Rattle.agenda_faults.specs.declared.faults.Failure.TheVariants.{File, Run};
ghost use Rattle.agenda_faults.specs.declared.faults.RunFault.TheVariants.{NoMemory};
ghost use Rattle.std.specs.declared.io.ErrorKind.TheVariants.{OutOfMemory};

use agenda_faults::{Failure, RunFault};
use agenda_sources::Bytes;
use plan_rules::Text;
use plan_rules::lines::MOST_BYTES;
use std::alloc::Global;
use std::io::{self, ErrorKind, Read};

/// Files by their paths.
pub trait Files {
    ghost use Rattle.std.specs.Prelude.{◌≡◌, List, [], ◌∷◌, ℕ, Option, IfErr, IfOk, OnOk};
    ghost use Rattle.std.specs.IoError.{error_kind};
    ghost use Rattle.std.specs.declared.io.ErrorKind.{ErrorKind};
    ghost use Rattle.agenda_inputs.specs.Files.{IsFrontOf, KnownFile, MayFail};
    ghost use Rattle.agenda_inputs.specs.Opened.{followed_by};

    /// What contracts know of the file with a path.
    ghost held: { Self → List ℕ → KnownFile };

    /// The paths of the files that were opened so far, in order, if contracts know them.
    ghost opened: { Self → Option (List (List ℕ)) };

    /// The kinds of the errors that files gave so far, in order, if contracts know them.
    ghost errors: { Self → Option (List ErrorKind) };

    /// Returns the first `most` bytes of the file with a path, or all of them if there are fewer.
    fn front(&mut self, alloc: Global, path: &str, most: u64) -> io::Result<Vec<u8>>
        ensures bytes { IfOk result (λ bytes. IsFrontOf (held self.old path.now).bytes most bytes.items) }
        ensures fails { IfErr result (λ fault. MayFail (held self.old path.now) (error_kind fault)) }
        ensures same { held self.new ≡ held self.old }
        ensures opens { opened self.new ≡ followed_by (opened self.old) (path.now ∷ []) }
        ensures no_error { OnOk result (errors self.new ≡ errors self.old) }
        ensures error { IfErr result (λ fault. errors self.new ≡ followed_by (errors self.old) (error_kind fault ∷ [])) };
}

/// Returns the first `most` bytes of a reader, or all of them if there are fewer. For implementations of `Files`.
pub fn read_front<R: Read + Drop>(alloc: Global, reader: R, most: u64) -> io::Result<Vec<u8>>
    ensures { IfOk result (λ bytes. IsFrontOf (R.remaining reader) most bytes.items) }
{
    let mut bytes = Vec::new(alloc);
    reader.take(most).read_to_end(&mut bytes)?;
    Ok(bytes)
}

// The maximum number of bytes that are read of a file: one more than the limit of every input.
pub const MOST_READ: u64 = MOST_BYTES as u64 + 1;

// Reads the first bytes of a file. If it can't be opened or read, returns `unread`.
pub(crate) fn read_file<F: Files>(
    alloc: Global,
    files: &mut F,
    path: &str,
    unread: Failure,
) -> Result<Bytes, Failure>
    ensures read { front_of (F.held files.old path.now) unread result }
    ensures same { F.held files.new ≡ F.held files.old }
    ensures opens { F.opened files.new ≡ followed_by (F.opened files.old) (path.now ∷ []) }
    ensures error { IfErr result (IsOfError unread (F.errors files.old) (F.errors files.new)) }
{
    match files.front(alloc, path, MOST_READ) {
        Ok(bytes) => Ok(Bytes::new(bytes)),
        Err(fault) => Err(failure_of_kind(fault.kind(), unread)),
    }
}

// Returns the failure of a file that gives an error of this kind: out of memory, or else `unread`.
pub(crate) fn failure_of_kind(kind: ErrorKind, unread: Failure) -> Failure
    ensures { result ≡ failure_of_kind kind unread }
{
    match kind {
        ErrorKind::OutOfMemory => Failure::Run(RunFault::NoMemory),
        _ => unread,
    }
}

// Reads the first bytes of a file. If it can't be opened or read, returns `File` with its path.
pub fn read_path<F: Files>(alloc: Global, files: &mut F, path: &str) -> Result<Bytes, Failure>
    ensures read { front_of (F.held files.old path.now) (File path.now) result }
    ensures same { F.held files.new ≡ F.held files.old }
    ensures opens { result ≢ Err (Run NoMemory) → F.opened files.new ≡ followed_by (F.opened files.old) (path.now ∷ []) }
    ensures first { OpensFirst (path.now ∷ []) (F.opened files.old) (F.opened files.new) }

    // Memory ran out before the file was opened, or while it was opened or read.
    ensures memory { result ≡ Err (Run NoMemory) → (F.opened files.new ≡ F.opened files.old)
        ⊎ (F.errors files.new ≡ followed_by (F.errors files.old) (OutOfMemory ∷ [])) }
{
    let unread = Failure::File(Text::new(String::from_str(alloc, path)?));
    read_file(alloc, files, path, unread)
}
