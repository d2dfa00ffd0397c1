//! Files that give some bytes per call, and fail if a test requires it.
use agenda_inputs::{Files, read_front};
use std::alloc::Global;
use std::io::{self, ErrorKind, Read};
use std::test::Fail;

/// A file that gives some bytes per call, and then ends or fails.
#[derive(Drop)]
struct LimitedFile<'a> {
    /// What it gives.
    bytes: &'a [u8],
    /// How many bytes it gives per call.
    at_a_call: usize,
    /// Whether it fails instead of ending.
    fails: bool,
}

impl Read for LimitedFile<'_> {
    fn read(&mut self, buffer: &mut [u8]) -> io::Result<usize> {
        let count = self.bytes.len().min(self.at_a_call).min(buffer.len());
        if count == 0 && self.fails {
            return Err(io::Error::from(ErrorKind::Other));
        }
        buffer[..count].copy_from_slice(&self.bytes[..count]);
        self.bytes = &self.bytes[count..];
        Ok(count)
    }
}

/// Files by their paths.
#[derive(Drop)]
pub struct FewFiles<'a> {
    /// Their paths, and what each file gives: a text like `FILES`.
    files: &'a str,
    /// How many bytes they give per call.
    at_a_call: usize,
    /// Whether they fail instead of ending.
    fails: bool,
    /// How often a file was opened.
    pub opened: usize,
}

impl<'a> FewFiles<'a> {
    /// Returns files that give `at_a_call` bytes per call, and then end or fail.
    pub fn new(files: &'a str, at_a_call: usize, fails: bool) -> FewFiles<'a> {
        FewFiles {
            files,
            at_a_call,
            fails,
            opened: 0,
        }
    }
}

impl Files for FewFiles<'_> {
    ghost use Rattle.std.specs.Prelude.{None};
    ghost use Rattle.agenda_inputs.specs.Files.{unknown};

    ghost held = { λ _ _. unknown };

    ghost opened = { λ _. None };

    ghost errors = { λ _. None };

    fn front(&mut self, alloc: Global, path: &str, most: u64) -> io::Result<Vec<u8>> {
        self.opened = self.opened.saturating_add(1);
        for file in self.files.split("%\n") {
            let (name, text) = file.split_once('\n').unwrap_or((file, ""));
            if name == path {
                let file = LimitedFile {
                    bytes: text.as_bytes(),
                    at_a_call: self.at_a_call,
                    fails: self.fails,
                };
                return read_front(alloc, file, most);
            }
        }
        Err(io::Error::from(ErrorKind::NotFound))
    }
}

/// Files that all have the same bytes, which contracts know.
#[derive(Drop)]
struct KnownFiles<'a>(&'a [u8]);

impl Files for KnownFiles<'_> {
    ghost use Rattle.std.specs.Prelude.{None, Some, false};

    ghost held = { λ files _. record { bytes = Some files.0.now; is_readable = false } };

    ghost opened = { λ _. None };

    ghost errors = { λ _. None };

    fn front(&mut self, alloc: Global, _path: &str, most: u64) -> io::Result<Vec<u8>> {
        read_front(alloc, self.0, most)
    }
}

#[test]
fn bytes_that_contracts_know(rt: HostRuntime) -> Result<(), Fail> {
    let bytes = KnownFiles(b"take\n").front(rt.alloc(), "any", 9)?;
    assert_eq!(rt; bytes.as_slice(), b"take\n".as_slice());
    Ok(())
}
