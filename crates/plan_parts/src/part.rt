//! A part of a source: a file.

ghost use Rattle.std.specs.Prelude.{◌≡◌, length};
ghost use Rattle.plan_texts.specs.Lines.{lines};

use crate::counting::line_count;
use plan_texts::Text;
use std::marker::Model;

/// A file that a source is merged from: its path and its bytes.
///
/// Of a file that is too large, the first 1,048,577 bytes suffice: the source is then too large as well.
#[derive(Debug, Drop)]
pub struct Part {
    path: Text,
    bytes: Vec<u8>,
    line_count: usize,
}

impl Model for Part {
    ghost use Rattle.std.specs.Prelude.{◌≡◌, length};
    ghost use Rattle.plan_texts.specs.Lines.{lines};
    ghost use Rattle.plan_parts.specs.Files.{FileBytes};

    ghost Value = { FileBytes };

    ghost view = { λ part. record { path = part.path; bytes = part.bytes.items } };

    ghost invariant = { λ part. part.line_count ≡ length (lines part.bytes.items) };
}

impl Part {
    /// Keeps the path and the bytes of a file.
    pub fn new(path: Text, bytes: Vec<u8>) -> Part
        ensures { result ≡ record { path = path; bytes = bytes.items } }
    {
        let line_count = line_count(bytes.as_slice());
        Part {
            path,
            bytes,
            line_count,
        }
    }

    /// Borrows the path.
    pub fn path(&self) -> &str
        ensures { result.now ≡ self.now.path }
    {
        self.path.as_str()
    }

    /// Borrows the bytes.
    pub fn bytes(&self) -> &[u8]
        ensures { result.now ≡ self.now.bytes }
    {
        self.bytes.as_slice()
    }

    /// Returns the number of lines.
    pub fn lines(&self) -> usize
        ensures { result ≡ length (lines self.now.bytes) }
    {
        self.line_count
    }
}
