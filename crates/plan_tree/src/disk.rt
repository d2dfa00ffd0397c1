//! The files of the running machine. No contract says what they are.

use crate::name::Name;
use crate::tree::{Listing, Node, Status, Tree};
use plan_texts::Text;
use std::alloc::{AllocError, Global};
use std::cell::Cell;
use std::fs::{self, File};
use std::io::{self, ErrorKind, Read};
use std::os::unix::fs::{FileTypeExt, MetadataExt};

// The number of the device /dev/null: 1, 3 (null(4)).
const NULL_DEVICE: u64 = 0x103;

// The bits of a mode that aren't its file type (inode(7)).
const PERMISSIONS: u32 = 0o7777;

/// The files of the running machine. A path is read as the machine reads it: `/etc/crontab`, `./root/etc`. So `root/` is
/// where the link `root` leads, if it is one. See `Rooted` for the tree below a directory.
#[derive(Drop)]
pub struct DiskTree<'a> {
    runtime: &'a HostRuntime,
    // The paths at which errors occurred.
    failed: Cell<Vec<Text>>,
}

impl<'a> DiskTree<'a> {
    /// Returns the files of the running machine.
    pub fn new(runtime: &'a HostRuntime) -> DiskTree<'a> {
        DiskTree {
            runtime,
            failed: Cell::new(Vec::new(runtime.alloc())),
        }
    }

    fn look(&self, path: &str) -> io::Result<Node> {
        let found = fs::symlink_metadata(self.runtime, path)?;
        let kind = found.file_type();
        if kind.is_symlink() {
            let text = fs::read_link(self.runtime, path)?;
            return Ok(Node::Link(Text::new(text.into_string())));
        }
        if kind.is_dir() {
            return Ok(Node::Directory);
        }
        if kind.is_file() {
            return Ok(Node::File {
                is_empty: found.len() == 0,
            });
        }
        if kind.is_char_device() && found.rdev() == NULL_DEVICE {
            return Ok(Node::Null);
        }
        Ok(Node::Other)
    }

    fn look_at_status(&self, path: &str) -> io::Result<Status> {
        let found = fs::symlink_metadata(self.runtime, path)?;
        Ok(Status {
            owner: found.uid(),
            mode: found.mode() & PERMISSIONS,
            links: found.nlink(),
        })
    }

    fn list(&self, alloc: Global, path: &str) -> io::Result<Listing> {
        let mut names = Vec::new(alloc);
        let mut is_whole = true;
        for entry in fs::read_dir(self.runtime, path)? {
            match entry {
                Ok(entry) => names.push(Name::at(alloc, entry.file_name())?)?,
                Err(fault) if fault.kind() == ErrorKind::InvalidFilename => is_whole = false,
                Err(fault) => return Err(fault),
            }
        }
        Ok(Listing { names, is_whole })
    }

    fn read(&self, alloc: Global, path: &str, most: u64) -> io::Result<Vec<u8>> {
        let mut bytes = Vec::new(alloc);
        File::open(self.runtime, path)?
            .take(most)
            .read_to_end(&mut bytes)?;
        Ok(bytes)
    }

    // Keeps the path that is the reason of an error at a path, and returns `other`.
    fn fail<V: Drop>(
        &self,
        alloc: Global,
        path: &str,
        fault: io::Error,
        other: V,
    ) -> Result<V, AllocError> {
        if fault.kind() == ErrorKind::OutOfMemory {
            return Err(AllocError);
        }
        if !is_absence(&fault) {
            let path = Text::new(String::from_str(alloc, self.failing_part(path))?);
            let mut failed = self.failed.replace(Vec::new(alloc));
            failed.push(path)?;
            self.failed.set(failed);
        }
        Ok(other)
    }

    // Returns the part of a path that is the reason of an error: the first directory that can't be searched, or else the first part
    // that can't be looked at, or else all of it.
    fn failing_part<'p>(&self, path: &'p str) -> &'p str {
        let mut dir = path;
        for (end, _) in path.match_indices('/') {
            let part = &path[..end];
            if !part.is_empty() {
                if let Err(fault) = fs::symlink_metadata(self.runtime, part) {
                    return blamed(dir, part, &fault);
                }
                dir = part;
            }
        }
        match fs::symlink_metadata(self.runtime, path) {
            Ok(_) => path,
            Err(fault) => blamed(dir, path, &fault),
        }
    }
}

// Returns which of a directory and a path in it is the reason of an error at the path.
fn blamed<'p>(dir: &'p str, path: &'p str, fault: &io::Error) -> &'p str {
    if fault.kind() == ErrorKind::PermissionDenied {
        dir
    } else {
        path
    }
}

// Returns whether an error says no more than that nothing is there, or that a directory is, or nothing but links.
fn is_absence(fault: &io::Error) -> bool {
    matches!(
        fault.kind(),
        ErrorKind::NotFound
            | ErrorKind::NotADirectory
            | ErrorKind::IsADirectory
            | ErrorKind::FilesystemLoop
    )
}

impl Tree for DiskTree<'_> {
    ghost use Rattle.std.specs.Prelude.{false};
    ghost use Rattle.plan_tree.specs.Tree.{unknown};

    ghost is_known = { false };

    ghost held = { λ _. unknown };

    fn node(&self, alloc: Global, path: &str) -> Result<Node, AllocError> {
        match self.look(path) {
            Ok(node) => Ok(node),
            Err(fault) => match fault.kind() {
                ErrorKind::NotFound | ErrorKind::NotADirectory => Ok(Node::Missing),
                _ => self.fail(alloc, path, fault, Node::Unreadable),
            },
        }
    }

    fn names(&self, alloc: Global, path: &str) -> Result<Option<Listing>, AllocError> {
        match self.list(alloc, path) {
            Ok(listing) => Ok(Some(listing)),
            Err(fault) => self.fail(alloc, path, fault, None),
        }
    }

    fn status(&self, alloc: Global, path: &str) -> Result<Option<Status>, AllocError> {
        match self.look_at_status(path) {
            Ok(status) => Ok(Some(status)),
            Err(fault) => self.fail(alloc, path, fault, None),
        }
    }

    fn front(&self, alloc: Global, path: &str, most: u64) -> Result<Option<Vec<u8>>, AllocError> {
        match self.read(alloc, path, most) {
            Ok(bytes) => Ok(Some(bytes)),
            Err(fault) => self.fail(alloc, path, fault, None),
        }
    }

    fn failures(&self, alloc: Global, dir: &str) -> Result<Vec<Text>, AllocError> {
        let mut failures = Vec::new(alloc);
        for path in self.failed.replace(Vec::new(alloc)) {
            let part = path.as_str().strip_prefix(dir).unwrap_or("");
            failures.push(Text::new(String::from_str(alloc, part)?))?;
        }
        Ok(failures)
    }
}
