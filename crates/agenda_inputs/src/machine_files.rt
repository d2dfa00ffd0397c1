//! The files of a machine, whose tree is below a root.

use crate::files::Files;
use plan_tree::{Tree, contents};
use std::alloc::Global;
use std::io;

/// The files of a machine with this tree. A file that the tree doesn't have is that of the running machine.
#[derive(Drop)]
pub struct MachineFiles<'a, F, T> {
    pub tree: &'a T,
    pub running: &'a mut F,
}

impl<F: Files, T: Tree> Files for MachineFiles<'_, F, T> {
    ghost use Rattle.std.specs.Prelude.{None};
    ghost use Rattle.agenda_inputs.specs.MachineFiles.{machine_files};

    ghost held = { λ files. machine_files (F.held files.running.now)
        (record { is_known = T.is_known; held = T.held files.tree.now }) };

    ghost opened = { λ _. None };

    ghost errors = { λ _. None };

    fn front(&mut self, alloc: Global, path: &str, most: u64) -> io::Result<Vec<u8>> {
        match contents(alloc, self.tree, path, most)? {
            Some(bytes) => Ok(bytes),
            None => self.running.front(alloc, path, most),
        }
    }
}
