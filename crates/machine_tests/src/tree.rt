//! A tree of files that is a text, with a line for each path.

use plan_texts::Text;
use plan_tree::{Complete, Listing, Name, Node, Status, Tree};
use std::alloc::{AllocError, Global};

/// A tree that is a text. A line is a letter, a path and, after a blank, what is there: `d PATH` is a directory;
/// `f PATH TEXT` is a file, in whose text `|` is a newline; `l PATH TEXT` is a link; `x PATH` is a file that can't be
/// read; `p PATH` is a directory that can't be listed; `b PATH` is one that has a name that isn't UTF-8 too.
#[derive(Drop)]
pub(crate) struct TextTree<'a>(pub(crate) &'a str);

impl TextTree<'_> {
    // Returns the letter and the text of the line of a path.
    fn find(&self, path: &str) -> Option<(&str, &str)> {
        for line in self.0.lines() {
            let (letter, rest) = line.split_once(' ').unwrap_or((line, ""));
            let (given, text) = rest.split_once(' ').unwrap_or((rest, ""));
            if given == path {
                return Some((letter, text));
            }
        }
        None
    }
}

impl Tree for TextTree<'_> {
    ghost use Rattle.std.specs.Prelude.{false};
    ghost use Rattle.plan_tree.specs.Tree.{unknown};

    // The tests compare what is found. They prove nothing about this tree.
    ghost is_known = { false };

    ghost held = { λ _. unknown };

    fn node(&self, alloc: Global, path: &str) -> Result<Node, AllocError> {
        match self.find(path) {
            Some(("d" | "p" | "b", _)) => Ok(Node::Directory),
            Some(("f", text)) => Ok(Node::File {
                is_empty: text.is_empty(),
            }),
            Some(("l", text)) => Ok(Node::Link(Text::new(String::from_str(alloc, text)?))),
            Some(("x", _)) => Ok(Node::File { is_empty: false }),
            _ => Ok(Node::Missing),
        }
    }

    fn names(&self, alloc: Global, path: &str) -> Result<Option<Listing>, AllocError> {
        let Some((letter @ ("d" | "b"), _)) = self.find(path) else {
            return Ok(None);
        };
        let mut names = Vec::new(alloc);
        for line in self.0.lines() {
            let (_, rest) = line.split_once(' ').unwrap_or((line, ""));
            let (given, _) = rest.split_once(' ').unwrap_or((rest, ""));
            let (dir, name) = given.rsplit_once('/').unwrap_or(("", given));
            if dir == path {
                names.push(Name::at(alloc, name)?)?;
            }
        }
        let is_whole = letter == "d";
        Ok(Some(Listing { names, is_whole }))
    }

    fn status(&self, _alloc: Global, _path: &str) -> Result<Option<Status>, AllocError> {
        Ok(None)
    }

    fn front(&self, alloc: Global, path: &str, most: u64) -> Result<Option<Vec<u8>>, AllocError> {
        let Some(("f", text)) = self.find(path) else {
            return Ok(None);
        };
        let mut bytes = Vec::new(alloc);
        for byte in text.as_bytes() {
            if (bytes.len() as u64) < most {
                bytes.push(if *byte == b'|' { b'\n' } else { *byte })?;
            }
        }
        Ok(Some(bytes))
    }
}

impl Complete for TextTree<'_> {
    ghost use Rattle.std.proofs.Common.{rules};

    ghost complete = { Prim.search rules };
}
