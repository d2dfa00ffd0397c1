//! What the reading of a command consists of.

use plan_texts::Text;

/// What can be looked at.
#[derive(Clone, Copy, Debug, PartialEq, Eq)]
pub enum Property {
    /// Whether something is at the end of a path's links (`-e`).
    Exists,
    /// Whether that is a regular file (`-f`).
    File,
    /// Whether that is a directory (`-d`, and `cd`).
    Directory,
    /// Whether that is a file that isn't empty (`-s`).
    NotEmpty,
    /// Whether that is executable (`-x`).
    Executable,
    /// Whether a command has this name (`command -v`).
    Command,
    /// Whether a directory has no scripts (`run-parts`, which runs them).
    NoScripts,
}

/// A step of a command, after the steps of its parts: the steps of `a && b` are those of `a`, those of `b`, and `And`.
#[derive(Debug, Drop)]
pub enum Step {
    /// A simple command without an effect, whose value is a property of a path or a name.
    Look(Property, Text),
    /// A simple command without an effect, whose value is known.
    Known(bool),
    /// A simple command that may have an effect.
    Effect,
    /// `! a`.
    Not,
    /// `a; b` and `a | b`.
    Both,
    /// `a && b`.
    And,
    /// `a || b`.
    Or,
    /// `if a; then b; else c; fi`.
    If,
}
