//! A start that only one of two agendas has.

/// Which of two agendas has a start that the other lacks.
#[derive(Clone, Copy, Debug, PartialEq, Eq, PartialOrd, Ord)]
pub enum ChangeKind {
    /// The earlier agenda.
    Removed,
    /// The new agenda.
    Added,
}

/// A start that only one of two agendas has. Changes are ordered by second, then by kind, and then by place.
#[derive(Clone, Copy, Debug, PartialEq, Eq, PartialOrd, Ord)]
pub struct Change {
    /// The second of the start, counted from 1970-01-01T00:00:00Z.
    pub second: u64,
    /// Which agenda has the start.
    pub kind: ChangeKind,
    /// The place of the start in that agenda, from 0.
    pub place: usize,
}
