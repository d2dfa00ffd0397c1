//! Pieces: all starts of a rule in a part of time.

ghost use Rattle.std.specs.Prelude.{◌≡◌, ◌<◌, ◌≤◌, IfOk, take};
ghost use Rattle.std.specs.Arc.{arc_value};
ghost use Rattle.plan_sets.specs.Limits.{end_second};
ghost use Rattle.plan_next.specs.Starts.{starts};
ghost use Rattle.plan_next.specs.Piece.{piece_end, piece_of};

use crate::nexts::{MOST_KEPT, Starts};
use plan_match::Rule;
use std::alloc::{AllocError, AllocFailed, Global};
use std::marker::Model;
use std::sync::Arc;
use thiserror::Error;

/// An allocation failed.
#[derive(Clone, Copy, Debug, PartialEq, Eq, Error)]
#[error("NoMemory")]
pub struct NoMemory;

impl From<AllocError> for NoMemory {
    fn from(_error: AllocError) -> NoMemory {
        NoMemory
    }
}

impl<T: Drop> From<AllocFailed<T>> for NoMemory {
    fn from(_error: AllocFailed<T>) -> NoMemory {
        NoMemory
    }
}

/// A rule, a part of time, and all starts of the rule in that part, ascending.
#[derive(Debug, Drop)]
pub struct Piece {
    rule: Arc<Rule>,
    since: u64,
    upto: u64,
    starts: Vec<u64>,
}

impl Model for Piece {
    ghost use Rattle.std.specs.Prelude.{◌≡◌, ◌≤◌};
    ghost use Rattle.plan_next.specs.Starts.{starts as starts_of};
    ghost use Rattle.plan_next.specs.Piece.{Part, part_code};

    ghost Value = { Part };

    ghost coded = { part_code };

    ghost view = { λ p. record { rule = p.rule.value; since = p.since; upto = p.upto } };

    ghost invariant = { λ p. (p.starts.items ≡ starts_of p.rule.value p.since p.upto) × (p.since ≤ p.upto) };
}

impl Piece {
    /// Returns the rule.
    pub fn rule(&self) -> &Arc<Rule>
        ensures { arc_value result.now ≡ self.now.rule }
    {
        &self.rule
    }

    /// Returns the first second of the part.
    pub fn since(&self) -> u64
        ensures { result ≡ self.now.since }
    {
        self.since
    }

    /// Returns the end of the part: the second after its last.
    pub fn upto(&self) -> u64
        ensures value { result ≡ self.now.upto }
        ensures ordered { self.now.since ≤ result }
    {
        self.upto
    }

    /// Returns the starts of the rule in the part, ascending.
    pub fn starts(&self) -> &[u64]
        ensures { result.now ≡ starts self.now.rule self.now.since self.now.upto }
    {
        &self.starts
    }
}

/// Returns the piece of a rule that begins at `since`.
///
/// If the rule has at most `most` starts before `upto`, the piece ends at `upto`. Otherwise it ends just after
/// the first `most` starts.
///
/// # Errors
///
/// `NoMemory` if an allocation fails.
pub fn next_piece(
    alloc: Global,
    rule: &Arc<Rule>,
    since: u64,
    upto: u64,
    most: usize,
) -> Result<Piece, NoMemory>
    requires part { since ≤ upto }
    requires years { upto ≤ end_second }
    requires room { 1 ≤ most }

    ensures piece { IfOk result (λ piece. piece ≡ piece_of (arc_value rule.now) since upto most) }
    ensures first { IfOk result
        (λ piece. starts (arc_value rule.now) since piece.upto
        ≡ take most (starts (arc_value rule.now) since upto)) }

    // A caller that continues from the end of each piece reaches `upto`.
    ensures within { IfOk result (λ piece. piece.upto ≤ upto) }
    ensures moves { IfOk result (λ piece. since < upto → since < piece.upto) }
{
    let rule = Arc::try_clone(rule)?;
    let (starts, upto) = first_starts(alloc, &rule, since, upto, most)?;
    Ok(Piece {
        rule,
        since,
        upto,
        starts,
    })
}

// Returns the first starts of a part, at most `most`, and the second before which these are all starts.
fn first_starts(
    alloc: Global,
    rule: &Rule,
    since: u64,
    upto: u64,
    most: usize,
) -> Result<(Vec<u64>, u64), NoMemory>
    requires part { since ≤ upto }
    requires years { upto ≤ end_second }
    requires room { 1 ≤ most }
    ensures end { IfOk result (λ found. found.1 ≡ piece_end rule.now since upto most) }
    ensures all { IfOk result (λ found. found.0.items ≡ starts rule.now since found.1) }
    ensures first { IfOk result (λ found. found.0.items ≡ take most (starts rule.now since upto)) }
    ensures within { IfOk result (λ found. found.1 ≤ upto) }
    ensures moves { IfOk result (λ found. since < upto → since < found.1) }
{
    let mut found = Vec::new(alloc);
    let mut kept = [upto; MOST_KEPT];
    let mut starts = Starts::first(rule, since, upto, &mut kept);
    let mut reached = since;
    while starts.start() < upto {
        if found.len() == most {
            return Ok((found, reached));
        }
        found.push(starts.start())?;
        starts.add_rest_of_hour(most, &mut found)?;
        reached = starts.start() + 1;
        starts.next();
    }
    Ok((found, upto))
}
