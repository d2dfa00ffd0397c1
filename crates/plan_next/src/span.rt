//! The span of a plan.

ghost use Rattle.std.specs.Prelude.{◌≡◌, ◌<◌, ◌≤◌, ◌↔◌, IfOk};

use plan_sets::END_SECOND;
use std::error::Error;
use std::fmt::{self, Display, Formatter};
use std::marker::Model;

/// Why two timestamps make no span: the first that applies.
#[derive(Clone, Copy, Debug, PartialEq, Eq)]
pub enum SpanFault {
    /// The span ends before it starts.
    Backwards,
    /// The span ends after `END_SECOND`.
    OutOfYears,
}

impl SpanFault {
    ghost use Rattle.std.specs.Prelude.{◌≡◌};
    ghost use Rattle.plan_next.specs.Span.{span_cause};

    /// Returns the name of the error, as error lines show it.
    pub fn name(&self) -> &'static str
        ensures { result.now ≡ span_cause self.now }
    {
        match self {
            SpanFault::Backwards => "Backwards",
            SpanFault::OutOfYears => "OutOfYears",
        }
    }
}

impl Display for SpanFault {
    ghost use Rattle.std.specs.Prelude.{Some};
    ghost use Rattle.plan_next.specs.Span.{span_cause};

    ghost output = { λ fault. Some (span_cause fault) };

    fn fmt<W: fmt::Write>(&self, f: &mut Formatter<W>) -> fmt::Result {
        f.write_str(self.name())
    }
}

impl Error for SpanFault {}

/// The seconds from one timestamp to another, which is excluded. Both are in seconds since
/// 1970-01-01T00:00:00Z, and at most `END_SECOND`.
#[derive(Clone, Copy, Debug)]
pub struct Span {
    since: u64,
    upto: u64,
}

impl Model for Span {
    ghost use Rattle.std.specs.Prelude.{◌≤◌};
    ghost use Rattle.plan_next.specs.Span.{Bounds};
    ghost use Rattle.plan_sets.specs.declared.civil.TheConstants.{END_SECOND};

    ghost Value = { Bounds };

    ghost view = { λ span. record { since = span.since; upto = span.upto } };

    ghost invariant = { λ span. (span.since ≤ span.upto) × (span.upto ≤ END_SECOND) };

    ghost inverse = { λ bounds. record { since = bounds.since; upto = bounds.upto } };
}

impl Span {
    /// Makes the span from `since` to `upto`, which is excluded.
    ///
    /// # Errors
    ///
    /// `Backwards` if `upto` is before `since`, else `OutOfYears` if it is after `END_SECOND`.
    pub fn new(since: u64, upto: u64) -> Result<Span, SpanFault>
        ensures span { IfOk result (λ span. span ≡ record { since = since; upto = upto }) }
        ensures backwards { (result ≡ Err SpanFault.Backwards) ↔ (upto < since) }
        ensures out_of_years { (result ≡ Err SpanFault.OutOfYears) ↔ ((since ≤ upto) × (END_SECOND < upto)) }
    {
        if upto < since {
            return Err(SpanFault::Backwards);
        }
        if upto > END_SECOND {
            return Err(SpanFault::OutOfYears);
        }
        Ok(Span { since, upto })
    }

    /// Returns the second at which the span starts.
    pub fn since(self) -> u64
        ensures value { result ≡ self.since }
        ensures ordered { result ≤ self.upto }
    {
        self.since
    }

    /// Returns the second before which the span ends.
    pub fn upto(self) -> u64
        ensures value { result ≡ self.upto }
        ensures ordered { self.since ≤ result }
        ensures years { result ≤ END_SECOND }
    {
        self.upto
    }
}
