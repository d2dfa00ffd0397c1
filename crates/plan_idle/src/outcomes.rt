//! What a command may run, whatever the values are that aren't known.

ghost use Rattle.std.specs.Prelude.{◌≡◌, IfOk, Some, None, true};
ghost use Rattle.plan_idle.specs.Outcomes.{after_false, after_true, and_outcomes, both, effect, either, if_outcomes, known, later, looked_at, made, not_outcomes, or_outcomes, seen};

use crate::answer::Answer;
use plan_shell::Property;
use plan_texts::Text;
use std::alloc::{AllocError, Global};

/// What was looked at, and found.
#[derive(Debug, Drop)]
pub(crate) struct Seen {
    /// The property.
    pub(crate) property: Property,
    /// The path or the name.
    pub(crate) subject: Text,
    /// Whether the property holds.
    pub(crate) holds: bool,
}

/// What a command may run.
#[derive(Debug, Drop)]
pub(crate) struct Outcomes {
    /// Whether its value may be true.
    pub(crate) may_be_true: bool,
    /// Whether its value may be false.
    pub(crate) may_be_false: bool,
    /// Whether something with an effect may run.
    pub(crate) may_act: bool,
    /// The last thing that may be looked at, and is found.
    pub(crate) last: Option<Seen>,
}

// Returns the outcomes of a command whose value is known.
pub(crate) fn known(value: bool, last: Option<Seen>) -> Outcomes
    ensures { result ≡ known value last }
{
    Outcomes {
        may_be_true: value,
        may_be_false: !value,
        may_act: false,
        last,
    }
}

// Returns the outcomes of a command that may have an effect, or of one whose value isn't known.
pub(crate) fn unknown(may_act: bool) -> Outcomes
    ensures { result ≡ made true true may_act None }
{
    Outcomes {
        may_be_true: true,
        may_be_false: true,
        may_act,
        last: None,
    }
}

/// Returns the outcomes of a command that looks at something.
///
/// # Errors
///
/// `AllocError` if an allocation fails.
pub(crate) fn looked_at(
    alloc: Global,
    property: Property,
    subject: &str,
    answer: Answer,
) -> Result<Outcomes, AllocError>
    ensures { IfOk result (λ outcomes. outcomes ≡ looked_at property subject.now answer) }
{
    match answer {
        Answer::Yes => Ok(known(true, Some(make_seen(alloc, property, subject, true)?))),
        Answer::No => Ok(known(false, Some(make_seen(alloc, property, subject, false)?))),
        Answer::Unknown => Ok(unknown(false)),
        Answer::Acts => Ok(unknown(true)),
    }
}

// Returns what was looked at.
fn make_seen(
    alloc: Global,
    property: Property,
    subject: &str,
    holds: bool,
) -> Result<Seen, AllocError>
    ensures { IfOk result (λ made. Some made ≡ seen property subject.now holds) }
{
    let subject = Text::new(String::from_str(alloc, subject)?);
    Ok(Seen {
        property,
        subject,
        holds,
    })
}

// Returns the later of two looks.
fn later(first: Option<Seen>, second: Option<Seen>) -> Option<Seen>
    ensures { result ≡ later first second }
{
    match second {
        None => first,
        Some(seen) => Some(seen),
    }
}

/// Returns the outcomes of `! a`.
pub(crate) fn not_outcomes(a: Outcomes) -> Outcomes
    ensures { result ≡ not_outcomes a }
{
    Outcomes {
        may_be_true: a.may_be_false,
        may_be_false: a.may_be_true,
        may_act: a.may_act,
        last: a.last,
    }
}

/// Returns the outcomes of `a; b`.
pub(crate) fn both(a: Outcomes, b: Outcomes) -> Outcomes
    ensures { result ≡ both a b }
{
    Outcomes {
        may_be_true: b.may_be_true,
        may_be_false: b.may_be_false,
        may_act: a.may_act || b.may_act,
        last: later(a.last, b.last),
    }
}

// Returns the outcomes of one of two commands, of which either may run.
fn either(a: Outcomes, b: Outcomes) -> Outcomes
    ensures { result ≡ either a b }
{
    Outcomes {
        may_be_true: a.may_be_true || b.may_be_true,
        may_be_false: a.may_be_false || b.may_be_false,
        may_act: a.may_act || b.may_act,
        last: later(a.last, b.last),
    }
}

/// Returns the outcomes of `a && b`.
pub(crate) fn and_outcomes(a: Outcomes, b: Outcomes) -> Outcomes
    ensures { result ≡ and_outcomes a b }
{
    if !a.may_be_true {
        return a;
    }
    Outcomes {
        may_be_true: b.may_be_true,
        may_be_false: a.may_be_false || b.may_be_false,
        may_act: a.may_act || b.may_act,
        last: later(a.last, b.last),
    }
}

/// Returns the outcomes of `a || b`.
pub(crate) fn or_outcomes(a: Outcomes, b: Outcomes) -> Outcomes
    ensures { result ≡ or_outcomes a b }
{
    if !a.may_be_false {
        return a;
    }
    Outcomes {
        may_be_true: a.may_be_true || b.may_be_true,
        may_be_false: b.may_be_false,
        may_act: a.may_act || b.may_act,
        last: later(a.last, b.last),
    }
}

/// Returns the outcomes of `if a; then b; else c; fi`.
pub(crate) fn if_outcomes(a: Outcomes, b: Outcomes, c: Outcomes) -> Outcomes
    ensures { result ≡ if_outcomes a b c }
{
    if !a.may_be_true {
        return both(a, c);
    }
    if !a.may_be_false {
        return both(a, b);
    }
    both(a, either(b, c))
}
