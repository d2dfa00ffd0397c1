//! Laws about starts, for the proofs of other crates.

ghost use Rattle.std.specs.Prelude.{◌≡◌, ℕ, ◌&&◌, nat_lt};
ghost use Rattle.plan_sets.specs.Civil.{civil_fields};
ghost use Rattle.plan_sets.specs.Limits.{end_second};
ghost use Rattle.plan_match.specs.Match.{rule_matches};
ghost use Rattle.plan_next.specs.Starts.{is_start};
ghost use Rattle.plan_next.specs.UtcLaws.{HasNoClock};

use plan_match::Rule;

/// States a law, and does nothing: without a clock, the starts of a rule are the seconds whose civil fields match.
pub fn starts_without_clock(_rule: &Rule)
    ensures { HasNoClock _rule.now
        → (n : ℕ) → is_start _rule.now n ≡ (nat_lt n end_second && rule_matches _rule.now (civil_fields n)) }
{}
