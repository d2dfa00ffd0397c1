//! The rule by which a job starts.

ghost use Rattle.std.specs.Prelude.{◌≡◌, Bool, IfOk};
ghost use Rattle.plan_match.specs.Match.{rule_matches, cron_matches};
ghost use Rattle.plan_match.specs.Zone.{rule_in};

use crate::cron::CronRule;
use crate::events::Events;
use plan_clock::Clock;
use plan_sets::Civil;
use std::alloc::{AllocError, Global};

/// When a job starts.
#[derive(Debug, Drop)]
pub enum Rule {
    /// At the times of the five fields of a crontab (crontab(5)).
    Cron(CronRule),
    /// At the times of a list of calendar events, any of which may match (systemd.timer(5)).
    Events(Events),
    /// Never: a rule such as `@reboot` in a crontab has no start in any span.
    Never,
}

/// Two rules are equal if they have the same kind and equal parts.
impl PartialEq for Rule {
    ghost use Rattle.std.specs.Prelude.{◌≡◌, ◌↔◌, IsTrue};
    ghost use Rattle.plan_match.specs.Equal.{same_rule, same_rule_laws};

    ghost eq = { same_rule };

    ghost laws = { same_rule_laws };

    fn eq(&self, other: &Rule) -> bool
        ensures value { result ≡ same_rule self.now other.now }
        ensures same { IsTrue result ↔ (self.now ≡ other.now) }
    {
        match (self, other) {
            (Rule::Cron(first), Rule::Cron(second)) => first == second,
            (Rule::Events(first), Rule::Events(second)) => first == second,
            (Rule::Never, Rule::Never) => true,
            _ => false,
        }
    }
}

impl Eq for Rule {
    ghost use Rattle.plan_match.specs.Equal.{same_rule_equivalence};

    ghost laws = { same_rule_equivalence };
}

impl Rule {
    /// Returns the same rule in the zone of a clock. An event that names its own zone keeps that (systemd.time(7)).
    ///
    /// # Errors
    ///
    /// `AllocError` if an allocation fails.
    pub fn in_zone(&self, alloc: Global, clock: &Clock) -> Result<Rule, AllocError>
        ensures { IfOk result (λ rule. rule ≡ rule_in clock.now self.now) }
    {
        match self {
            Rule::Cron(rule) => Ok(Rule::Cron(rule.in_zone(clock)?)),
            Rule::Events(events) => Ok(Rule::Events(events.in_zone(alloc, clock)?)),
            Rule::Never => Ok(Rule::Never),
        }
    }

    /// Returns whether a job with this rule starts at the second that has these civil fields. `Never` has no starts.
    pub fn matches(&self, civil: &Civil) -> bool
        ensures { result ≡ rule_matches self.now civil.now }
    {
        match self {
            Rule::Cron(rule) => rule.matches(civil),
            Rule::Events(events) => events.matches(civil),
            Rule::Never => false,
        }
    }
}
