//! The sentences of cron rules that were described, for later jobs with the same fields.

ghost use Rattle.std.specs.Prelude.{◌≡◌, IfOk, IfSome};
ghost use Rattle.plan_describe.specs.Said.{cron_said};
ghost use Rattle.plan_words.specs.Sentence.{sentence_of};
ghost use Rattle.plan_words.specs.Tree.{Scheduled};
ghost use Rattle.agenda_describe.specs.Sentences.{crontab_sentence, same_fields};

use crate::jobs::copy_of;
use crate::rule::crontab_sentence;
use plan_rules::{CronRule, Rule, Text};
use std::alloc::{AllocError, Global};

/// The largest number of rules whose sentences are kept.
const MOST_RULES: usize = 32;

// A cron rule, and its sentence.
#[derive(Drop)]
struct KnownRule<'a> {
    rule: &'a CronRule,
    sentence: Text,
    ghost is_its: { sentence ≡ sentence_of (Scheduled (cron_said rule.now)) },
}

/// The first few different cron rules of jobs, with their sentences.
#[derive(Drop)]
pub(crate) struct KnownRules<'a> {
    rules: Vec<KnownRule<'a>>,
}

impl<'a> KnownRules<'a> {
    /// Returns an empty list. This allocates nothing.
    pub(crate) fn new(alloc: Global) -> KnownRules<'a> {
        KnownRules {
            rules: Vec::new(alloc),
        }
    }

    /// Returns the sentence of the rule of a line in a crontab, and keeps it if few are known.
    ///
    /// # Errors
    ///
    /// `AllocError` if an allocation fails.
    pub(crate) fn sentence(&mut self, alloc: Global, rule: &'a Rule) -> Result<Text, AllocError>
        ensures { IfOk result (λ text. text ≡ crontab_sentence rule.now) }
    {
        let Rule::Cron(cron) = rule else {
            return crontab_sentence(alloc, rule);
        };
        if let Some(sentence) = known_sentence(&self.rules, cron) {
            return copy_of(alloc, sentence.as_str());
        }
        let sentence = crontab_sentence(alloc, rule)?;
        if self.rules.len() < MOST_RULES {
            let sentence = copy_of(alloc, sentence.as_str())?;
            self.rules.push(KnownRule {
                rule: cron,
                sentence,
            })?;
        }
        Ok(sentence)
    }
}

// Returns the sentence of a rule with the same fields, if one is known.
#[tactic(auto, using(crate::proofs::KnownLemmas::said_alike))]
fn known_sentence<'a>(rules: &'a [KnownRule<'_>], rule: &CronRule) -> Option<&'a Text>
    ensures { IfSome result (λ text. text.now ≡ sentence_of (Scheduled (cron_said rule.now))) }
{
    for known in rules {
        if are_alike(known.rule, rule) {
            return Some(&known.sentence);
        }
    }
    None
}

// Returns whether two rules have the same fields. Their clocks may differ.
fn are_alike(one: &CronRule, other: &CronRule) -> bool
    ensures { result ≡ same_fields one.now other.now }
{
    one.minutes == other.minutes
        && one.hours == other.hours
        && one.month_days == other.month_days
        && one.months == other.months
        && one.week_days == other.week_days
        && one.month_days_restricted == other.month_days_restricted
        && one.week_days_restricted == other.week_days_restricted
}
