//! Finds the starts of a rule one after another, each from the one before it.
//!
//! For a cron rule, the next minute in the hour is kept for each of its minutes. For a list of events, the next
//! start of each event is kept, so an event isn't searched again while its next start is known.

ghost use Rattle.std.specs.Prelude.{◌≡◌, ◌+◌, ◌<◌, ◌≤◌, true, None, [], length};
ghost use Rattle.plan_sets.specs.Limits.{end_second};
ghost use Rattle.plan_next.specs.Starts.{event_starts, is_start, IsFirstIn};
ghost use Rattle.plan_next.specs.UtcLaws.{HasNoClock, HaveNoClock};
ghost use Rattle.plan_next.specs.Next.{most_kept, AreNexts, IsFirstOrEnd, KeepsNexts};

use crate::minutes::{add_minutes, keep_next_minutes};
use crate::next::{first_of_cron, first_of_events};
use crate::search::Pattern;
use plan_clock::Clock;
use plan_match::{Calendar, CronRule, Events, Rule};
use std::alloc::AllocError;
use std::marker::Model;

/// The maximum length of a list of events whose next starts are kept. It must be at least 60, so that the
/// minutes of an hour can be kept.
pub(crate) const MOST_KEPT: usize = 64;

/// The starts of a rule before an end, one after another: the present one is the last that was found, or the end
/// if the rule has no further start.
#[derive(Drop)]
pub(crate) struct Starts<'a> {
    rule: &'a Rule,
    // The next minute for each minute of a cron rule, or the next start of each of at most `MOST_KEPT` events.
    // The array is lent by the caller, so that it is never moved.
    kept: &'a mut [u64; MOST_KEPT],
    start: u64,
    end: u64,
    // A guess of how many changes of the clock are at or before the start, or `None` if the rule has no clock.
    guess: Option<usize>,
}

impl<'a> Model for Starts<'a> {
    ghost use Rattle.plan_next.specs.Piece.{Part, part_code};

    ghost Value = { Part };

    ghost coded = { part_code };

    ghost use Rattle.plan_next.specs.Next.{IsKnown};

    ghost view = { λ s. record { rule = s.rule.now; since = s.start; upto = s.end } };

    ghost invariant = { λ s. IsKnown s.rule.now s.start s.end s.guess s.kept.now };
}

impl<'a> Starts<'a> {
    ghost use Rattle.std.specs.Prelude.{◌≡◌, ◌+◌, ◌<◌, ◌≤◌, ℕ, IfOk};
    ghost use Rattle.plan_sets.specs.Limits.{end_second};
    ghost use Rattle.plan_next.specs.Starts.{is_start};
    ghost use Rattle.plan_next.specs.Next.{IsFirstOrEnd};
    ghost use Rattle.plan_next.specs.Piece.{AreFound};

    /// Finds the first start of a rule at or after `from` and before `end`. Any numbers in `kept` are overwritten.
    #[inline(always)]
    pub(crate) fn first(
        rule: &'a Rule,
        from: u64,
        end: u64,
        kept: &'a mut [u64; MOST_KEPT],
    ) -> Starts<'a>
        requires part { from ≤ end }
        requires years { end ≤ end_second }
        ensures rule { result.rule ≡ rule.now }
        ensures end { result.upto ≡ end }
        ensures first { IsFirstOrEnd (is_start rule.now) from end result.since }
    {
        let guess = changes_passed(rule, from, end);
        let start = first_or_end(rule, from, end, kept);
        Starts {
            rule,
            kept,
            start,
            end,
            guess,
        }
    }

    /// Goes to the next start.
    #[inline(always)]
    pub(crate) fn next(&mut self)
        requires { self.old.since < self.old.upto }
        ensures rule { self.new.rule ≡ self.old.rule }
        ensures end { self.new.upto ≡ self.old.upto }
        ensures next { IsFirstOrEnd (is_start self.old.rule) (self.old.since + 1) self.old.upto self.new.since }
    {
        let (rule, at, end, guess) = (self.rule, self.start, self.end, self.guess);
        match rule {
            Rule::Cron(rule) => self.start = next_of_cron(rule, at, end, guess).unwrap_or(end),
            Rule::Never => self.start = end,
            Rule::Events(events) if events.len() <= MOST_KEPT => {
                self.start = next_of_each(events, at, end, self.kept, guess);
            }
            Rule::Events(events) => {
                self.start = first_of_events(events, at + 1, end).unwrap_or(end);
            }
        }
    }

    /// Adds the starts of a cron rule that follow the present one in its hour, until `found` has `most` starts, and
    /// goes to the last of them. For any other kind of rule, nothing is added.
    ///
    /// # Errors
    ///
    /// `AllocError` if an allocation fails.
    #[inline(always)]
    pub(crate) fn add_rest_of_hour(
        &mut self,
        most: usize,
        found: &mut Vec<u64>,
    ) -> Result<(), AllocError>
        requires { self.old.since < self.old.upto }
        ensures rule { self.new.rule ≡ self.old.rule }
        ensures end { self.new.upto ≡ self.old.upto }
        ensures from { self.old.since ≤ self.new.since }
        ensures part { self.new.since < self.old.upto }
        ensures found { (since : ℕ) → AreFound self.old.rule since self.old.upto most found.old.items (self.old.since + 1)
            → IfOk result (λ _. AreFound self.old.rule since self.old.upto most found.new.items (self.new.since + 1)) }
    {
        let Rule::Cron(rule) = self.rule else {
            return Ok(());
        };
        let Some(part) = Pattern::Cron(rule).plain_part(self.start, self.end, self.guess) else {
            return Ok(());
        };
        self.start = add_minutes(rule, self.kept, self.start, part, self.end, most, found)?;
        Ok(())
    }

    /// Returns the present start, or the end if there is none.
    #[inline(always)]
    pub(crate) fn start(&self) -> u64
        ensures start { result ≡ self.now.since }
        ensures part { result ≤ self.now.upto }
    {
        self.start
    }
}

// Returns the first start of a rule at or after `from`, or `end` if it has none before that, and keeps what is
// known of the next ones.
fn first_or_end(rule: &Rule, from: u64, end: u64, kept: &mut [u64; MOST_KEPT]) -> u64
    requires part { from ≤ end }
    requires years { end ≤ end_second }
    ensures next { IsFirstOrEnd (is_start rule.now) from end result }
    ensures kept { KeepsNexts rule.now result end kept.new }
{
    match rule {
        Rule::Cron(rule) => {
            keep_next_minutes(rule.minutes(), kept);
            first_of_cron(rule, from, end).unwrap_or(end)
        }
        Rule::Never => end,
        Rule::Events(events) if events.len() <= MOST_KEPT => first_of_each(events, from, end, kept),
        Rule::Events(events) => first_of_events(events, from, end).unwrap_or(end),
    }
}

/// Returns how many changes of the rule's clock are at or before a second, or `None` if no clock of the rule
/// has a change.
///
/// For a list of events, the clock is that of the first event that has one. Searches use the number as a guess;
/// no result depends on it.
pub(crate) fn changes_passed(rule: &Rule, second: u64, end: u64) -> Option<usize>
    ensures { result ≡ None → HasNoClock rule.now }
{
    match rule {
        Rule::Cron(rule) if rule.clock.is_utc() => None,
        Rule::Cron(rule) => Some(passed(&rule.clock, second, end)),
        Rule::Events(events) => passed_by_events(events, second, end),
        Rule::Never => None,
    }
}

// Does the same for a list of events.
fn passed_by_events(events: &Events, second: u64, end: u64) -> Option<usize>
    ensures { result ≡ None → HaveNoClock events.now }
{
    for i in 0..events.len() {
        if let Some(event) = events.get(i) {
            if !event.clock.is_utc() {
                return Some(passed(&event.clock, second, end));
            }
        }
    }
    None
}

// Returns how many changes of a clock are at or before a second, or 0 if the second isn't before the end.
fn passed(clock: &Clock, second: u64, end: u64) -> usize {
    let mut passed = 0;
    if second < end {
        clock.stretch_near(second, end, &mut passed);
    }
    passed
}

// Returns the first start of a cron rule after `start` and before `end`.
fn next_of_cron(rule: &CronRule, start: u64, end: u64, guess: Option<usize>) -> Option<u64>
    requires part { start < end }
    requires years { end ≤ end_second }
    requires start { is_start (Rule.Cron rule.now) start ≡ true }
    requires utc { guess ≡ None → rule.now.clock ≡ [] }
    ensures { IsFirstIn (is_start (Rule.Cron rule.now)) (start + 1) end result }
{
    Pattern::Cron(rule).next_start(start, end, guess)
}

// Finds the first start of each event at or after `from`, or `end` if it has none, and returns the earliest.
fn first_of_each(events: &Events, from: u64, end: u64, kept: &mut [u64; MOST_KEPT]) -> u64
    requires part { from ≤ end }
    requires years { end ≤ end_second }
    requires room { length events.now ≤ most_kept }
    ensures next { IsFirstOrEnd (is_start (Rule.Events events.now)) from end result }
    ensures kept { AreNexts events.now result end kept.new }
{
    let mut earliest = end;
    for i in 0..events.len() {
        if let Some(event) = events.get(i) {
            let next = first_of_event(event, from, end);
            kept[i] = next;
            earliest = earliest.min(next);
        }
    }
    earliest
}

// Finds the next start of each event that starts at `start`, and returns the earliest of all next starts.
#[inline(always)]
fn next_of_each(
    events: &Events,
    start: u64,
    end: u64,
    kept: &mut [u64; MOST_KEPT],
    guess: Option<usize>,
) -> u64
    requires part { start < end }
    requires years { end ≤ end_second }
    requires room { length events.now ≤ most_kept }
    requires kept { AreNexts events.now start end kept.old }
    requires utc { guess ≡ None → HaveNoClock events.now }
    ensures next { IsFirstOrEnd (is_start (Rule.Events events.now)) (start + 1) end result }
    ensures kept { AreNexts events.now result end kept.new }
{
    let mut earliest = end;
    for i in 0..events.len() {
        if let Some(event) = events.get(i) {
            let next = next_of_event(event, start, kept[i], end, guess);
            kept[i] = next;
            earliest = earliest.min(next);
        }
    }
    earliest
}

// Returns the first start of an event at or after `from`, or `end` if it has none before that.
fn first_of_event(event: &Calendar, from: u64, end: u64) -> u64
    requires part { from ≤ end }
    requires years { end ≤ end_second }
    ensures { IsFirstOrEnd (event_starts event.now) from end result }
{
    Pattern::Event(event).first_start(from, end).unwrap_or(end)
}

// Returns the first start of an event after `start`, or `end` if it has none before that. `next` is the first
// one at or after `start`, or `end`.
#[inline(always)]
fn next_of_event(event: &Calendar, start: u64, next: u64, end: u64, guess: Option<usize>) -> u64
    requires part { start < end }
    requires years { end ≤ end_second }
    requires next { IsFirstOrEnd (event_starts event.now) start end next }
    requires utc { guess ≡ None → event.now.clock ≡ [] }
    ensures { IsFirstOrEnd (event_starts event.now) (start + 1) end result }
{
    if next > start {
        return next;
    }
    Pattern::Event(event)
        .next_start(start, end, guess)
        .unwrap_or(end)
}
