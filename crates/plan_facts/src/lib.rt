//! Worked rows of the definitions of plan_sets, plan_spans, plan_clock, plan_match, plan_grammar, plan_rules,
//! plan_next, plan_times and agenda_arguments, proved by computing.
//!
//! The rows are about known seconds and timestamps, cron rules, calendar events, crontabs, timer files, starts in
//! a time zone, times as people type them, and what arguments request. Their values are from manual pages and calendars. No proof of a
//! function uses them, so they are in a crate that the program doesn't depend on, and no build waits for them.
#![tactic(auto)]
