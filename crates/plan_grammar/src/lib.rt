//! Parses the texts of cron rules and of calendar events, and reports why a text is not a rule.
//!
//! This crate uses plan_texts to cut a text, and makes the rules of plan_match. For cron rules read `cron`, then
//! `field`. For calendar events read `event`, then `shape`, `component` and `places`; `items` has the elements of an
//! event, as they are written, and `event_zones` the time zones that events may name. `fault` has the errors of both.
#![tactic(auto)]

mod component;
mod cron;
mod element;
mod event;
mod event_zones;
mod fault;
mod field;
mod items;
mod places;
mod shape;
mod weekdays;

pub use component::Component;
pub use cron::{cron_rule, rule_in_front};
pub use event::{calendar_event, calendar_rule, day_component, expression_of, zone_name};
pub use event_zones::{EventZones, NamedZone};
pub use fault::{RuleCause, RuleFault};
pub use items::{ComponentElements, EventItems, event_items};
