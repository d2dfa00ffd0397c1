//! Laws of descriptions, as contracts of functions that do nothing.

ghost use Rattle.plan_describe.specs.Laws.{CronIsWellFormed, CronMeans, CronSentences, EventIsWellFormed, EventMeans, EventSentences};

use plan_words::sentences_differ;

/// States a law, and does nothing: a description matches exactly when its rule does, at each second of the planner's
/// years. The description of a rule that is parsed is well-formed.
pub fn descriptions_tell()
    ensures crons { CronMeans }
    ensures events { EventMeans }
    ensures cron_forms { CronIsWellFormed }
    ensures event_forms { EventIsWellFormed }
{}

/// States a law, and does nothing: rules with one sentence match and start alike.
pub fn sentences_tell()
    ensures crons { CronSentences }
    ensures events { EventSentences }
{
    sentences_differ();
}
