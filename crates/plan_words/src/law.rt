//! Laws of sentences, as contracts of functions that do nothing.

ghost use Rattle.plan_words.specs.Laws.{Differ, ReadsBack, VoidMeans};

/// Different well-formed descriptions have different sentences, and each sentence is read back as its description.
pub fn sentences_differ()
    ensures reads { ReadsBack }
    ensures differ { Differ }
{}

/// A sentence ends with `(no such day)` exactly if no second of the supported years is on a day of the schedule.
pub fn void_schedules_have_no_day()
    ensures { VoidMeans }
{}
