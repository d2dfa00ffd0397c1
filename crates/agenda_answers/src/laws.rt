//! The laws of answers.

ghost use Rattle.agenda_answers.specs.ClearLaws.{ClearIsSafe, MachineClearIsSafe};
ghost use Rattle.agenda_answers.specs.ExceptLaws.{AnswersExceptIdleJobs};

/// States the law of clear spans: if `clear` answers with status 0, no file and no error was skipped, and no job of the
/// files may start in the span. A job may start at each second from a time of its rule to that time and its delay,
/// unless delays don't count, and a cron job in the whole minute.
///
/// The function does nothing: its contract is the law.
pub fn clear_is_safe()
    ensures { ClearIsSafe }
{}

/// States the same law of a machine: if `clear` answers with status 0, nothing is unknown, and no job that is left may start in the
/// span.
///
/// The function does nothing: its contract is the law.
pub fn machine_clear_is_safe()
    ensures { MachineClearIsSafe }
{}

/// States the law of idle jobs: an answer about a machine without them is the answer with `--idle`, but for the jobs with their
/// names, and for the lines that report them.
///
/// No two jobs may have one name, and there may be at most 1,000 of them.
///
/// The function does nothing: its contract is the law.
pub fn answers_except_idle_jobs()
    ensures { AnswersExceptIdleJobs }
{}
