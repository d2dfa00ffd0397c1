//! What each code means, in one sentence: the first one of its text.

pub(crate) const BACKWARDS: &str =
    "A range in a rule, or the span of --since and --upto, ends before it starts.";

pub(crate) const BAD_BASELINE: &str =
    "A line of the agenda given to 'changes' isn't one that 'plan' prints.";

pub(crate) const BAD_BOOLEAN: &str =
    "The value of 'Persistent=' isn't a boolean, so systemd ignores it.";

pub(crate) const BAD_COUNT: &str = "The number of --count isn't 1 to 1,000.";

pub(crate) const BAD_DELAY: &str =
    "The value of 'RandomizedDelaySec=' or 'AccuracySec=' isn't a time span, so systemd ignores it.";

pub(crate) const BAD_FORM: &str = "A time doesn't have the form '2024-01-01T00:00:00Z'.";

pub(crate) const BAD_LEAST: &str = "The number of --least is 0.";

pub(crate) const BAD_LENGTH: &str = "The value of --least isn't a length.";

pub(crate) const BAD_LIMIT: &str = "The number of --limit isn't 1 to 1,000,000.";

pub(crate) const BAD_LINE: &str = "A line of a script has none of the forms that are allowed.";

pub(crate) const BAD_NAME: &str =
    "A month or weekday has a name that isn't known, or a part has a name and can't have one.";

pub(crate) const BAD_NUMBER: &str = "A value isn't a number of 1 to 4 digits.";

pub(crate) const BAD_SETTING: &str = "A line of a crontab begins like a setting and has no '='.";

pub(crate) const BAD_SIZE: &str =
    "A size of the planners or of a script's mailbox is out of its range.";

pub(crate) const BAD_TAB_NAME: &str =
    "The name of a file of --cron-d or --spool isn't allowed there.";

pub(crate) const BAD_TIME: &str = "A text isn't a time.";

pub(crate) const BAD_TIMER_NAME: &str = "The file's name isn't one of a timer.";

pub(crate) const BAD_ZONE: &str = "The file of the zone isn't a valid TZif file.";

pub(crate) const BAD_ZONE_NAME: &str =
    "The value of --zone is neither a path nor a name of the time zone database.";

pub(crate) const CARRIAGE_RETURN: &str = "The command of a line ends with a carriage return.";

pub(crate) const CRON_DIFFERS: &str = "Debian's cron reads this line otherwise.";

pub(crate) const CRON_IGNORES: &str =
    "Debian's cron ignores the whole file, so it starts none of its jobs.";

pub(crate) const DELAYED: &str =
    "The timer starts up to the time of 'RandomizedDelaySec=' later than planned.";

pub(crate) const DEVICE: &str =
    "A file can't be opened or read, or standard output can't be written.";

pub(crate) const EITHER_DAY: &str =
    "Both day fields are restricted, so the job starts on each day that either of them matches.";

pub(crate) const EMPTY_SPAN: &str =
    "The span of 'clear' has no second: --until isn't after --since.";

pub(crate) const FRACTION: &str = "The second of a calendar event has a fraction.";

pub(crate) const FULL: &str = "There are more than 1,000 jobs.";

pub(crate) const LINE_END: &str =
    "The line has a carriage return before its end, or a NUL byte, and systemd ends the line there.";

pub(crate) const MAY_STOP: &str =
    "systemd 252 may stop for good at this event, in a zone with summer time.";

pub(crate) const MERGED: &str =
    "Starts of the timer are closer to each other than its accuracy, so systemd may merge them into one.";

pub(crate) const MONOTONIC: &str =
    "The timer also starts by 'OnBootSec=' or the like, which isn't planned.";

pub(crate) const NEVER_STARTS: &str =
    "The rule of this line, or this event, has no start in any year.";

pub(crate) const NOT_SETTLED: &str =
    "The messages of the planners didn't add up at the end, so nothing is printed.";

pub(crate) const NOT_UTF8: &str = "The bytes of the file aren't UTF-8.";

pub(crate) const NOTHING_NAMED: &str = "No job, timer or crontab has such a name.";

pub(crate) const NO_COMMAND: &str = "The line has a rule but no command.";

pub(crate) const NO_EVENTS: &str =
    "The timer has a section '[Timer]', but no event is in it at the end.";

pub(crate) const NO_MEMORY: &str =
    "The program is out of memory, or a thread of a planner couldn't be started.";

pub(crate) const NO_SUCH_DATE: &str = "The calendar has no such date, or the day has no such time.";

pub(crate) const NO_SUCH_ZONE: &str =
    "The time zone database has no zone of that name, or isn't installed.";

pub(crate) const NO_TIMER_SECTION: &str = "The file has no section '[Timer]'.";

pub(crate) const NO_USER: &str = "The user of the line can't be the name of a user.";

pub(crate) const OUT_OF_RANGE: &str = "A value is outside the range of its part.";

pub(crate) const OUT_OF_YEARS: &str = "A time is before 1970, or after 3000-01-01T00:00:00Z.";

pub(crate) const PERCENT: &str =
    "The command has a '%' that doesn't follow a backslash, so cron ends the command there.";

pub(crate) const RANGE_FROM_END: &str =
    "systemd 252 reads a range with a step after '~' from its first value on.";

pub(crate) const SAME_NAME: &str =
    "Two jobs have the same name, because a file is given twice or because files of two directories have the same name.";

pub(crate) const SKIPPED_STARTS: &str =
    "A step of the event has no end, and systemd 252 may skip starts because of it.";

pub(crate) const SPECIFIER: &str = "A calendar event has a '%', and specifiers aren't expanded.";

pub(crate) const SYSTEMD_REJECTS: &str =
    "systemd 252 rejects the event, so the timer doesn't start at it.";

pub(crate) const TIMER_REJECTED: &str =
    "systemd 252 rejects the whole timer, so it starts nothing.";

pub(crate) const TOO_LARGE: &str = "The file has more than 1,048,576 bytes.";

pub(crate) const TOO_MANY: &str = "The span has more starts than the limit.";

pub(crate) const TOO_MANY_LINES: &str = "The timer has more than 64 events at once.";

pub(crate) const TOO_MANY_STEPS: &str = "The script has more than 10,000 steps.";

pub(crate) const UNIT_IGNORED: &str =
    "systemd 252 ignores the value of 'Unit=', so the timer starts the service of its own name.";

pub(crate) const UNKNOWN_KEY: &str =
    "A setting in '[Timer]' isn't one of systemd.timer(5), so systemd ignores it.";

pub(crate) const UNKNOWN_WORD: &str = "There is no such word for a rule.";

pub(crate) const WRONG_PARTS: &str = "A part is missing, is empty, or is one too many.";

pub(crate) const ZERO_STEP: &str = "A step is 0.";

pub(crate) const ZONE: &str =
    "A calendar event ends with an unknown time zone, or --event-zones isn't given.";

pub(crate) const ZONE_SETTING: &str = "The line sets 'CRON_TZ', which only cronie reads.";
