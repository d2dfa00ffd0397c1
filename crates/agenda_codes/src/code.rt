//! The codes of errors and warnings.

ghost use Rattle.std.specs.Prelude.{◌≡◌, Some};
ghost use Rattle.std.specs.Str.{str_eq_ignore_ascii_case};
ghost use Rattle.agenda_codes.specs.Codes.{all_codes, code_named, first_named, name_of, sentence_of, text_of};

use crate::texts::{files, requests, rules, sentences, warnings};
use std::convert::AsStr;

/// A code: the name of what is wrong, which a line of an error or of a warning shows.
#[derive(Clone, Copy, Debug, PartialEq, Eq)]
pub enum Code {
    /// A range in a rule, or the span of --since and --upto, ends before it starts.
    Backwards,
    /// A line of the agenda given to `changes` isn't one that `plan` prints.
    BadBaseline,
    /// The value of `Persistent=` isn't a boolean, so systemd ignores it.
    BadBoolean,
    /// The number of --count isn't 1 to 1,000.
    BadCount,
    /// The value of `RandomizedDelaySec=` or `AccuracySec=` isn't a time span, so systemd ignores it.
    BadDelay,
    /// A time doesn't have the form `2024-01-01T00:00:00Z`.
    BadForm,
    /// The number of --least is 0.
    BadLeast,
    /// The value of --least isn't a length.
    BadLength,
    /// The number of --limit isn't 1 to 1,000,000.
    BadLimit,
    /// A line of a script has none of the forms that are allowed.
    BadLine,
    /// A month or weekday has a name that isn't known, or a part has a name and can't have one.
    BadName,
    /// A value isn't a number of 1 to 4 digits.
    BadNumber,
    /// A line of a crontab begins like a setting and has no `=`.
    BadSetting,
    /// A size of the planners or of a script's mailbox is out of its range.
    BadSize,
    /// The name of a file of --cron-d or --spool isn't allowed there.
    BadTabName,
    /// A text isn't a time.
    BadTime,
    /// The file's name isn't one of a timer.
    BadTimerName,
    /// The file of the zone isn't a valid TZif file.
    BadZone,
    /// The value of --zone is neither a path nor a name of the time zone database.
    BadZoneName,
    /// The command of a line ends with a carriage return.
    CarriageReturn,
    /// Debian's cron reads this line otherwise.
    CronDiffers,
    /// Debian's cron ignores the whole file, so it starts none of its jobs.
    CronIgnores,
    /// The timer starts up to the time of `RandomizedDelaySec=` later than planned.
    Delayed,
    /// A file can't be opened or read, or standard output can't be written.
    Device,
    /// Both day fields are restricted, so the job starts on each day that either of them matches.
    EitherDay,
    /// The span of 'clear' has no second: --until isn't after --since.
    EmptySpan,
    /// The second of a calendar event has a fraction.
    Fraction,
    /// There are more than 1,000 jobs.
    Full,
    /// The line has a carriage return before its end, or a NUL byte, and systemd ends the line there.
    LineEnd,
    /// systemd 252 may stop for good at this event, in a zone with summer time.
    MayStop,
    /// Starts of the timer are closer to each other than its accuracy, so systemd may merge them into one.
    Merged,
    /// The timer also starts by `OnBootSec=` or the like, which isn't planned.
    Monotonic,
    /// The rule of this line, or this event, has no start in any year.
    NeverStarts,
    /// The line has a rule but no command.
    NoCommand,
    /// The timer has a section `[Timer]`, but no event is in it at the end.
    NoEvents,
    /// The program is out of memory, or a thread of a planner couldn't be started.
    NoMemory,
    /// The calendar has no such date, or the day has no such time.
    NoSuchDate,
    /// The time zone database has no zone of that name, or isn't installed.
    NoSuchZone,
    /// The file has no section `[Timer]`.
    NoTimerSection,
    /// The user of the line can't be the name of a user.
    NoUser,
    /// The messages of the planners didn't add up at the end, so nothing is printed.
    NotSettled,
    /// The bytes of the file aren't UTF-8.
    NotUtf8,
    /// No job, timer or crontab has such a name.
    NothingNamed,
    /// A value is outside the range of its part.
    OutOfRange,
    /// A time is before 1970, or after 3000-01-01T00:00:00Z.
    OutOfYears,
    /// The command has a `%` that doesn't follow a backslash, so cron ends the command there.
    Percent,
    /// systemd 252 reads a range with a step after '~' from its first value on.
    RangeFromEnd,
    /// Two jobs have the same name, because a file is given twice or because files of two directories have the
    /// same name.
    SameName,
    /// A step of the event has no end, and systemd 252 may skip starts because of it.
    SkippedStarts,
    /// A calendar event has a `%`, and specifiers aren't expanded.
    Specifier,
    /// systemd 252 rejects the event, so the timer doesn't start at it.
    SystemdRejects,
    /// systemd 252 rejects the whole timer, so it starts nothing.
    TimerRejected,
    /// The file has more than 1,048,576 bytes.
    TooLarge,
    /// The span has more starts than the limit.
    TooMany,
    /// The timer has more than 64 events at once.
    TooManyLines,
    /// The script has more than 10,000 steps.
    TooManySteps,
    /// systemd 252 ignores the value of 'Unit=', so the timer starts the service of its own name.
    UnitIgnored,
    /// A setting in `[Timer]` isn't one of systemd.timer(5), so systemd ignores it.
    UnknownKey,
    /// There is no such word for a rule.
    UnknownWord,
    /// A part is missing, is empty, or is one too many.
    WrongParts,
    /// A step is 0.
    ZeroStep,
    /// A calendar event ends with an unknown time zone, or `--event-zones` isn't given.
    Zone,
    /// The line sets `CRON_TZ`, which only cronie reads.
    ZoneSetting,
}

impl Code {
    /// Returns all codes, in the order of their names.
    #[tactic(auto, unfolding(crate::specs::Codes::all_codes))]
    pub fn all() -> [Code; 63]
        ensures { result ≡ all_codes }
    {
        [
            Code::Backwards,
            Code::BadBaseline,
            Code::BadBoolean,
            Code::BadCount,
            Code::BadDelay,
            Code::BadForm,
            Code::BadLeast,
            Code::BadLength,
            Code::BadLimit,
            Code::BadLine,
            Code::BadName,
            Code::BadNumber,
            Code::BadSetting,
            Code::BadSize,
            Code::BadTabName,
            Code::BadTime,
            Code::BadTimerName,
            Code::BadZone,
            Code::BadZoneName,
            Code::CarriageReturn,
            Code::CronDiffers,
            Code::CronIgnores,
            Code::Delayed,
            Code::Device,
            Code::EitherDay,
            Code::EmptySpan,
            Code::Fraction,
            Code::Full,
            Code::LineEnd,
            Code::MayStop,
            Code::Merged,
            Code::Monotonic,
            Code::NeverStarts,
            Code::NoCommand,
            Code::NoEvents,
            Code::NoMemory,
            Code::NoSuchDate,
            Code::NoSuchZone,
            Code::NoTimerSection,
            Code::NoUser,
            Code::NotSettled,
            Code::NotUtf8,
            Code::NothingNamed,
            Code::OutOfRange,
            Code::OutOfYears,
            Code::Percent,
            Code::RangeFromEnd,
            Code::SameName,
            Code::SkippedStarts,
            Code::Specifier,
            Code::SystemdRejects,
            Code::TimerRejected,
            Code::TooLarge,
            Code::TooMany,
            Code::TooManyLines,
            Code::TooManySteps,
            Code::UnitIgnored,
            Code::UnknownKey,
            Code::UnknownWord,
            Code::WrongParts,
            Code::ZeroStep,
            Code::Zone,
            Code::ZoneSetting,
        ]
    }

    /// Returns the name of the code.
    #[tactic(auto, unfolding(crate::specs::Codes::all_codes, crate::specs::Codes::code_named))]
    pub fn name(self) -> &'static str
        ensures name { result.now ≡ name_of self }
        ensures found { code_named result.now ≡ Some self }
    {
        match self {
            Code::Backwards => "Backwards",
            Code::BadBaseline => "BadBaseline",
            Code::BadBoolean => "BadBoolean",
            Code::BadCount => "BadCount",
            Code::BadDelay => "BadDelay",
            Code::BadForm => "BadForm",
            Code::BadLeast => "BadLeast",
            Code::BadLength => "BadLength",
            Code::BadLimit => "BadLimit",
            Code::BadLine => "BadLine",
            Code::BadName => "BadName",
            Code::BadNumber => "BadNumber",
            Code::BadSetting => "BadSetting",
            Code::BadSize => "BadSize",
            Code::BadTabName => "BadTabName",
            Code::BadTime => "BadTime",
            Code::BadTimerName => "BadTimerName",
            Code::BadZone => "BadZone",
            Code::BadZoneName => "BadZoneName",
            Code::CarriageReturn => "CarriageReturn",
            Code::CronDiffers => "CronDiffers",
            Code::CronIgnores => "CronIgnores",
            Code::Delayed => "Delayed",
            Code::Device => "Device",
            Code::EitherDay => "EitherDay",
            Code::EmptySpan => "EmptySpan",
            Code::Fraction => "Fraction",
            Code::Full => "Full",
            Code::LineEnd => "LineEnd",
            Code::MayStop => "MayStop",
            Code::Merged => "Merged",
            Code::Monotonic => "Monotonic",
            Code::NeverStarts => "NeverStarts",
            Code::NoCommand => "NoCommand",
            Code::NoEvents => "NoEvents",
            Code::NoMemory => "NoMemory",
            Code::NoSuchDate => "NoSuchDate",
            Code::NoSuchZone => "NoSuchZone",
            Code::NoTimerSection => "NoTimerSection",
            Code::NoUser => "NoUser",
            Code::NotSettled => "NotSettled",
            Code::NotUtf8 => "NotUtf8",
            Code::NothingNamed => "NothingNamed",
            Code::OutOfRange => "OutOfRange",
            Code::OutOfYears => "OutOfYears",
            Code::Percent => "Percent",
            Code::RangeFromEnd => "RangeFromEnd",
            Code::SameName => "SameName",
            Code::SkippedStarts => "SkippedStarts",
            Code::Specifier => "Specifier",
            Code::SystemdRejects => "SystemdRejects",
            Code::TimerRejected => "TimerRejected",
            Code::TooLarge => "TooLarge",
            Code::TooMany => "TooMany",
            Code::TooManyLines => "TooManyLines",
            Code::TooManySteps => "TooManySteps",
            Code::UnitIgnored => "UnitIgnored",
            Code::UnknownKey => "UnknownKey",
            Code::UnknownWord => "UnknownWord",
            Code::WrongParts => "WrongParts",
            Code::ZeroStep => "ZeroStep",
            Code::Zone => "Zone",
            Code::ZoneSetting => "ZoneSetting",
        }
    }

    /// Returns the code with this name, in upper or lower case, if there is one.
    pub fn named(name: &str) -> Option<Code>
        ensures { result ≡ code_named name.now }
    {
        Code::of_bytes(name.as_bytes())
    }

    /// Returns the code whose name has these bytes, in upper or lower case, if there is one.
    #[tactic(auto, unfolding(crate::specs::Codes::code_named))]
    pub fn of_bytes(name: &[u8]) -> Option<Code>
        ensures { result ≡ code_named name.now }
    {
        first_named(&Code::all(), name)
    }

    // Returns whether this is the name of the code, in upper or lower case.
    fn is_named(self, name: &[u8]) -> bool
        ensures { result ≡ str_eq_ignore_ascii_case (name_of self) name.now }
    {
        is_same_name(self.name().as_bytes(), name)
    }

    // Returns what the code means, in one sentence.
    pub(crate) fn sentence(self) -> &'static str
        ensures { result.now ≡ sentence_of self }
    {
        match self {
            Code::Backwards => sentences::BACKWARDS,
            Code::BadBaseline => sentences::BAD_BASELINE,
            Code::BadBoolean => sentences::BAD_BOOLEAN,
            Code::BadCount => sentences::BAD_COUNT,
            Code::BadDelay => sentences::BAD_DELAY,
            Code::BadForm => sentences::BAD_FORM,
            Code::BadLeast => sentences::BAD_LEAST,
            Code::BadLength => sentences::BAD_LENGTH,
            Code::BadLimit => sentences::BAD_LIMIT,
            Code::BadLine => sentences::BAD_LINE,
            Code::BadName => sentences::BAD_NAME,
            Code::BadNumber => sentences::BAD_NUMBER,
            Code::BadSetting => sentences::BAD_SETTING,
            Code::BadSize => sentences::BAD_SIZE,
            Code::BadTabName => sentences::BAD_TAB_NAME,
            Code::BadTime => sentences::BAD_TIME,
            Code::BadTimerName => sentences::BAD_TIMER_NAME,
            Code::BadZone => sentences::BAD_ZONE,
            Code::BadZoneName => sentences::BAD_ZONE_NAME,
            Code::CarriageReturn => sentences::CARRIAGE_RETURN,
            Code::CronDiffers => sentences::CRON_DIFFERS,
            Code::CronIgnores => sentences::CRON_IGNORES,
            Code::Delayed => sentences::DELAYED,
            Code::Device => sentences::DEVICE,
            Code::EitherDay => sentences::EITHER_DAY,
            Code::EmptySpan => sentences::EMPTY_SPAN,
            Code::Fraction => sentences::FRACTION,
            Code::Full => sentences::FULL,
            Code::LineEnd => sentences::LINE_END,
            Code::MayStop => sentences::MAY_STOP,
            Code::Merged => sentences::MERGED,
            Code::Monotonic => sentences::MONOTONIC,
            Code::NeverStarts => sentences::NEVER_STARTS,
            Code::NoCommand => sentences::NO_COMMAND,
            Code::NoEvents => sentences::NO_EVENTS,
            Code::NoMemory => sentences::NO_MEMORY,
            Code::NoSuchDate => sentences::NO_SUCH_DATE,
            Code::NoSuchZone => sentences::NO_SUCH_ZONE,
            Code::NoTimerSection => sentences::NO_TIMER_SECTION,
            Code::NoUser => sentences::NO_USER,
            Code::NotSettled => sentences::NOT_SETTLED,
            Code::NotUtf8 => sentences::NOT_UTF8,
            Code::NothingNamed => sentences::NOTHING_NAMED,
            Code::OutOfRange => sentences::OUT_OF_RANGE,
            Code::OutOfYears => sentences::OUT_OF_YEARS,
            Code::Percent => sentences::PERCENT,
            Code::RangeFromEnd => sentences::RANGE_FROM_END,
            Code::SameName => sentences::SAME_NAME,
            Code::SkippedStarts => sentences::SKIPPED_STARTS,
            Code::Specifier => sentences::SPECIFIER,
            Code::SystemdRejects => sentences::SYSTEMD_REJECTS,
            Code::TimerRejected => sentences::TIMER_REJECTED,
            Code::TooLarge => sentences::TOO_LARGE,
            Code::TooMany => sentences::TOO_MANY,
            Code::TooManyLines => sentences::TOO_MANY_LINES,
            Code::TooManySteps => sentences::TOO_MANY_STEPS,
            Code::UnitIgnored => sentences::UNIT_IGNORED,
            Code::UnknownKey => sentences::UNKNOWN_KEY,
            Code::UnknownWord => sentences::UNKNOWN_WORD,
            Code::WrongParts => sentences::WRONG_PARTS,
            Code::ZeroStep => sentences::ZERO_STEP,
            Code::Zone => sentences::ZONE,
            Code::ZoneSetting => sentences::ZONE_SETTING,
        }
    }

    // Returns what the code means and what to do about it, in lines.
    pub(crate) fn text(self) -> &'static str
        ensures { result.now ≡ text_of self }
    {
        match self {
            Code::Backwards => rules::BACKWARDS,
            Code::BadBaseline => requests::BAD_BASELINE,
            Code::BadBoolean => warnings::BAD_BOOLEAN,
            Code::BadCount => requests::BAD_COUNT,
            Code::BadDelay => warnings::BAD_DELAY,
            Code::BadForm => requests::BAD_FORM,
            Code::BadLeast => requests::BAD_LEAST,
            Code::BadLength => requests::BAD_LENGTH,
            Code::BadLimit => requests::BAD_LIMIT,
            Code::BadLine => files::BAD_LINE,
            Code::BadName => rules::BAD_NAME,
            Code::BadNumber => rules::BAD_NUMBER,
            Code::BadSetting => files::BAD_SETTING,
            Code::BadSize => requests::BAD_SIZE,
            Code::BadTabName => files::BAD_TAB_NAME,
            Code::BadTime => requests::BAD_TIME,
            Code::BadTimerName => files::BAD_TIMER_NAME,
            Code::BadZone => requests::BAD_ZONE,
            Code::BadZoneName => requests::BAD_ZONE_NAME,
            Code::CarriageReturn => warnings::CARRIAGE_RETURN,
            Code::CronDiffers => warnings::CRON_DIFFERS,
            Code::CronIgnores => warnings::CRON_IGNORES,
            Code::Delayed => warnings::DELAYED,
            Code::Device => requests::DEVICE,
            Code::EitherDay => warnings::EITHER_DAY,
            Code::EmptySpan => requests::EMPTY_SPAN,
            Code::Fraction => rules::FRACTION,
            Code::Full => files::FULL,
            Code::LineEnd => warnings::LINE_END,
            Code::MayStop => warnings::MAY_STOP,
            Code::Merged => warnings::MERGED,
            Code::Monotonic => warnings::MONOTONIC,
            Code::NeverStarts => warnings::NEVER_STARTS,
            Code::NoCommand => files::NO_COMMAND,
            Code::NoEvents => warnings::NO_EVENTS,
            Code::NoMemory => requests::NO_MEMORY,
            Code::NoSuchDate => requests::NO_SUCH_DATE,
            Code::NoSuchZone => requests::NO_SUCH_ZONE,
            Code::NoTimerSection => files::NO_TIMER_SECTION,
            Code::NoUser => warnings::NO_USER,
            Code::NotSettled => requests::NOT_SETTLED,
            Code::NotUtf8 => files::NOT_UTF8,
            Code::NothingNamed => requests::NOTHING_NAMED,
            Code::OutOfRange => rules::OUT_OF_RANGE,
            Code::OutOfYears => requests::OUT_OF_YEARS,
            Code::Percent => warnings::PERCENT,
            Code::RangeFromEnd => warnings::RANGE_FROM_END,
            Code::SameName => files::SAME_NAME,
            Code::SkippedStarts => warnings::SKIPPED_STARTS,
            Code::Specifier => rules::SPECIFIER,
            Code::SystemdRejects => warnings::SYSTEMD_REJECTS,
            Code::TimerRejected => warnings::TIMER_REJECTED,
            Code::TooLarge => files::TOO_LARGE,
            Code::TooMany => requests::TOO_MANY,
            Code::TooManyLines => files::TOO_MANY_LINES,
            Code::TooManySteps => files::TOO_MANY_STEPS,
            Code::UnitIgnored => warnings::UNIT_IGNORED,
            Code::UnknownKey => warnings::UNKNOWN_KEY,
            Code::UnknownWord => rules::UNKNOWN_WORD,
            Code::WrongParts => rules::WRONG_PARTS,
            Code::ZeroStep => rules::ZERO_STEP,
            Code::Zone => rules::ZONE,
            Code::ZoneSetting => warnings::ZONE_SETTING,
        }
    }
}

// Returns whether two names are the same but for upper and lower case.
fn is_same_name(one: &[u8], other: &[u8]) -> bool
    ensures { result ≡ str_eq_ignore_ascii_case one.now other.now }
{
    one.eq_ignore_ascii_case(other)
}

/// A code lends its name.
impl AsStr for Code {
    ghost use Rattle.agenda_codes.specs.Codes.{name_of};

    ghost text = { name_of };

    fn as_str(&self) -> &str {
        self.name()
    }
}

// Returns the first of these codes that has this name, in upper or lower case.
fn first_named(codes: &[Code], name: &[u8]) -> Option<Code>
    ensures { result ≡ first_named name.now codes.now }
{
    codes.iter().find(|code| code.is_named(name)).copied()
}
