//! A finding: an error or a warning, of a line or of a whole file.

ghost use Rattle.std.specs.Prelude.{◌≡◌};
ghost use Rattle.plan_check.specs.Finding.{warning_name};

use plan_rules::LineCause;
use plan_texts::Text;

/// A warning: something valid that may not be what was meant.
#[derive(Clone, Copy, Debug, PartialEq, Eq)]
pub enum Warning {
    /// A rule of a crontab, or an event of a timer, has no start from 1970 to 2999.
    NeverStarts,
    /// Both day fields of a rule are restricted, so either is enough (crontab(5)).
    EitherDay,
    /// The list of a timer's events is empty at the end of the file (systemd.timer(5)).
    NoEvents,
    /// The command of a crontab's line has a `%` that doesn't follow a backslash, so cron ends it there (crontab(5)).
    Percent,
    /// The command of a crontab's line ends with a carriage return.
    CarriageReturn,
    /// A crontab's setting is that of a zone, `CRON_TZ`, which only cronie reads.
    ZoneSetting,
    /// systemd 252 may pass over starts of an event of a timer, since a step of the event has no end.
    SkippedStarts,
    /// The key of a setting in a `[Timer]` section isn't one of systemd.timer(5).
    UnknownKey,
    /// The value of `RandomizedDelaySec=` or `AccuracySec=` isn't a time span (systemd.time(7)), so it is ignored.
    BadDelay,
    /// The value of `Persistent=` isn't a boolean, so it is ignored (systemd.timer(5)).
    BadBoolean,
    /// The timer also starts by `OnBootSec=` or the like, which isn't planned (systemd.timer(5)).
    Monotonic,
    /// The timer starts later than planned, by up to the value of `RandomizedDelaySec=` (systemd.timer(5)).
    Delayed,
    /// systemd 252 rejects an event of a timer.
    SystemdRejects,
    /// systemd 252 reads a range of days from the month's end otherwise.
    RangeFromEnd,
    /// systemd 252 may stop for good at an event, in a zone whose clock changes.
    MayStop,
    /// Starts of a timer are so close together that systemd may merge them (systemd.timer(5), `AccuracySec=`).
    Merged,
    /// Debian's cron ignores the whole crontab.
    CronIgnores,
    /// Debian's cron reads a line of a crontab otherwise.
    CronDiffers,
    /// The user of a line of a system's crontab can't be the name of a user.
    NoUser,
    /// systemd 252 rejects the whole timer.
    TimerRejected,
    /// systemd 252 ignores the value of `Unit=` (systemd.timer(5)).
    UnitIgnored,
    /// systemd ends a line of a timer earlier, at a carriage return or a NUL byte.
    LineEnd,
}

/// The error or the warning of a finding.
#[derive(Clone, Copy, Debug, PartialEq, Eq)]
pub enum FindingKind {
    /// The line, or the whole file, is rejected. The cause is never `NoMemory`.
    Rejected(LineCause),
    /// Another job has the job's name.
    SameName,
    /// There are 1,000 jobs already, so the job isn't added.
    Full,
    /// The text is valid, and may not be what was meant.
    Warned(Warning),
    /// The same, but it was requested that the warning is an error. No function of this crate returns it.
    Denied(Warning),
}

/// A finding of a line, or of a whole file.
///
/// - An error of a crontab's rule quotes the field that it is about, or the first word if it is about no field.
/// - An error of an event, `SkippedStarts`, `SystemdRejects`, `RangeFromEnd` and `MayStop` quote the value of `OnCalendar=`.
/// - `SameName` quotes the name of the job, `UnknownKey` the key, `BadDelay` and `BadBoolean` the value, and `Delayed` the last
///   value of `RandomizedDelaySec=` that is a time span. `NoUser` quotes the user, and `UnitIgnored` the value.
/// - The other findings quote nothing.
#[derive(Debug, Drop)]
pub struct Finding {
    /// The line, from 1. The whole file is 0.
    pub line: u32,
    /// The error or the warning.
    pub kind: FindingKind,
    /// The text that the message quotes. `None` if it quotes nothing.
    pub quote: Option<Text>,
    /// What the message ends with: a reason, or what to write instead. `None` if it ends with nothing.
    pub detail: Option<Text>,
}

impl Warning {
    /// Returns the warning's name, which the line of the finding shows.
    pub fn name(&self) -> &'static str
        ensures { result.now ≡ warning_name self.now }
    {
        match self {
            Warning::NeverStarts => "NeverStarts",
            Warning::EitherDay => "EitherDay",
            Warning::NoEvents => "NoEvents",
            Warning::Percent => "Percent",
            Warning::CarriageReturn => "CarriageReturn",
            Warning::ZoneSetting => "ZoneSetting",
            Warning::SkippedStarts => "SkippedStarts",
            Warning::UnknownKey => "UnknownKey",
            Warning::BadDelay => "BadDelay",
            Warning::BadBoolean => "BadBoolean",
            Warning::Monotonic => "Monotonic",
            Warning::Delayed => "Delayed",
            Warning::SystemdRejects => "SystemdRejects",
            Warning::RangeFromEnd => "RangeFromEnd",
            Warning::MayStop => "MayStop",
            Warning::Merged => "Merged",
            Warning::CronIgnores => "CronIgnores",
            Warning::CronDiffers => "CronDiffers",
            Warning::NoUser => "NoUser",
            Warning::TimerRejected => "TimerRejected",
            Warning::UnitIgnored => "UnitIgnored",
            Warning::LineEnd => "LineEnd",
        }
    }
}
