//! The kinds of sources: one table with the option, the label and the names of each kind.

ghost use Rattle.std.specs.Prelude.{◌≡◌, Bool, false, option_map};
ghost use Rattle.std.specs.List.{list_all};
ghost use Rattle.plan_rules.specs.SourceKind.{is_many, is_package_byte, is_package_name, is_user_byte, is_user_name, kinds, label_of, name_cause, option_of};

use crate::line_fault::LineCause;
use crate::timers::is_timer_name;

/// A kind of source. A plan reads its sources in the order of their kinds.
#[derive(Clone, Copy, Debug, PartialEq, Eq)]
pub enum SourceKind {
    /// A user's crontab (crontab(5)).
    Crontab,
    /// The system's crontab: a user precedes each command.
    System,
    /// The crontab of a package, in /etc/cron.d: a user precedes each command (cron(8) of Debian).
    CronD,
    /// The crontab of a user, in the spool directory (cron(8) of Debian).
    Spool,
    /// A timer file (systemd.timer(5)).
    Timer,
}

impl SourceKind {
    /// Returns all kinds, in their order.
    pub fn all() -> [SourceKind; 5]
        ensures { result ≡ kinds }
    {
        [
            SourceKind::Crontab,
            SourceKind::System,
            SourceKind::CronD,
            SourceKind::Spool,
            SourceKind::Timer,
        ]
    }

    /// Returns the name of the option, or of the argument, that gives the path of a source.
    pub fn option(self) -> &'static str
        ensures { result.now ≡ option_of self }
    {
        match self {
            SourceKind::Crontab => "crontab",
            SourceKind::System => "system-crontab",
            SourceKind::CronD => "cron-d",
            SourceKind::Spool => "spool",
            SourceKind::Timer => "timer",
        }
    }

    /// Returns the label in error lines, for a kind of which a plan has at most one source.
    ///
    /// Sources of the other kinds are identified by their names.
    pub fn label(self) -> Option<&'static str>
        ensures { option_map (λ label. label.now) result ≡ label_of self }
    {
        match self {
            SourceKind::Crontab => Some("crontab"),
            SourceKind::System => Some("system crontab"),
            SourceKind::CronD | SourceKind::Spool | SourceKind::Timer => None,
        }
    }

    /// Returns whether a plan may have more than one source of this kind.
    pub fn is_many(self) -> bool
        ensures { result ≡ is_many self }
    {
        self.label().is_none()
    }

    /// Returns what is wrong with the name of a file of this kind: `BadTabName` or `BadTimerName`.
    ///
    /// The name of a crontab in /etc/cron.d isn't empty, and has only letters, digits, `_` and `-`. In the spool
    /// directory it may also have `.`, but not as its first character (cron(8) of Debian). For a timer see
    /// `is_timer_name`. A source that is identified by its label may have any name.
    pub fn name_cause(self, name: &str) -> Option<LineCause>
        ensures { result ≡ name_cause self name.now }
    {
        match self {
            SourceKind::Crontab | SourceKind::System => None,
            SourceKind::CronD if is_package_name(name.as_bytes()) => None,
            SourceKind::Spool if is_user_name(name.as_bytes()) => None,
            SourceKind::CronD | SourceKind::Spool => Some(LineCause::BadTabName),
            SourceKind::Timer if is_timer_name(name) => None,
            SourceKind::Timer => Some(LineCause::BadTimerName),
        }
    }
}

// Returns whether a crontab in /etc/cron.d may have this name.
#[tactic(auto, unfolding(crate::specs::SourceKind::is_package_name))]
fn is_package_name(name: &[u8]) -> bool
    ensures { result ≡ is_package_name name.now }
{
    !name.is_empty() && are_package_bytes(name)
}

// Returns whether the name of a package's crontab may have these bytes.
fn are_package_bytes(bytes: &[u8]) -> bool
    ensures { result ≡ list_all is_package_byte bytes.now }
{
    bytes.iter().all(|byte| is_package_byte(*byte))
}

// Returns whether the name of a package's crontab may have this byte.
fn is_package_byte(byte: u8) -> bool
    ensures { result ≡ is_package_byte byte }
{
    byte.is_ascii_alphabetic() || byte.is_ascii_digit() || matches!(byte, b'_' | b'-')
}

// Returns whether a crontab in the spool directory may have this name.
#[tactic(auto, unfolding(crate::specs::SourceKind::is_user_name))]
fn is_user_name(name: &[u8]) -> bool
    ensures { result ≡ is_user_name name.now }
{
    match name {
        [first, rest @ ..] => is_package_byte(*first) && are_user_bytes(rest),
        [] => false,
    }
}

// Returns whether the name of a user's crontab may have these bytes after its first.
fn are_user_bytes(bytes: &[u8]) -> bool
    ensures { result ≡ list_all is_user_byte bytes.now }
{
    bytes.iter().all(|byte| is_user_byte(*byte))
}

// Returns whether the name of a user's crontab may have this byte after its first.
fn is_user_byte(byte: u8) -> bool
    ensures { result ≡ is_user_byte byte }
{
    is_package_byte(byte) || byte == b'.'
}
