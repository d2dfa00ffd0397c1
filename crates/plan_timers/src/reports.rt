//! What is skipped on a machine, what starts jobs there but isn't planned, and why.

ghost use Rattle.std.specs.Prelude.{◌≡◌, ◌++◌, IfOk};
ghost use Rattle.plan_timers.specs.Reports.{is_unknown, is_unknown_skip, unplanned_text, why_text};

use plan_texts::Text;
use std::alloc::{AllocError, Global};

/// Why something is skipped.
#[derive(Debug, Drop)]
pub enum Why {
    /// The entry of a directory of links is neither a mask nor a link.
    NoLink,
    /// A source can't have the name.
    BadName,
    /// The name of an instance has a `\`, or that of a user has other characters than graphic ones of ASCII.
    Escape,
    /// The timer has no file.
    NoSuchTimer,
    /// It is a mask.
    Masked,
    /// It leads to no regular file that can be read, or to no directory that can be listed and searched.
    NotReadable,
    /// An earlier source has the name.
    NameTaken,
    /// The directory has a name that isn't UTF-8. Its other names are read.
    NotUtf8,
    /// The timer is wanted by this unit alone, which the boot does not start. Something else may start the unit.
    WantedBy(Text),
}

impl Why {
    /// Returns the reason as it is printed.
    ///
    /// # Errors
    ///
    /// `AllocError` if an allocation fails.
    pub fn text(&self, alloc: Global) -> Result<Text, AllocError>
        ensures { IfOk result (λ text. text ≡ why_text self.now) }
    {
        match self {
            Why::NoLink => copy_of(alloc, "no link"),
            Why::BadName => copy_of(alloc, "bad name"),
            Why::Escape => copy_of(alloc, "escape"),
            Why::NoSuchTimer => copy_of(alloc, "no such timer"),
            Why::Masked => copy_of(alloc, "masked"),
            Why::NotReadable => copy_of(alloc, "not readable"),
            Why::NameTaken => copy_of(alloc, "name taken"),
            Why::NotUtf8 => copy_of(alloc, "a name that isn't UTF-8"),
            Why::WantedBy(unit) => around(alloc, "may be started by ", unit.as_str(), ""),
        }
    }

    /// Returns whether what is skipped may start jobs at times that can't be told from the files. The rest surely starts nothing,
    /// by a rule of cron or systemd.
    pub fn is_unknown(&self) -> bool
        ensures { result ≡ is_unknown_skip self.now }
    {
        matches!(
            self,
            Why::Escape | Why::NotReadable | Why::NameTaken | Why::NotUtf8 | Why::WantedBy(_)
        )
    }
}

/// Something that is skipped.
#[derive(Debug, Drop)]
pub struct Skipped {
    /// Its path.
    pub path: Text,
    /// Why it is skipped.
    pub why: Why,
}

/// Why something that starts jobs isn't planned.
#[derive(Debug, Drop)]
pub enum Unplanned {
    /// It is the table of anacron.
    Anacron,
    /// The timer starts by the setting with this key alone, such as `OnBootSec`, at times that no file tells.
    StartsBy(Text),
    /// The timer also starts by the setting with this key. Its events, if it has any, are planned.
    AlsoStartsBy(Text),
    /// The directory has jobs of at.
    AtJobs,
    /// The directory has timers of a user.
    UserTimers,
    /// The timer is one of the user with this name, who doesn't linger: it starts only while the user is logged in.
    NotLingering(Text),
    /// The unit that the timer starts has no file.
    UnitMissing(Text),
    /// The unit that the timer starts is masked.
    UnitMasked(Text),
    /// The service that the timer starts has no command.
    UnitIdle(Text),
    /// The daemon that reads the file doesn't load it, for this reason.
    NotLoaded(Text),
    /// The same for what has this line, or for the whole file because of this line.
    LineNotLoaded(u32, Text),
    /// What has this line may start, and when isn't known, for this reason.
    LineUnknown(u32, Text),
    /// The command of this line runs nothing that has an effect, for this reason.
    Idle(u32, Text),
}

impl Unplanned {
    /// Returns the reason as it is printed.
    ///
    /// # Errors
    ///
    /// `AllocError` if an allocation fails.
    pub fn text(&self, alloc: Global) -> Result<Text, AllocError>
        ensures { IfOk result (λ text. text ≡ unplanned_text self.now) }
    {
        match self {
            Unplanned::Anacron => copy_of(alloc, "anacron starts jobs by days since they ran"),
            Unplanned::StartsBy(key) => around(alloc, "starts by ", key.as_str(), "="),
            Unplanned::AlsoStartsBy(key) => around(alloc, "also starts by ", key.as_str(), "="),
            Unplanned::AtJobs => copy_of(alloc, "jobs of at"),
            Unplanned::UserTimers => copy_of(alloc, "user timers"),
            Unplanned::NotLingering(user) => {
                around(alloc, "user ", user.as_str(), " does not linger")
            }
            Unplanned::UnitMissing(unit) => {
                around(alloc, "its unit ", unit.as_str(), " is missing")
            }
            Unplanned::UnitMasked(unit) => around(alloc, "its unit ", unit.as_str(), " is masked"),
            Unplanned::UnitIdle(unit) => {
                around(alloc, "its unit ", unit.as_str(), " has no ExecStart=")
            }
            Unplanned::NotLoaded(why) => copy_of(alloc, why.as_str()),
            Unplanned::LineNotLoaded(_, why) => copy_of(alloc, why.as_str()),
            Unplanned::LineUnknown(_, why) => copy_of(alloc, why.as_str()),
            Unplanned::Idle(_, why) => copy_of(alloc, why.as_str()),
        }
    }

    /// Returns whether it may start, and when can't be told from the files. The rest surely starts nothing, by a rule of cron,
    /// systemd or sh.
    pub fn is_unknown(&self) -> bool
        ensures { result ≡ is_unknown self.now }
    {
        matches!(
            self,
            Unplanned::Anacron
                | Unplanned::StartsBy(_)
                | Unplanned::AlsoStartsBy(_)
                | Unplanned::AtJobs
                | Unplanned::UserTimers
                | Unplanned::LineUnknown(..)
        )
    }
}

/// Something that starts jobs but isn't planned.
#[derive(Debug, Drop)]
pub struct NotPlanned {
    /// Its path.
    pub path: Text,
    /// Why it isn't planned.
    pub why: Unplanned,
}

/// Returns a copy of a text.
///
/// # Errors
///
/// `AllocError` if an allocation fails.
pub fn copy_of(alloc: Global, text: &str) -> Result<Text, AllocError>
    ensures { IfOk result (λ copy. copy ≡ text.now) }
{
    Ok(Text::new(String::from_str(alloc, text)?))
}

// Returns a name with a text before and a text after it.
fn around(alloc: Global, front: &str, name: &str, back: &str) -> Result<Text, AllocError>
    ensures { IfOk result (λ whole. whole ≡ front.now ++ name.now ++ back.now) }
{
    let mut whole = String::from_str(alloc, front)?;
    whole.push_str(name)?;
    whole.push_str(back)?;
    Ok(Text::new(whole))
}
