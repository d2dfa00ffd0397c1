//! The crontabs of a machine whose file Debian's cron ignores, by what `check` can't see.

ghost use Rattle.std.specs.Prelude.{◌≡◌, [], ◌≤◌, true, IfOk, length, map};
ghost use Rattle.std.specs.Option.{option_map};
ghost use Rattle.plan_owners.specs.Crontabs.{file_why, ignored_for, ignored_why, known_user_why, missing_by, missing_from, missing_in, missing_of, missing_on, missing_user, no_user, owners_of, system_why, user_file_why, user_why};
ghost use Rattle.plan_rules.specs.Crontab.{line_reading};
ghost use Rattle.plan_rules.specs.FileText.{text_reading};
ghost use Rattle.plan_rules.specs.declared.crontabs.Kind.TheVariants as whose;
ghost use Rattle.plan_texts.specs.Limits.{most_bytes};

use crate::daemon::{CronDaemon, Daemon};
use crate::file_faults::{FileFault, fault_text, system_fault, user_fault};
use crate::looks::look_at;
use crate::paths::name_of_path;
use crate::users::{User, names_of, number_of};
use plan_parts::Part;
use plan_rules::{Kind, Names, SourceKind, crontab_entry, text_of};
use plan_texts::Text;
use plan_texts::lines::lines;
use plan_tree::Tree;
use std::alloc::{AllocError, Global};

/// Why a file is ignored.
#[derive(Debug, Drop)]
pub struct Ignored {
    /// The number of the line for which it is ignored, if it is one line.
    pub line: Option<u32>,
    /// The reason, as it is printed.
    pub why: Text,
}

/// Returns why the program that reads the crontabs of a machine ignores the file of a crontab of this kind, for what its text
/// doesn't say; `None` if it may read it.
///
/// Debian's cron (cron 3.0pl1) ignores a file for its owner, its mode, its links, and for a user who doesn't exist, whose name it
/// has or names. Owners and modes count if root owns the root directory. Other programs ignore nothing.
///
/// # Errors
///
/// `AllocError` if an allocation fails.
#[tactic(auto, unfolding(crate::specs::Crontabs::file_why))]
pub fn file_why<T: Tree>(
    alloc: Global,
    tree: &T,
    daemon: &Daemon,
    kind: SourceKind,
    file: &Part,
) -> Result<Option<Ignored>, AllocError>
    ensures { T.is_known ≡ true → IfOk result (λ why. why ≡ file_why (T.held tree.now) daemon.now kind file.now) }
{
    match daemon.program() {
        CronDaemon::Debian => ignored_why(alloc, tree, daemon, kind, file),
        CronDaemon::Cronie | CronDaemon::Other => Ok(None),
    }
}

// Returns why Debian's cron ignores the file of a crontab of this kind.
fn ignored_why<T: Tree>(
    alloc: Global,
    tree: &T,
    daemon: &Daemon,
    kind: SourceKind,
    file: &Part,
) -> Result<Option<Ignored>, AllocError>
    ensures { T.is_known ≡ true → IfOk result (λ why. why ≡ ignored_why (T.held tree.now) daemon.now kind file.now) }
{
    match kind {
        SourceKind::System | SourceKind::CronD => system_why(alloc, tree, daemon, file),
        SourceKind::Spool => user_why(alloc, tree, daemon, file.path()),
        SourceKind::Crontab | SourceKind::Timer => Ok(None),
    }
}

// Returns why Debian's cron ignores etc/crontab or a file in etc/cron.d.
#[tactic(auto, unfolding(crate::specs::Crontabs::system_why))]
fn system_why<T: Tree>(
    alloc: Global,
    tree: &T,
    daemon: &Daemon,
    file: &Part,
) -> Result<Option<Ignored>, AllocError>
    ensures { T.is_known ≡ true → IfOk result (λ why. why ≡ system_why (T.held tree.now) daemon.now file.now) }
{
    let look = look_at(alloc, tree, file.path())?;
    match system_fault(daemon.owners_count(), look) {
        Some(fault) => Ok(Some(ignored_for(alloc, "root", fault)?)),
        None => missing_of(alloc, daemon.users(), file.bytes()),
    }
}

// Returns why Debian's cron ignores the file of a user.
#[tactic(auto, unfolding(crate::specs::Crontabs::user_why))]
fn user_why<T: Tree>(
    alloc: Global,
    tree: &T,
    daemon: &Daemon,
    path: &str,
) -> Result<Option<Ignored>, AllocError>
    ensures { T.is_known ≡ true → IfOk result (λ why. why ≡ user_why (T.held tree.now) daemon.now path.now) }
{
    let counts = daemon.owners_count();
    match daemon.users() {
        None => user_file_why(alloc, tree, counts, None, path),
        Some(users) => {
            let name = name_of_path(alloc, path)?;
            known_user_why(alloc, tree, counts, number_of(users, name), path)
        }
    }
}

// Returns why Debian's cron ignores the file of a user, by the user's number.
fn known_user_why<T: Tree>(
    alloc: Global,
    tree: &T,
    counts: bool,
    number: Option<&str>,
    path: &str,
) -> Result<Option<Ignored>, AllocError>
    ensures { T.is_known ≡ true → IfOk result (λ why.
        why ≡ known_user_why (T.held tree.now) counts (option_map (λ number. number.now) number.entry) path.now) }
{
    match number {
        None => {
            let name = name_of_path(alloc, path)?;
            Ok(Some(Ignored {
                line: None,
                why: no_user(alloc, name)?,
            }))
        }
        Some(number) => user_file_why(alloc, tree, counts, Some(number), path),
    }
}

// Returns why Debian's cron ignores the file of a user whose number is known or not.
fn user_file_why<T: Tree>(
    alloc: Global,
    tree: &T,
    counts: bool,
    number: Option<&str>,
    path: &str,
) -> Result<Option<Ignored>, AllocError>
    ensures { T.is_known ≡ true → IfOk result (λ why.
        why ≡ user_file_why (T.held tree.now) counts (option_map (λ number. number.now) number.entry) path.now) }
{
    let look = look_at(alloc, tree, path)?;
    match user_fault(alloc, counts, number, look)? {
        Some(fault) => {
            let owners = owners_of(alloc, name_of_path(alloc, path)?)?;
            Ok(Some(ignored_for(alloc, owners.as_str(), fault)?))
        }
        None => Ok(None),
    }
}

// Returns the owners that the file of a user may have.
fn owners_of(alloc: Global, name: &str) -> Result<Text, AllocError>
    ensures { IfOk result (λ owners. owners ≡ owners_of name.now) }
{
    let mut owners = String::from_str(alloc, name)?;
    owners.push_str(" or root")?;
    Ok(Text::new(owners))
}

// Returns that a file is ignored for what is wrong with it.
fn ignored_for(alloc: Global, owner: &str, fault: FileFault) -> Result<Ignored, AllocError>
    ensures { IfOk result (λ why. why ≡ ignored_for owner.now fault) }
{
    let text = fault_text(alloc, owner, fault)?;
    let mut why = String::from_str(alloc, "cron ignores this file: ")?;
    why.push_str(text.as_str())?;
    Ok(Ignored {
        line: None,
        why: Text::new(why),
    })
}

// Returns that a user doesn't exist.
fn no_user(alloc: Global, user: &str) -> Result<Text, AllocError>
    ensures { IfOk result (λ why. why ≡ no_user user.now) }
{
    let mut why = String::from_str(alloc, "user '")?;
    why.push_str(user)?;
    why.push_str("' does not exist: cron ignores this file")?;
    Ok(Text::new(why))
}

// Returns the first line with a user who doesn't exist in the text of a crontab of the system.
fn missing_of(
    alloc: Global,
    users: Option<&[User]>,
    bytes: &[u8],
) -> Result<Option<Ignored>, AllocError>
    ensures { IfOk result (λ why. why ≡ missing_of (option_map (λ all. all.now) users.entry) bytes.now) }
{
    let Some(users) = users else {
        return Ok(None);
    };
    let names = names_of(alloc, users)?;
    missing_by(alloc, &names, bytes)
}

// Returns the same by the names of the users.
fn missing_by(alloc: Global, names: &Names, bytes: &[u8]) -> Result<Option<Ignored>, AllocError>
    ensures { IfOk result (λ why. why ≡ missing_by names.now (text_reading bytes.now)) }
{
    let Ok(text) = text_of(bytes) else {
        return Ok(None);
    };
    let lines = lines(alloc, text)?;
    missing_from(alloc, names, lines.as_slice())
}

// Returns the same for some lines.
fn missing_from(alloc: Global, names: &Names, lines: &[&str]) -> Result<Option<Ignored>, AllocError>
    requires { length lines.now ≤ most_bytes }
    ensures { IfOk result (λ why. why ≡ missing_from names.now 1 (map (λ line. line.now) lines.now)) }
{
    for (place, line) in lines.iter().enumerate() {
        if let Some(why) = missing_on(alloc, names, place as u32 + 1, line)? {
            return Ok(Some(why));
        }
    }
    Ok(None)
}

// Returns the same for one line.
fn missing_on(
    alloc: Global,
    names: &Names,
    number: u32,
    line: &str,
) -> Result<Option<Ignored>, AllocError>
    ensures { IfOk result (λ why. why
        ≡ missing_on number (missing_in names.now (line_reading [] whose.System number line.now))) }
{
    let Some(entry) = crontab_entry(alloc, "", Kind::System, number, line)? else {
        return Ok(None);
    };
    let Ok(job) = entry.read else {
        return Ok(None);
    };
    match missing_user(names, job.user()) {
        Some(user) => Ok(Some(Ignored {
            line: Some(number),
            why: no_user(alloc, user)?,
        })),
        None => Ok(None),
    }
}

// Returns the user of a job, if no user has that name.
fn missing_user<'a>(names: &Names, user: Option<&'a str>) -> Option<&'a str>
    ensures { option_map (λ user. user.now) result ≡ missing_user names.now (option_map (λ user. user.now) user.entry) }
{
    match user {
        Some(user) if !names.contains(user) => Some(user),
        _ => None,
    }
}
