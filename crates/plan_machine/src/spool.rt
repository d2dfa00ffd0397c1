//! The crontabs of users.

ghost use Rattle.std.specs.Prelude.{◌≡◌, true, IfOk};
ghost use Rattle.plan_rules.specs.declared.source_kind.SourceKind.TheVariants.{Spool};
ghost use Rattle.plan_machine.specs.Collection.{with_file};
ghost use Rattle.plan_machine.specs.Files.{file_at};
ghost use Rattle.plan_machine.specs.Spool.{is_closed, is_cut_name, is_graphic_name, is_name_of, is_spool, spool_name, spool_of, spool_parent, user_name, with_spool, with_spool_in, with_user, with_users};

use crate::collection::{MachineSources, has_package};
use crate::directories::{can_search, is_directory, is_directory_at, look, read_directory};
use crate::files::{file_at, is_file, lead_of};
use crate::source::MachineSource;
use plan_rules::SourceKind;
use plan_texts::Text;
use plan_timers::{Why, copy_of};
use plan_tree::{End, Name, Place, Tree};
use std::alloc::{AllocError, Global};

// The directory of the users' crontabs.
#[derive(Clone, Copy)]
enum SpoolDir {
    // That of Debian: var/spool/cron/crontabs.
    Debian,
    // That of SUSE: var/spool/cron/tabs.
    Suse,
    // That of Fedora and Arch: var/spool/cron.
    Fedora,
}

impl SpoolDir {
    // Returns the directory that it is in.
    fn parent(self) -> &'static str
        ensures { result.now ≡ spool_parent self }
    {
        match self {
            SpoolDir::Debian | SpoolDir::Suse => "var/spool/cron",
            SpoolDir::Fedora => "var/spool",
        }
    }

    // Returns its name.
    fn name(self) -> &'static str
        ensures { result.now ≡ spool_name self }
    {
        match self {
            SpoolDir::Debian => "crontabs",
            SpoolDir::Suse => "tabs",
            SpoolDir::Fedora => "cron",
        }
    }
}

// Adds the crontabs of users.
pub(crate) fn with_spool<T: Tree>(
    alloc: Global,
    tree: &T,
    most: u64,
    all: MachineSources,
) -> Result<MachineSources, AllocError>
    ensures { T.is_known ≡ true → IfOk result (λ new. new ≡ with_spool (T.held tree.now) most all) }
{
    let spool = spool_of(alloc, tree)?;
    with_spool_in(alloc, tree, most, all, spool.parent(), spool.name())
}

// Returns the directory of the users' crontabs.
fn spool_of<T: Tree>(alloc: Global, tree: &T) -> Result<SpoolDir, AllocError>
    ensures { T.is_known ≡ true → IfOk result (λ spool. spool ≡ spool_of (T.held tree.now).node) }
{
    let whole = look(alloc, tree, "var/spool", "cron")?;
    if is_closed(alloc, tree, &whole)? {
        return Ok(SpoolDir::Fedora);
    }
    let debian = look(alloc, tree, "var/spool/cron", "crontabs")?;
    if is_spool(alloc, tree, &debian)? {
        return Ok(SpoolDir::Debian);
    }
    let suse = look(alloc, tree, "var/spool/cron", "tabs")?;
    if is_spool(alloc, tree, &suse)? {
        return Ok(SpoolDir::Suse);
    }
    Ok(SpoolDir::Fedora)
}

// Returns whether a path leads to a directory that can't be searched.
#[tactic(auto, unfolding(crate::specs::Spool::is_closed))]
fn is_closed<T: Tree>(alloc: Global, tree: &T, end: &End) -> Result<bool, AllocError>
    ensures { T.is_known ≡ true → IfOk result (λ is. is ≡ is_closed (T.held tree.now).node end.now) }
{
    match end {
        End::Found(path) => {
            if !is_directory(&tree.node(alloc, path.as_str())?) {
                return Ok(false);
            }
            Ok(!can_search(alloc, tree, path.as_str())?)
        }
        End::Nothing | End::Unknown => Ok(false),
    }
}

// Returns whether what is at the end of a path counts as the directory of the users' crontabs.
#[tactic(auto, unfolding(crate::specs::Spool::is_spool))]
fn is_spool<T: Tree>(alloc: Global, tree: &T, end: &End) -> Result<bool, AllocError>
    ensures { T.is_known ≡ true → IfOk result (λ is. is ≡ is_spool (T.held tree.now).node end.now) }
{
    match end {
        End::Found(path) => Ok(!is_file(&tree.node(alloc, path.as_str())?)),
        End::Nothing => Ok(false),
        End::Unknown => Ok(true),
    }
}

// Adds the crontabs of users in a directory.
fn with_spool_in<T: Tree>(
    alloc: Global,
    tree: &T,
    most: u64,
    all: MachineSources,
    dir: &str,
    name: &str,
) -> Result<MachineSources, AllocError>
    ensures { T.is_known ≡ true → IfOk result (λ new.
        new ≡ with_spool_in (T.held tree.now) most all dir.now name.now) }
{
    let path = Place::at(alloc, dir)?.child(alloc, name)?;
    let end = look(alloc, tree, dir, name)?;
    let (all, names) = read_directory(alloc, tree, all, path.as_str(), &end)?;
    with_users(alloc, tree, most, path.as_str(), all, names.as_slice())
}

// Adds the crontabs of users with these names.
fn with_users<T: Tree>(
    alloc: Global,
    tree: &T,
    most: u64,
    dir: &str,
    all: MachineSources,
    names: &[Name],
) -> Result<MachineSources, AllocError>
    ensures { T.is_known ≡ true → IfOk result (λ new.
        new ≡ with_users (T.held tree.now) most dir.now names.now all names.now) }
{
    let mut all = all;
    for name in names {
        all = with_user(alloc, tree, most, dir, names, all, name.as_str())?;
    }
    Ok(all)
}

// Adds the crontab of a user. `names` are all names in the directory.
fn with_user<T: Tree>(
    alloc: Global,
    tree: &T,
    most: u64,
    dir: &str,
    names: &[Name],
    all: MachineSources,
    name: &str,
) -> Result<MachineSources, AllocError>
    ensures { T.is_known ≡ true → IfOk result (λ new.
        new ≡ with_user (T.held tree.now) most dir.now names.now all name.now) }
{
    let path = Place::at(alloc, dir)?.child(alloc, name)?;
    let end = lead_of(alloc, tree, path.as_str())?;
    if dir == "var/spool/cron" && is_directory_at(alloc, tree, &end)? {
        return Ok(all);
    }
    if is_cut_name(name.as_bytes()) {
        return all.with_skipped(alloc, path.as_str(), Why::BadName);
    }
    if !is_graphic_name(name.as_bytes()) {
        return all.with_skipped(alloc, path.as_str(), Why::Escape);
    }
    let given = user_name(alloc, all.found(), names, name)?;
    with_user_file(alloc, tree, most, path.as_str(), &end, all, given.as_str())
}

// Returns whether no user can have a name: it has a byte that ends a name in etc/passwd.
fn is_cut_name(name: &[u8]) -> bool
    ensures { result ≡ is_cut_name name.now }
{
    name.iter().any(|byte| *byte == b':' || *byte == b'\n')
}

// Returns whether the names of jobs can begin with a name.
fn is_graphic_name(name: &[u8]) -> bool
    ensures { result ≡ is_graphic_name name.now }
{
    name.iter().all(|byte| byte.is_ascii_graphic())
}

// Adds the crontab of a user, by the path that leads to its file and the name that its jobs get.
fn with_user_file<T: Tree>(
    alloc: Global,
    tree: &T,
    most: u64,
    path: &str,
    end: &End,
    all: MachineSources,
    given: &str,
) -> Result<MachineSources, AllocError>
    ensures { T.is_known ≡ true → IfOk result (λ new.
        new ≡ with_file all Spool path.now given.now (file_at (T.held tree.now) most path.now end.now)) }
{
    let file = file_at(alloc, tree, most, path, end)?;
    all.with_file(alloc, SourceKind::Spool, path, given, file)
}

// Returns the name that the jobs of a user's crontab get.
fn user_name(
    alloc: Global,
    sources: &[MachineSource],
    names: &[Name],
    name: &str,
) -> Result<Text, AllocError>
    ensures { IfOk result (λ given. given ≡ user_name sources.now names.now name.now) }
{
    let mut longer = String::from_str(alloc, name)?;
    longer.push_str(".user")?;
    if has_package(sources, name) && !is_name_of(longer.as_str(), names) {
        Ok(Text::new(longer))
    } else {
        copy_of(alloc, name)
    }
}

// Returns whether an entry has a name.
fn is_name_of(name: &str, names: &[Name]) -> bool
    ensures { result ≡ is_name_of name.now names.now }
{
    names.iter().any(|other| other.as_str() == name)
}
