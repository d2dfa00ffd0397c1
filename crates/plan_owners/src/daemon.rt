//! The program that reads the crontabs of a machine, and the users that it knows.

ghost use Rattle.std.specs.Prelude.{◌≡◌, true, IfOk};
ghost use Rattle.plan_owners.specs.Daemon.{daemon_of, program_of};

use crate::looks::owners_count;
use crate::paths::{is_file_at, lead_of};
use crate::users::{User, users_of};
use plan_tree::Tree;
use std::alloc::{AllocError, Global};
use std::marker::Model;

/// A program that reads crontabs.
#[derive(Clone, Copy, Debug, PartialEq, Eq)]
pub enum CronDaemon {
    /// Debian's cron: usr/sbin/cron is there.
    Debian,
    /// That of cronie: usr/sbin/crond is there, and usr/sbin/cron isn't.
    Cronie,
    /// Another one, or none.
    Other,
}

/// The program that reads the crontabs of a machine, and the users that it knows.
#[derive(Debug, Drop)]
pub struct Daemon {
    program: CronDaemon,
    users: Option<Vec<User>>,
    owners_count: bool,
}

impl Model for Daemon {
    ghost use Rattle.std.specs.Option.{option_map};
    ghost use Rattle.plan_owners.specs.Daemon.{KnownDaemon};

    ghost Value = { KnownDaemon };

    ghost view = { λ daemon. record {
      program = daemon.program;
      users = option_map (λ all. all.items) daemon.users;
      owners_count = daemon.owners_count;
    } };
}

impl Daemon {
    ghost use Rattle.std.specs.Option.{option_map};

    /// Returns the program that reads the crontabs of a machine, and the users in its etc/passwd.
    ///
    /// # Errors
    ///
    /// `AllocError` if an allocation fails.
    pub fn of_machine<T: Tree>(alloc: Global, tree: &T) -> Result<Daemon, AllocError>
        ensures { T.is_known ≡ true → IfOk result (λ daemon. daemon ≡ daemon_of (T.held tree.now)) }
    {
        let program = program_of(alloc, tree)?;
        let users = users_of(alloc, tree)?;
        let owners_count = owners_count(alloc, tree)?;
        Ok(Daemon {
            program,
            users,
            owners_count,
        })
    }

    /// Returns which program it is.
    pub fn program(&self) -> CronDaemon
        ensures { result ≡ self.now.program }
    {
        self.program
    }

    // Returns the users, if they are known.
    pub(crate) fn users(&self) -> Option<&[User]>
        ensures { option_map (λ all. all.now) result ≡ self.now.users }
    {
        self.users.as_deref()
    }

    // Returns whether owners and modes count.
    pub(crate) fn owners_count(&self) -> bool
        ensures { result ≡ self.now.owners_count }
    {
        self.owners_count
    }
}

// Returns which program reads the crontabs of a machine.
#[tactic(auto, unfolding(crate::specs::Daemon::program_of))]
fn program_of<T: Tree>(alloc: Global, tree: &T) -> Result<CronDaemon, AllocError>
    ensures { T.is_known ≡ true → IfOk result (λ program. program ≡ program_of (T.held tree.now).node) }
{
    let debian = lead_of(alloc, tree, "usr/sbin/cron")?;
    if is_file_at(alloc, tree, &debian)? {
        return Ok(CronDaemon::Debian);
    }
    let cronie = lead_of(alloc, tree, "usr/sbin/crond")?;
    if is_file_at(alloc, tree, &cronie)? {
        return Ok(CronDaemon::Cronie);
    }
    Ok(CronDaemon::Other)
}
