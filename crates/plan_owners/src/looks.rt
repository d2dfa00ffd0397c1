//! What decides whether Debian's cron reads the file of a crontab: who owns it, its mode, its links.

ghost use Rattle.std.specs.Prelude.{◌≡◌, true, IfOk};
ghost use Rattle.plan_owners.specs.Looks.{look_at, look_in, look_with, owners_count, status_at};

use crate::paths::{is_link, lead_of, name_of_path};
use plan_tree::{End, Place, Status, Tree};
use std::alloc::{AllocError, Global};

// What is seen of a file.
#[derive(Clone, Copy, Debug, PartialEq, Eq)]
pub(crate) struct Look {
    // Whether it is a link.
    pub(crate) is_link: bool,
    // The status of that link.
    pub(crate) link: Option<Status>,
    // The status of the file where it leads.
    pub(crate) file: Option<Status>,
}

// Returns what is seen of the file with a path.
#[tactic(auto, unfolding(crate::specs::Looks::look_at))]
pub(crate) fn look_at<T: Tree>(alloc: Global, tree: &T, path: &str) -> Result<Look, AllocError>
    ensures { T.is_known ≡ true → IfOk result (λ look. look ≡ look_at (T.held tree.now) path.now) }
{
    let mut dir = Place::at(alloc, path)?;
    dir.leave();
    let name = name_of_path(alloc, path)?;
    let dir = lead_of(alloc, tree, dir.as_str())?;
    let file = lead_of(alloc, tree, path)?;
    look_in(alloc, tree, &dir, name, &file)
}

// Returns what is seen of what has a name in the directory where a path leads.
fn look_in<T: Tree>(
    alloc: Global,
    tree: &T,
    dir: &End,
    name: &str,
    file: &End,
) -> Result<Look, AllocError>
    ensures { T.is_known ≡ true → IfOk result (λ look.
        look ≡ look_in (T.held tree.now) dir.now name.now file.now) }
{
    let file = status_at(alloc, tree, file)?;
    match dir {
        End::Found(real) => {
            let path = real.child(alloc, name)?;
            look_with(alloc, tree, path.as_str(), file)
        }
        End::Nothing | End::Unknown => Ok(Look {
            is_link: false,
            link: None,
            file,
        }),
    }
}

// Returns what is seen of what has a path, if the file where it leads has this status.
fn look_with<T: Tree>(
    alloc: Global,
    tree: &T,
    path: &str,
    file: Option<Status>,
) -> Result<Look, AllocError>
    ensures { T.is_known ≡ true → IfOk result (λ look. look ≡ look_with (T.held tree.now) path.now file) }
{
    let is_link = is_link(&tree.node(alloc, path)?);
    let link = if is_link {
        tree.status(alloc, path)?
    } else {
        None
    };
    Ok(Look {
        is_link,
        link,
        file,
    })
}

// Returns the status of what is at the end of a path.
fn status_at<T: Tree>(alloc: Global, tree: &T, end: &End) -> Result<Option<Status>, AllocError>
    ensures { T.is_known ≡ true → IfOk result (λ status. status ≡ status_at (T.held tree.now) end.now) }
{
    match end {
        End::Found(real) => tree.status(alloc, real.as_str()),
        End::Nothing | End::Unknown => Ok(None),
    }
}

// Returns whether owners and modes count: root owns the root directory.
#[tactic(auto, unfolding(crate::specs::Looks::owners_count))]
pub(crate) fn owners_count<T: Tree>(alloc: Global, tree: &T) -> Result<bool, AllocError>
    ensures { T.is_known ≡ true → IfOk result (λ counts. counts ≡ owners_count (T.held tree.now)) }
{
    match tree.status(alloc, "")? {
        Some(status) => Ok(status.owner == 0),
        None => Ok(false),
    }
}
