//! Why Debian's cron ignores the file of a crontab by its owner, its mode or its links (cron 3.0pl1).

ghost use Rattle.std.specs.Prelude.{◌≡◌, IfOk, string_bytes};
ghost use Rattle.std.specs.Option.{option_map};
ghost use Rattle.plan_owners.specs.FileFaults.{fault_text, is_owner, link_fault, link_owner_fault, links_fault, mode_fault, octal, owner_fault, system_fault, user_fault, user_owner_fault, write_bits, write_fault};

use crate::looks::Look;
use plan_tree::Status;
use std::alloc::{AllocError, Global};

// The mode of a user's crontab.
const USER_MODE: u32 = 0o600;

// Why a file is ignored.
#[derive(Clone, Copy, Debug, PartialEq, Eq)]
pub(crate) enum FileFault {
    // The link to it is owned by the user with this number.
    LinkOwner(u32),
    // It is owned by the user with this number.
    Owner(u32),
    // The group or others may write it. This is its mode.
    Writable(u32),
    // This is its mode, and it isn't 0600.
    Mode(u32),
    // It has this number of hard links.
    HardLinks(u64),
    // It is a link.
    IsLink,
}

// Returns what is wrong with a file of the system.
#[tactic(auto, unfolding(crate::specs::FileFaults::system_fault))]
pub(crate) fn system_fault(counts: bool, look: Look) -> Option<FileFault>
    ensures { result ≡ system_fault counts look }
{
    link_owner_fault(counts, look.link)
        .or(owner_fault(counts, look.file))
        .or(write_fault(counts, look.file))
        .or(links_fault(look.file))
}

// Returns what is wrong with a file of a user whose number is known or not.
#[tactic(auto, unfolding(crate::specs::FileFaults::user_fault))]
pub(crate) fn user_fault(
    alloc: Global,
    counts: bool,
    number: Option<&str>,
    look: Look,
) -> Result<Option<FileFault>, AllocError>
    ensures { IfOk result (λ fault. fault ≡ user_fault counts (option_map (λ number. number.now) number.entry) look) }
{
    let owner = user_owner_fault(alloc, counts, number, look.file)?;
    Ok(
        link_fault(look.is_link)
            .or(owner)
            .or(mode_fault(counts, look.file))
            .or(links_fault(look.file)),
    )
}

// Returns what is wrong with the owner of a link.
fn link_owner_fault(counts: bool, link: Option<Status>) -> Option<FileFault>
    ensures { result ≡ link_owner_fault counts link }
{
    match link {
        Some(link) if counts && link.owner != 0 => Some(FileFault::LinkOwner(link.owner)),
        _ => None,
    }
}

// Returns what is wrong with the owner of a file of the system.
fn owner_fault(counts: bool, file: Option<Status>) -> Option<FileFault>
    ensures { result ≡ owner_fault counts file }
{
    match file {
        Some(file) if counts && file.owner != 0 => Some(FileFault::Owner(file.owner)),
        _ => None,
    }
}

// Returns what is wrong with the owner of a file of a user.
fn user_owner_fault(
    alloc: Global,
    counts: bool,
    number: Option<&str>,
    file: Option<Status>,
) -> Result<Option<FileFault>, AllocError>
    ensures { IfOk result (λ fault. fault ≡ user_owner_fault counts (option_map (λ number. number.now) number.entry) file) }
{
    let Some(file) = file else {
        return Ok(None);
    };
    let is_owner = is_owner(alloc, file.owner, number)?;
    if counts && !is_owner {
        return Ok(Some(FileFault::Owner(file.owner)));
    }
    Ok(None)
}

// Returns whether root or the user with a number owns a file, or the number isn't known.
fn is_owner(alloc: Global, owner: u32, number: Option<&str>) -> Result<bool, AllocError>
    ensures { IfOk result (λ is. is ≡ is_owner owner (option_map (λ number. number.now) number.entry)) }
{
    let Some(number) = number else {
        return Ok(true);
    };
    let written = format!(in alloc; "{owner}")?;
    Ok(owner == 0 || written.as_str() == number)
}

// Returns the bits of a mode by which the group and others may write.
fn write_bits(mode: u32) -> u32
    ensures { result ≡ write_bits mode }
{
    mode / 16 % 2 * 16 + mode / 2 % 2 * 2
}

// Returns what is wrong with a file that only root may write.
fn write_fault(counts: bool, file: Option<Status>) -> Option<FileFault>
    ensures { result ≡ write_fault counts file }
{
    match file {
        Some(file) if counts && write_bits(file.mode) != 0 => Some(FileFault::Writable(file.mode)),
        _ => None,
    }
}

// Returns what is wrong with the mode of a file of a user.
fn mode_fault(counts: bool, file: Option<Status>) -> Option<FileFault>
    ensures { result ≡ mode_fault counts file }
{
    match file {
        Some(file) if counts && file.mode != USER_MODE => Some(FileFault::Mode(file.mode)),
        _ => None,
    }
}

// Returns what is wrong with the number of hard links.
fn links_fault(file: Option<Status>) -> Option<FileFault>
    ensures { result ≡ links_fault file }
{
    match file {
        Some(file) if file.links != 1 => Some(FileFault::HardLinks(file.links)),
        _ => None,
    }
}

// Returns what is wrong with a file of a user that is a link.
fn link_fault(is_link: bool) -> Option<FileFault>
    ensures { result ≡ link_fault is_link }
{
    if is_link {
        Some(FileFault::IsLink)
    } else {
        None
    }
}

// Returns what is, and what has to be, where the file has to be owned by `owner`.
pub(crate) fn fault_text(alloc: Global, owner: &str, fault: FileFault) -> Result<String, AllocError>
    ensures { IfOk result (λ text. string_bytes text ≡ fault_text owner.now fault) }
{
    match fault {
        FileFault::LinkOwner(number) => {
            format!(in alloc; "link owned by user {number}, not root")
        }
        FileFault::Owner(number) => format!(in alloc; "owned by user {number}, not {owner}"),
        FileFault::Writable(mode) => {
            let is = octal(alloc, mode)?;
            let must = octal(alloc, mode.saturating_sub(write_bits(mode)))?;
            format!(in alloc; "mode {is}, not {must}")
        }
        FileFault::Mode(mode) => {
            let is = octal(alloc, mode)?;
            format!(in alloc; "mode {is}, not 0600")
        }
        FileFault::HardLinks(number) => format!(in alloc; "{number} hard links, not 1"),
        FileFault::IsLink => String::from_str(alloc, "a link, not a regular file"),
    }
}

// Returns the permissions of a mode as four octal digits.
fn octal(alloc: Global, mode: u32) -> Result<String, AllocError>
    ensures { IfOk result (λ text. string_bytes text ≡ octal mode) }
{
    let (first, second) = (mode / 512 % 8, mode / 64 % 8);
    let (third, fourth) = (mode / 8 % 8, mode % 8);
    format!(in alloc; "{first}{second}{third}{fourth}")
}
