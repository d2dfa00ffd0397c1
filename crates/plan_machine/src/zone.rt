//! The time zone of a machine (localtime(5)).

ghost use Rattle.std.specs.Prelude.{◌≡◌, true, IfOk};
ghost use Rattle.std.specs.List.{list_all};
ghost use Rattle.std.specs.Option.{option_map};
ghost use Rattle.plan_machine.specs.Files.{lead_of};
ghost use Rattle.plan_machine.specs.Zone.{are_parts, database_bytes, is_name_byte, is_zone_name, machine_zone, name_in, zone_at, zone_of_link, zone_shown};

use crate::files::{bytes_of_end, lead_of};
use plan_texts::{Text, cut};
use plan_tree::{End, Node, Tree};
use std::alloc::{AllocError, Global};

/// The time zone of a machine, as its etc/localtime says.
#[derive(Debug, Drop)]
pub enum MachineZone {
    /// etc/localtime is missing: the zone is UTC.
    Utc,
    /// etc/localtime is a link to the zone with this name, such as `Europe/Oslo` or `UTC`.
    Named {
        /// The name of the zone.
        name: Text,
        /// The bytes of the zone's file in usr/share/zoneinfo, or `None` if no regular file is there that can be
        /// read.
        bytes: Option<Vec<u8>>,
    },
    /// etc/localtime is a regular file.
    Local {
        /// The bytes of the file, or `None` if it can't be read.
        bytes: Option<Vec<u8>>,
    },
    /// etc/localtime is anything else, or it can't be determined what it is.
    Unknown,
}

/// Returns the time zone of a machine (localtime(5)).
///
/// The last name of etc/localtime isn't followed if it is a link: what follows the first `zoneinfo/` in the link's
/// text is the name of the zone. Of a file, the first `most` bytes are read, or all if there are fewer.
///
/// # Errors
///
/// `AllocError` if an allocation fails.
pub fn machine_zone<T: Tree>(alloc: Global, tree: &T, most: u64) -> Result<MachineZone, AllocError>
    ensures { T.is_known ≡ true → IfOk result (λ zone. zone_shown zone ≡ machine_zone (T.held tree.now) most) }
{
    match lead_of(alloc, tree, "etc")? {
        End::Found(dir) => {
            let path = dir.child(alloc, "localtime")?;
            zone_at(alloc, tree, most, path.as_str())
        }
        End::Nothing => Ok(MachineZone::Utc),
        End::Unknown => Ok(MachineZone::Unknown),
    }
}

// Returns the zone that is given by what has a path.
fn zone_at<T: Tree>(
    alloc: Global,
    tree: &T,
    most: u64,
    path: &str,
) -> Result<MachineZone, AllocError>
    ensures { T.is_known ≡ true → IfOk result (λ zone. zone_shown zone ≡ zone_at (T.held tree.now) most path.now) }
{
    match tree.node(alloc, path)? {
        Node::Missing => Ok(MachineZone::Utc),
        Node::Link(text) => zone_of_link(alloc, tree, most, text.as_str()),
        Node::File { .. } => Ok(MachineZone::Local {
            bytes: tree.front(alloc, path, most)?,
        }),
        Node::Unreadable | Node::Directory | Node::Null | Node::Other => Ok(MachineZone::Unknown),
    }
}

// Returns the zone that the text of a link names.
fn zone_of_link<T: Tree>(
    alloc: Global,
    tree: &T,
    most: u64,
    text: &str,
) -> Result<MachineZone, AllocError>
    ensures { T.is_known ≡ true → IfOk result (λ zone. zone_shown zone ≡ zone_of_link (T.held tree.now) most text.now) }
{
    match name_in(text) {
        None => Ok(MachineZone::Unknown),
        Some(name) => Ok(MachineZone::Named {
            name: Text::new(String::from_str(alloc, name)?),
            bytes: database_bytes(alloc, tree, most, name)?,
        }),
    }
}

// Returns the name of a zone after the first `zoneinfo/` in a text.
#[tactic(auto, using(crate::proofs::ZoneLemmas::zone_name_is_text))]
fn name_in(text: &str) -> Option<&str>
    ensures { option_map (λ name. name.now) result ≡ name_in text.now }
{
    let (_, name) = cut(text.as_bytes(), b"zoneinfo/")?;
    if !is_zone_name(name) {
        return None;
    }
    match str::from_utf8(name) {
        Ok(name) => Some(name),
        Err(_) => None,
    }
}

// Returns whether a text has the form of a zone's name.
#[tactic(auto, unfolding(crate::specs::Zone::is_zone_name))]
fn is_zone_name(text: &[u8]) -> bool
    ensures { result ≡ is_zone_name text.now }
{
    are_name_bytes(text) && are_parts(text)
}

// Returns whether a zone's name may have all these bytes.
fn are_name_bytes(bytes: &[u8]) -> bool
    ensures { result ≡ list_all is_name_byte bytes.now }
{
    bytes.iter().all(|byte| is_name_byte(*byte))
}

// Returns whether no part of a text between its slashes is empty.
fn are_parts(text: &[u8]) -> bool
    ensures { result ≡ are_parts text.now }
{
    text.split(|byte| *byte == b'/')
        .all(|part| !part.is_empty())
}

// Returns whether a zone's name may have this byte.
fn is_name_byte(byte: u8) -> bool
    ensures { result ≡ is_name_byte byte }
{
    byte.is_ascii_alphanumeric() || matches!(byte, b'_' | b'-' | b'+' | b'/')
}

// Returns the first `most` bytes of the file of the zone with this name (tzfile(5)).
fn database_bytes<T: Tree>(
    alloc: Global,
    tree: &T,
    most: u64,
    name: &str,
) -> Result<Option<Vec<u8>>, AllocError>
    ensures { T.is_known ≡ true → IfOk result (λ found.
        option_map (λ bytes. bytes.items) found ≡ database_bytes (T.held tree.now) most name.now) }
{
    let path = format!(in alloc; "usr/share/zoneinfo/{name}")?;
    let end = lead_of(alloc, tree, path.as_str())?;
    bytes_of_end(alloc, tree, most, &end)
}
