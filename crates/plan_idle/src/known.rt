//! The places of a tree where what is found is known: only root can change it, and it is the same when a job runs.

ghost use Rattle.std.specs.Prelude.{◌≡◌, true, [], ◌∷◌, IfOk, filter, map, option_map};
ghost use Rattle.std.specs.List.{filter_map, list_any};
ghost use Rattle.std.specs.Char.{is_ascii_digit};
ghost use Rattle.plan_texts.specs.Lines.{cut_word};
ghost use Rattle.plan_texts.specs.Text.{begins_with};
ghost use Rattle.plan_idle.specs.Known.{bytes_of, has_names, is_within, lead_of, mount_on, mount_point, mounts_by, mounts_in, mounts_of, places_of, begins_with_digit, text_mounts};

use crate::filled::Filled;
use plan_texts::begins_with;
use plan_texts::lines::{cut_word, is_too_large, lines};
use plan_tree::{End, Place, Status, Tree, contents, follow};
use std::alloc::{AllocError, Global};
use std::marker::Model;

// How much of etc/fstab is read: more than a text may have.
const MOST_READ: u64 = 1_048_577;

// The directories of the system.
const TOPS: [&str; 7] = ["usr", "bin", "sbin", "lib", "lib64", "etc", "opt"];

/// The places of a tree where what is found is known: only root can change it, and it is the same when a job runs.
///
/// They are in the directories of the system that have a name in them, and not below mount points of etc/fstab, unless the
/// machine runs.
#[derive(Drop)]
pub struct KnownPlaces {
    // The status of the root.
    pub(crate) root: Option<Status>,
    // The directories of the system that have a name in them.
    pub(crate) tops: Vec<Place>,
    // The places of the mount points.
    pub(crate) mounts: Vec<Place>,
}

impl Model for KnownPlaces {
    ghost use Rattle.plan_idle.specs.Known.{Places};

    ghost Value = { Places };

    ghost view = { λ places. record { root = places.root; tops = places.tops.items; mounts = places.mounts.items } };
}

impl KnownPlaces {
    /// Returns the known places of a tree.
    ///
    /// # Errors
    ///
    /// `AllocError` if an allocation fails.
    #[tactic(auto, unfolding(crate::specs::Known::places_of))]
    pub fn of_tree<T: Tree>(alloc: Global, tree: &T) -> Result<KnownPlaces, AllocError>
        ensures { T.is_known ≡ true → IfOk result (λ places. places ≡ places_of (T.held tree.now)) }
    {
        let root = tree.status(alloc, "")?;
        let tops = tops_among(alloc, tree, &TOPS)?;
        let mounts = mounts_of(alloc, tree)?;
        Ok(KnownPlaces { root, tops, mounts })
    }
}

/// Returns where a path leads.
#[tactic(auto, unfolding(crate::specs::Known::lead_of))]
pub(crate) fn lead_of<T: Tree>(alloc: Global, tree: &T, path: &str) -> Result<End, AllocError>
    ensures { T.is_known ≡ true → IfOk result (λ end. end ≡ lead_of (T.held tree.now).node path.now) }
{
    follow(alloc, tree, path)
}

// Returns the first bytes of the file where a path leads.
#[tactic(auto, unfolding(crate::specs::Known::bytes_of))]
fn bytes_of<T: Tree>(
    alloc: Global,
    tree: &T,
    path: &str,
    most: u64,
) -> Result<Option<Vec<u8>>, AllocError>
    ensures { T.is_known ≡ true → IfOk result (λ found.
        option_map (λ read. read.items) found ≡ bytes_of (T.held tree.now) path.now most) }
{
    contents(alloc, tree, path, most)
}

/// Returns whether a place is one of some directories, or below one.
pub(crate) fn is_within_any(place: &str, dirs: &[Place]) -> bool
    ensures { result ≡ list_any (is_within place.now) dirs.now }
{
    for dir in dirs {
        if is_within(place.as_bytes(), dir.as_str().as_bytes()) {
            return true;
        }
    }
    false
}

/// Returns whether a place is this directory, or below it.
pub(crate) fn is_within(place: &[u8], dir: &[u8]) -> bool
    ensures { result ≡ is_within place.now dir.now }
{
    if !place.starts_with(dir) {
        return false;
    }
    match &place[dir.len()..] {
        [] => true,
        [next, ..] => dir.is_empty() || *next == b'/',
    }
}

// Returns those of some paths that lead to a directory with a name in it.
fn tops_among<T: Tree>(alloc: Global, tree: &T, paths: &[&str]) -> Result<Vec<Place>, AllocError>
    ensures { T.is_known ≡ true → IfOk result (λ tops.
        tops.items ≡ filter (has_names (T.held tree.now)) (map (λ path. path.now) paths.now)) }
{
    let mut tops = Vec::new(alloc);
    for path in paths {
        if has_names(alloc, tree, path)? {
            tops.push(Place::at(alloc, path)?)?;
        }
    }
    Ok(tops)
}

// Returns whether a path leads to a directory with a name in it.
fn has_names<T: Tree>(alloc: Global, tree: &T, path: &str) -> Result<bool, AllocError>
    ensures { T.is_known ≡ true → IfOk result (λ has. has ≡ has_names (T.held tree.now) path.now) }
{
    let End::Found(dir) = lead_of(alloc, tree, path)? else {
        return Ok(false);
    };
    match tree.names(alloc, dir.as_str())? {
        Some(listing) => Ok(!listing.names.is_empty()),
        None => Ok(false),
    }
}

// Returns the places where something else may be mounted when a job runs.
fn mounts_of<T: Tree>(alloc: Global, tree: &T) -> Result<Vec<Place>, AllocError>
    ensures { T.is_known ≡ true → IfOk result (λ mounts. mounts.items ≡ mounts_of (T.held tree.now)) }
{
    let uptime = bytes_of(alloc, tree, "proc/uptime", 1)?;
    if begins_with_digit(uptime) {
        return Ok(Vec::new(alloc));
    }
    let end = lead_of(alloc, tree, "etc/fstab")?;
    mounts_by(alloc, tree, &end)
}

// Returns whether there is a text that begins with a digit.
fn begins_with_digit(text: Option<Vec<u8>>) -> bool
    ensures { result ≡ begins_with_digit (option_map (λ text. text.items) text) }
{
    match text {
        None => false,
        Some(text) => has_digit_first(text.as_slice()),
    }
}

fn has_digit_first(text: &[u8]) -> bool
    ensures { result ≡ begins_with is_ascii_digit text.now }
{
    matches!(text, [first, ..] if first.is_ascii_digit())
}

// Returns the mount points of etc/fstab, by where it leads.
fn mounts_by<T: Tree>(alloc: Global, tree: &T, end: &End) -> Result<Vec<Place>, AllocError>
    ensures { T.is_known ≡ true → IfOk result (λ mounts. mounts.items ≡ mounts_by (T.held tree.now) end.now) }
{
    match end {
        End::Nothing => Ok(Vec::new(alloc)),
        End::Found(_) | End::Unknown => {
            let text = bytes_of(alloc, tree, "etc/fstab", MOST_READ)?;
            mounts_in(alloc, tree, text)
        }
    }
}

// Returns the mount points of the text of etc/fstab.
fn mounts_in<T: Tree>(
    alloc: Global,
    tree: &T,
    text: Option<Vec<u8>>,
) -> Result<Vec<Place>, AllocError>
    ensures { T.is_known ≡ true → IfOk result (λ mounts.
        mounts.items ≡ mounts_in (T.held tree.now) (option_map (λ text. text.items) text)) }
{
    match text {
        None => everywhere(alloc),
        Some(text) => text_mounts(alloc, tree, text.as_slice()),
    }
}

#[tactic(auto, using(crate::proofs::KnownLemmas::mounts_of_text, crate::proofs::KnownLemmas::mounts_of_other))]
fn text_mounts<T: Tree>(alloc: Global, tree: &T, text: &[u8]) -> Result<Vec<Place>, AllocError>
    ensures { T.is_known ≡ true → IfOk result (λ mounts. mounts.items ≡ text_mounts (T.held tree.now) text.now) }
{
    if is_too_large(text) {
        return everywhere(alloc);
    }
    match str::from_utf8(text) {
        Ok(text) => {
            let lines = lines(alloc, text)?;
            mounts_on(alloc, tree, lines.as_slice())
        }
        Err(_) => everywhere(alloc),
    }
}

// Returns a mount point that may be anywhere.
fn everywhere(alloc: Global) -> Result<Vec<Place>, AllocError>
    ensures { IfOk result (λ mounts. mounts.items ≡ ([] ∷ [])) }
{
    let mut mounts = Vec::new(alloc);
    mounts.push(Place::root(alloc))?;
    Ok(mounts)
}

// Returns the places of the mount points of lines.
fn mounts_on<T: Tree>(alloc: Global, tree: &T, lines: &[&str]) -> Result<Vec<Place>, AllocError>
    ensures { T.is_known ≡ true → IfOk result (λ mounts.
        mounts.items ≡ filter_map (mount_on (T.held tree.now)) (map (λ line. line.now) lines.now)) }
{
    let mut mounts = Vec::new(alloc);
    for line in lines {
        if let Some(place) = mount_on(alloc, tree, line)? {
            mounts.push(place)?;
        }
    }
    Ok(mounts)
}

// Returns the place of the mount point of a line.
fn mount_on<T: Tree>(alloc: Global, tree: &T, line: &str) -> Result<Option<Place>, AllocError>
    ensures { T.is_known ≡ true → IfOk result (λ place. place ≡ mount_on (T.held tree.now) line.now) }
{
    let Some(point) = mount_point(line) else {
        return Ok(None);
    };
    match lead_of(alloc, &Filled { tree }, point)? {
        End::Found(place) if !place.as_str().is_empty() => Ok(Some(place)),
        End::Found(_) | End::Nothing => Ok(None),
        End::Unknown => Ok(Some(Place::root(alloc))),
    }
}

// Returns the mount point of a line.
fn mount_point(line: &str) -> Option<&str>
    ensures { option_map (λ point. point.now) result ≡ mount_point (cut_word line.now) }
{
    let (device, rest) = cut_word(line)?;
    if begins_with(device.as_bytes(), b'#') {
        return None;
    }
    let (point, _) = cut_word(rest)?;
    if begins_with(point.as_bytes(), b'/') {
        Some(point)
    } else {
        None
    }
}
