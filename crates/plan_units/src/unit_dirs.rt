//! The directories of a unit: those of its drop-ins, and those of links to units (systemd.unit(5)).

ghost use Rattle.std.specs.Prelude.{◌≡◌, ◌∷◌, ◌++◌, IfOk, OnOk, map};
ghost use Rattle.plan_units.specs.UnitDirs.{cuts_of, dir_names, names_at, names_of_dirs, names_of_instance, unit_dirs, with_end};

use crate::merging::places_of;
use crate::names::{instance_name, template_name, type_of};
use crate::paths::UnitDir;
use plan_parts::{parts_of, type_start};
use plan_tree::Name;
use std::alloc::{AllocError, Global};

// Returns the directories of a unit with a suffix, first to last.
pub(crate) fn unit_dirs(
    alloc: Global,
    dirs: &[UnitDir],
    name: &str,
    suffix: &str,
) -> Result<Vec<UnitDir>, AllocError>
    ensures { IfOk result (λ places. places.items ≡ unit_dirs dirs.now name.now suffix.now) }
{
    let names = dir_names(alloc, name)?;
    let mut places = places_of(alloc, dirs, names.as_slice(), suffix)?;
    let mut types = Vec::new(alloc);
    types.push(Name::at(alloc, type_of(name))?)?;
    let mut more = places_of(alloc, dirs, types.as_slice(), suffix)?;
    places.append(&mut more)?;
    Ok(places)
}

/// Returns the names NAME whose directories `NAME.d`, `NAME.wants` and `NAME.requires` are a unit's: its own name and that of
/// its template, shorter ones, and its type.
///
/// # Errors
///
/// `AllocError` if an allocation fails.
pub fn names_of_dirs(alloc: Global, name: &str) -> Result<Vec<Name>, AllocError>
    ensures { IfOk result (λ names. names.items ≡ names_of_dirs name.now) }
{
    let mut names = dir_names(alloc, name)?;
    names.push(Name::at(alloc, type_of(name))?)?;
    Ok(names)
}

// Returns the names whose directories are a unit's, but for its type, first to last.
fn dir_names(alloc: Global, name: &str) -> Result<Vec<Name>, AllocError>
    ensures { IfOk result (λ names. names.items ≡ dir_names name.now) }
{
    let mut names = Vec::new(alloc);
    match parts_of(name) {
        None => {
            let end = type_start(name.as_bytes());
            names.push(Name::at(alloc, name)?)?;
            add_cuts(alloc, &mut names, &name[..end], &name[end..])?;
        }
        Some((prefix, instance, back)) if instance.is_empty() => {
            names.push(Name::at(alloc, name)?)?;
            add_cuts(alloc, &mut names, prefix, back)?;
        }
        Some((prefix, instance, back)) => {
            return names_of_instance(alloc, prefix, instance, back);
        }
    }
    Ok(names)
}

// Returns the names for an instance, first to last.
fn names_of_instance(
    alloc: Global,
    prefix: &str,
    instance: &str,
    back: &str,
) -> Result<Vec<Name>, AllocError>
    ensures { IfOk result (λ names. names.items
        ≡ names_of_instance instance.now back.now (prefix.now ∷ cuts_of prefix.now)) }
{
    let mut names = Vec::new(alloc);
    add_of_instance(alloc, &mut names, prefix, instance, back)?;
    let prefixes = cuts_of(alloc, prefix)?;
    for shorter in prefixes.as_slice() {
        add_of_instance(alloc, &mut names, shorter, instance, back)?;
    }
    Ok(names)
}

// Adds the names of an instance, of its template, and the shorter names of that.
fn add_of_instance(
    alloc: Global,
    names: &mut Vec<Name>,
    prefix: &str,
    instance: &str,
    back: &str,
) -> Result<(), AllocError>
    ensures { OnOk result (names.new.items
        ≡ names.old.items ++ names_at instance.now back.now prefix.now) }
{
    names.push(instance_name(alloc, prefix, instance, back)?)?;
    names.push(template_name(alloc, prefix, back)?)?;
    add_cuts(alloc, names, prefix, back)
}

// Adds the names of the parts that a prefix is shortened to.
fn add_cuts(
    alloc: Global,
    names: &mut Vec<Name>,
    prefix: &str,
    back: &str,
) -> Result<(), AllocError>
    ensures { OnOk result (names.new.items ≡ names.old.items ++ with_end back.now (cuts_of prefix.now)) }
{
    let prefixes = cuts_of(alloc, prefix)?;
    for shorter in prefixes.as_slice() {
        let mut name = String::from_str(alloc, shorter)?;
        name.push_str(back)?;
        names.push(Name::new(name))?;
    }
    Ok(())
}

// Returns the parts that a text is shortened to, longest first.
#[tactic(auto, using(crate::proofs::UnitDirLemmas::cuts_next))]
fn cuts_of(alloc: Global, text: &str) -> Result<Vec<&str>, AllocError>
    ensures { IfOk result (λ cuts. map (λ cut. cut.now) cuts.items ≡ cuts_of text.now) }
{
    let mut cuts = Vec::new(alloc);
    let mut place = text.len().saturating_sub(1);
    while place > 0 {
        place -= 1;
        if place > 0 && text.as_bytes()[place] == b'-' {
            cuts.push(&text[..place + 1])?;
        }
    }
    Ok(cuts)
}
