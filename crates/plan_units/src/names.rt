//! Names of units, templates and instances (systemd.unit(5)).

ghost use Rattle.std.specs.Prelude.{◌≡◌, IfOk};
ghost use Rattle.plan_units.specs.UnitNames.{can_be_alias, ending, filled, instance_name, is_template, named_for, stem, template_name, template_of, type_of, wanted_name};

use plan_parts::{parts_of, type_len, type_start};
use plan_tree::Name;
use std::alloc::{AllocError, Global};

/// Returns what is before the type of a name: all up to its last `.`.
pub fn stem(name: &str) -> &str
    ensures { result.now ≡ stem name.now }
{
    &name[..type_start(name.as_bytes())]
}

// Returns the type of a name: what follows its last `.`.
pub(crate) fn type_of(name: &str) -> &str
    ensures { result.now ≡ type_of name.now }
{
    &name[name.len().saturating_sub(type_len(name.as_bytes()))..]
}

// Returns whether a name is that of a template, such as `a@.timer`.
pub(crate) fn is_template(name: &str) -> bool
    ensures { result ≡ is_template name.now }
{
    match parts_of(name) {
        None => false,
        Some((_, instance, _)) => instance.is_empty(),
    }
}

/// Returns the name of the template of an instance, or `None` for another name.
///
/// # Errors
///
/// `AllocError` if an allocation fails.
pub fn template_of(alloc: Global, name: &str) -> Result<Option<Name>, AllocError>
    ensures { IfOk result (λ template. template ≡ template_of name.now) }
{
    match parts_of(name) {
        Some((prefix, instance, back)) if !instance.is_empty() => {
            Ok(Some(template_name(alloc, prefix, back)?))
        }
        _ => Ok(None),
    }
}

// Returns the name of a template by its PREFIX and its TYPE with a `.`.
pub(crate) fn template_name(alloc: Global, prefix: &str, back: &str) -> Result<Name, AllocError>
    ensures { IfOk result (λ name. name ≡ template_name prefix.now back.now) }
{
    let mut name = String::from_str(alloc, prefix)?;
    name.push_str("@")?;
    name.push_str(back)?;
    Ok(Name::new(name))
}

// Returns the name of an instance by its PREFIX, its INSTANCE and its TYPE with a `.`.
pub(crate) fn instance_name(
    alloc: Global,
    prefix: &str,
    instance: &str,
    back: &str,
) -> Result<Name, AllocError>
    ensures { IfOk result (λ name. name ≡ instance_name prefix.now instance.now back.now) }
{
    let mut name = String::from_str(alloc, prefix)?;
    name.push_str("@")?;
    name.push_str(instance)?;
    name.push_str(back)?;
    Ok(Name::new(name))
}

// Returns a name, or for a template its instance.
fn filled(alloc: Global, instance: &str, name: &str) -> Result<Name, AllocError>
    ensures { IfOk result (λ full. full ≡ filled instance.now name.now) }
{
    match parts_of(name) {
        Some((prefix, between, back)) if between.is_empty() => {
            instance_name(alloc, prefix, instance, back)
        }
        _ => Name::at(alloc, name),
    }
}

// Returns the unit that another name means for a name: if that is a template and the name is an instance, the instance
// of that template.
pub(crate) fn named_for(alloc: Global, name: &str, other: &str) -> Result<Name, AllocError>
    ensures { IfOk result (λ unit. unit ≡ named_for name.now other.now) }
{
    match parts_of(name) {
        Some((_, instance, _)) => filled(alloc, instance, other),
        None => Name::at(alloc, other),
    }
}

// Returns whether a name can be an alias of another one: both have the same type, and an instance is an alias of a
// template, or of an instance that has the same INSTANCE.
pub(crate) fn can_be_alias(name: &str, other: &str) -> bool
    ensures { result ≡ can_be_alias name.now other.now }
{
    if ending(name) != ending(other) {
        return false;
    }
    match (parts_of(name), parts_of(other)) {
        (None, None) => true,
        (Some((_, own, _)), Some((_, instance, _))) => instance.is_empty() || own == instance,
        _ => false,
    }
}

// Returns the type of a name with its `.`.
fn ending(name: &str) -> &str
    ensures { result.now ≡ ending name.now }
{
    &name[type_start(name.as_bytes())..]
}

/// Returns the unit that a name means where a unit wants it: for a template the instance that has the unit's INSTANCE, or
/// else the unit's name without its type (systemd 252).
///
/// # Errors
///
/// `AllocError` if an allocation fails.
pub fn wanted_name(alloc: Global, unit: &str, name: &str) -> Result<Name, AllocError>
    ensures { IfOk result (λ full. full ≡ wanted_name unit.now name.now) }
{
    match parts_of(unit) {
        Some((_, instance, _)) => filled(alloc, instance, name),
        None => filled(alloc, stem(unit), name),
    }
}
