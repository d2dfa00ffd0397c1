//! Valid names of units (systemd.unit(5)).

ghost use Rattle.std.specs.Prelude.{◌≡◌, ◌||◌, ◌==◌, IfOk, map};
ghost use Rattle.std.specs.List.{list_all};
ghost use Rattle.std.specs.Str.{byte};
ghost use Rattle.plan_units.specs.Validity.{has_valid_parts, is_instance, is_prefix, is_type, is_unit_name, is_valid_byte, is_valid_name, unit_types, wanted_unit};
ghost use Rattle.plan_parts.specs.NameParts.{parts_of};

use crate::names::{is_template, stem, type_of, wanted_name};
use plan_parts::parts_of;
use plan_tree::Name;
use std::alloc::{AllocError, Global};

/// The maximum number of bytes in a name.
const MOST_BYTES: usize = 255;

// Returns the types of units.
fn unit_types() -> [&'static str; 11]
    ensures { map (λ type. type.now) result ≡ unit_types }
{
    [
        "service",
        "socket",
        "device",
        "mount",
        "automount",
        "swap",
        "target",
        "path",
        "timer",
        "slice",
        "scope",
    ]
}

// Returns whether a text is a type of units.
fn is_type(text: &str) -> bool
    ensures { result ≡ is_type text.now }
{
    for kind in &unit_types() {
        if *kind == text {
            return true;
        }
    }
    false
}

/// Returns whether a name is valid for a unit or a template: it has at most 255 bytes, ends with a type such as `.timer`,
/// and has only valid characters before that, at least one of them before any `@`.
#[tactic(auto, unfolding(crate::specs::Validity::is_valid_name))]
pub fn is_valid_name(name: &str) -> bool
    ensures { result ≡ is_valid_name name.now }
{
    name.len() <= MOST_BYTES && is_type(type_of(name)) && has_valid_parts(name)
}

// Returns whether the parts of a name before its type are valid.
fn has_valid_parts(name: &str) -> bool
    ensures { result ≡ has_valid_parts name.now (parts_of name.now) }
{
    match parts_of(name) {
        None => is_prefix(stem(name)),
        Some((prefix, instance, _)) => is_prefix(prefix) && is_instance(instance),
    }
}

// Returns whether a text can be before the type of a name, or before its first `@`.
fn is_prefix(text: &str) -> bool
    ensures { result ≡ is_prefix text.now }
{
    !text.is_empty() && are_valid(text.as_bytes())
}

// Returns whether all characters are valid.
fn are_valid(text: &[u8]) -> bool
    ensures { result ≡ list_all is_valid_byte text.now }
{
    text.iter().all(|byte| is_valid_byte(*byte))
}

// Returns whether a text can be an INSTANCE, or the empty one of a template.
fn is_instance(text: &str) -> bool
    ensures { result ≡ is_instance text.now }
{
    text.as_bytes()
        .iter()
        .all(|byte| is_valid_byte(*byte) || *byte == b'@')
}

// Returns whether a character is valid.
fn is_valid_byte(byte: u8) -> bool
    ensures { result ≡ is_valid_byte byte }
{
    byte.is_ascii_alphabetic()
        || byte.is_ascii_digit()
        || matches!(byte, b':' | b'-' | b'_' | b'.' | b'\\')
}

/// Returns whether a name is valid for a unit, so that it isn't that of a template.
#[tactic(auto, unfolding(crate::specs::Validity::is_unit_name))]
pub fn is_unit_name(name: &str) -> bool
    ensures { result ≡ is_unit_name name.now }
{
    is_valid_name(name) && !is_template(name)
}

// Returns the unit that a name means where a unit wants it, or `None` if that is invalid.
pub(crate) fn wanted_unit(alloc: Global, unit: &str, name: &str) -> Result<Option<Name>, AllocError>
    ensures { IfOk result (λ wanted. wanted ≡ wanted_unit unit.now name.now) }
{
    let wanted = wanted_name(alloc, unit, name)?;
    if is_unit_name(wanted.as_str()) {
        Ok(Some(wanted))
    } else {
        Ok(None)
    }
}
