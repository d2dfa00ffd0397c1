//! The parts of the names of templates and instances (systemd.unit(5)).

ghost use Rattle.std.specs.Prelude.{◌≡◌, ◌==◌, not};
ghost use Rattle.std.specs.List.{prefix_len, suffix_len};
ghost use Rattle.std.specs.Option.{option_map};
ghost use Rattle.std.specs.Str.{byte};
ghost use Rattle.plan_parts.specs.NameParts.{parts_of, type_start};

// Returns the length of a name up to its first `@`.
fn at_len(name: &[u8]) -> usize
    ensures { result ≡ prefix_len (λ b. not (b == byte "@")) name.now }
{
    name.iter().take_while(|byte| **byte != b'@').count()
}

/// Returns the length of what follows the last `.` of a name.
pub fn type_len(name: &[u8]) -> usize
    ensures { result ≡ suffix_len (λ b. not (b == byte ".")) name.now }
{
    name.iter().rev().take_while(|byte| **byte != b'.').count()
}

/// Returns where the type of a name starts: at its last `.`.
pub fn type_start(name: &[u8]) -> usize
    ensures { result ≡ type_start name.now }
{
    let before = name.len().saturating_sub(type_len(name));
    before.saturating_sub(1)
}

/// Returns the parts of the name of a template or an instance, or `None` for another name.
///
/// They are what is before the first `@`, what is between that and the last `.`, which is empty for a template, and the
/// rest.
pub fn parts_of(name: &str) -> Option<(&str, &str, &str)>
    ensures { option_map (λ parts. (parts.0.now, parts.1.now, parts.2.now)) result ≡ parts_of name.now }
{
    let at = at_len(name.as_bytes());
    let end = type_start(name.as_bytes());
    if at >= end {
        return None;
    }
    Some((&name[..at], &name[at + 1..end], &name[end..]))
}
