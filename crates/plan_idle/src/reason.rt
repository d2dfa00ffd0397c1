//! Why a command is idle, in words.

ghost use Rattle.std.specs.Prelude.{◌≡◌, IfOk};
ghost use Rattle.plan_idle.specs.Reason.{reason_text, words_after, words_before};

use crate::outcomes::Seen;
use plan_shell::Property;
use plan_texts::Text;
use std::alloc::{AllocError, Global};

/// Returns why a command is idle, by the last thing that it looks at.
///
/// # Errors
///
/// `AllocError` if an allocation fails.
pub(crate) fn reason_text(alloc: Global, last: Option<Seen>) -> Result<Text, AllocError>
    ensures { IfOk result (λ text. text ≡ reason_text last) }
{
    match last {
        None => Ok(Text::new(String::from_str(alloc, "it runs nothing")?)),
        Some(seen) => {
            let mut text = String::from_str(alloc, words_before(seen.property))?;
            text.push_str(seen.subject.as_str())?;
            text.push_str(words_after(seen.property, seen.holds))?;
            Ok(Text::new(text))
        }
    }
}

// Returns what comes before a path or a name.
fn words_before(property: Property) -> &'static str
    ensures { result.now ≡ words_before property }
{
    match property {
        Property::Command => "command ",
        _ => "",
    }
}

// Returns what comes after a path or a name.
fn words_after(property: Property, holds: bool) -> &'static str
    ensures { result.now ≡ words_after property holds }
{
    match (property, holds) {
        (Property::Exists | Property::Command, true) => " exists",
        (Property::Exists, false) => " does not exist",
        (Property::File, true) => " is a file",
        (Property::File, false) => " is no file",
        (Property::Directory, true) => " is a directory",
        (Property::Directory, false) => " is no directory",
        (Property::NotEmpty, true) => " is not empty",
        (Property::NotEmpty, false) => " is empty or missing",
        (Property::Executable, true) => " is executable",
        (Property::Executable, false) => " is not executable",
        (Property::Command, false) => " not found",
        (Property::NoScripts, true) => " has no scripts",
        (Property::NoScripts, false) => " has scripts",
    }
}
