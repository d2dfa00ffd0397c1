//! The names of the scripts that a job starts by run-parts.

ghost use Rattle.std.specs.Prelude.{◌≡◌, ◌∷◌, ◌++◌, OnOk, option_copied, string_bytes};
ghost use Rattle.std.specs.List.{flat_map};
ghost use Rattle.agenda_sources.specs.Name.{file_name};
ghost use Rattle.agenda_table.specs.Scripts.{more_name, names_of, scripts_note};

use agenda_sources::file_name;
use plan_rules::Text;
use plan_write::JobFile;
use std::alloc::AllocError;

/// Appends the names of the scripts of a job's file, if that is given.
///
/// # Errors
///
/// `AllocError` if an allocation fails.
pub(crate) fn push_scripts(text: &mut String, file: Option<&JobFile>) -> Result<(), AllocError>
    ensures { OnOk result (string_bytes text.new ≡ string_bytes text.old ++ scripts_note (option_copied file.entry)) }
{
    match file {
        None => Ok(()),
        Some(file) => push_names(text, file.scripts.as_slice()),
    }
}

// Appends the names of scripts in brackets, if there are any.
fn push_names(text: &mut String, scripts: &[Text]) -> Result<(), AllocError>
    ensures { OnOk result (string_bytes text.new ≡ string_bytes text.old ++ names_of scripts.now) }
{
    match scripts.split_first() {
        None => Ok(()),
        Some((first, more)) => push_list(text, first, more),
    }
}

// Appends the names of these scripts in brackets.
fn push_list(text: &mut String, first: &Text, more: &[Text]) -> Result<(), AllocError>
    ensures { OnOk result (string_bytes text.new ≡ string_bytes text.old ++ names_of (first.now ∷ more.now)) }
{
    push_name(text, "  [", first.as_str())?;
    push_more(text, more)?;
    text.push_str("]")?;
    Ok(())
}

// Appends the names of more scripts.
fn push_more(text: &mut String, scripts: &[Text]) -> Result<(), AllocError>
    ensures { OnOk result (string_bytes text.new ≡ string_bytes text.old ++ flat_map more_name scripts.now) }
{
    for script in scripts {
        push_name(text, " ", script.as_str())?;
    }
    Ok(())
}

// Appends what comes before the name of a script, and the name.
fn push_name(text: &mut String, before: &str, script: &str) -> Result<(), AllocError>
    ensures { OnOk result (string_bytes text.new ≡ string_bytes text.old ++ (before.now ++ file_name script.now)) }
{
    text.push_str(before)?;
    text.push_str(file_name(script))
}
