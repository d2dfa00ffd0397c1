//! Makes the format of an answer.

ghost use Rattle.std.specs.Prelude.{◌≡◌, IfOk};
ghost use Rattle.agenda_answers.specs.Formats.{form_made, format_made, unnamed_zone, zone_of};

use agenda_arguments::{FormatRequest, TableRequest};
use agenda_commands::{Form, TableForm};
use agenda_faults::Failure;
use agenda_inputs::named_zone;
use agenda_table::Frame;
use plan_clock::Clock;
use plan_rules::{NamedZone, Text};
use plan_write::Format;
use std::alloc::{AllocError, Global};

/// The name of UTC in the header of an agenda.
pub(crate) const UTC: &str = "UTC";

// The name of a zone whose file has none.
const LOCAL: &str = "local";

/// In which form an answer about a machine is requested.
#[derive(Clone, Copy, Debug)]
pub(crate) struct FormRequest {
    /// How it is written, unless it is a table.
    pub(crate) format: FormatRequest,
    /// Whether it is a table.
    pub(crate) table: TableRequest,
}

/// Makes the format of an answer whose zone is given by this text, and has this clock. Without a text the zone is called `unnamed`.
///
/// # Errors
///
/// `Run(NoMemory)` if an allocation failed. That can only happen if local times are requested.
pub(crate) fn make_format(
    alloc: Global,
    request: FormatRequest,
    given: &Option<Text>,
    unnamed: &str,
    clock: &Clock,
) -> Result<Format, Failure>
    ensures { format_made request given.now unnamed.now clock.now result }
{
    if !request.local {
        return Ok(Format {
            json: request.json,
            local: None,
        });
    }
    let zone = given_zone(alloc, given, unnamed, clock)?;
    Ok(Format {
        json: request.json,
        local: Some(zone),
    })
}

/// Makes the form of an answer about a machine. A table counts from `origin`, and is shown in this frame.
///
/// # Errors
///
/// `Run(NoMemory)` if an allocation failed.
pub(crate) fn make_form(
    alloc: Global,
    request: FormRequest,
    origin: Option<u64>,
    frame: Frame,
    given: &Option<Text>,
    unnamed: &str,
    clock: &Clock,
) -> Result<Form, Failure>
    ensures { form_made request origin frame given.now unnamed.now clock.now result }
{
    if request.table.is_table(frame.terminal) {
        let zone = given_zone(alloc, given, unnamed, clock)?;
        return Ok(Form::Table(TableForm {
            zone,
            origin,
            frame,
        }));
    }
    let format = make_format(alloc, request.format, given, unnamed, clock)?;
    Ok(Form::Lines(format))
}

/// Returns what a zone without a name is called.
pub(crate) fn unnamed_zone(is_of_file: bool) -> &'static str
    ensures { result.now ≡ unnamed_zone is_of_file }
{
    if is_of_file { LOCAL } else { UTC }
}

// Returns the given zone, with its text as its name.
fn given_zone(
    alloc: Global,
    given: &Option<Text>,
    unnamed: &str,
    clock: &Clock,
) -> Result<NamedZone, AllocError>
    ensures { IfOk result (λ zone. zone ≡ zone_of given.now unnamed.now clock.now) }
{
    let name = match given {
        Some(text) => text.as_str(),
        None => unnamed,
    };
    named_zone(alloc, name, clock)
}
