//! The text of the sources of a machine.

ghost use Rattle.std.specs.Prelude.{◌≡◌, IsTrue, OnOk};
ghost use Rattle.std.specs.List.{flat_map};
ghost use Rattle.plan_streams.specs.Stream.{Puts};
ghost use Rattle.plan_streams.specs.Writer.{Takes};
ghost use Rattle.plan_write.specs.Json.{json_string};
ghost use Rattle.agenda_machine.specs.Listing.{drop_in_kind, drop_ins, is_of_user, kind_of, part_line, part_object, part_text, source_text, sources_text};
ghost use Rattle.agenda_machine.specs.Paths.{below};

use crate::paths::put_path;
use plan_machine::MachineSource;
use plan_parts::Part;
use plan_rules::{SourceKind, timer_user};
use plan_streams::{Stream, TextWriter, WriteFault};
use plan_write::{put_string, put_text};

/// Writes the sources of a machine, a line for each, in order: its kind, a tab, its name, a tab, and its path.
///
/// After a timer there is such a line of the kind `drop-in` for each of its drop-ins, with the timer's name. The kinds of a user's
/// timer are `user-timer` and `user-drop-in`. With `json` each line is an object with the members `kind`, `name` and `path`.
///
/// A path is `root`, a `/`, and the path on the machine. In a line of text, control characters in it are written as
/// `\xNN` for each of their bytes, and a backslash as `\\`. This requests no memory. The stream is flushed once, at the
/// end.
///
/// # Errors
///
/// `Device` or `Closed` if the stream fails. Then only the first bytes of the text were written.
// Not inlined: its buffer of 64 KiB takes stack only while it runs.
#[inline(never)]
pub fn write_sources<S: Stream>(
    root: &str,
    sources: &[MachineSource],
    json: bool,
    out: &mut S,
) -> Result<(), WriteFault>
    ensures text { Puts S.takes_all result (S.holds out.old) (S.holds out.new) (sources_text json root.now sources.now) }
    ensures flushed { OnOk result (IsTrue (S.is_flushed out.new)) }
{
    let mut lines = TextWriter::new(out);
    put_sources(root, sources, json, &mut lines);
    lines.finish()
}

// Puts the lines of sources, in order.
fn put_sources<S: Stream>(
    root: &str,
    sources: &[MachineSource],
    json: bool,
    lines: &mut TextWriter<'_, S>,
)
    ensures { Takes S.holds S.takes_all lines.old lines.new (sources_text json root.now sources.now) }
{
    for source in sources {
        put_source(root, source, json, lines);
    }
}

// Puts the lines of a source.
fn put_source<S: Stream>(
    root: &str,
    source: &MachineSource,
    json: bool,
    lines: &mut TextWriter<'_, S>,
)
    ensures { Takes S.holds S.takes_all lines.old lines.new (source_text json root.now source.now) }
{
    if let Some((first, more)) = source.parts().files().split_first() {
        put_part(root, kind_of(source), source.name(), first, json, lines);
        put_drop_ins(root, drop_in_kind(source), source.name(), more, json, lines);
    }
}

// Returns what the first file of a source is called.
fn kind_of(source: &MachineSource) -> &'static str
    ensures { result.now ≡ kind_of source.now }
{
    if is_of_user(source) {
        "user-timer"
    } else {
        source.kind().option()
    }
}

// Returns what the drop-ins of a source are called.
fn drop_in_kind(source: &MachineSource) -> &'static str
    ensures { result.now ≡ drop_in_kind source.now }
{
    if is_of_user(source) {
        "user-drop-in"
    } else {
        "drop-in"
    }
}

// Returns whether a source is the timer of a user.
fn is_of_user(source: &MachineSource) -> bool
    ensures { result ≡ is_of_user source.now }
{
    match source.kind() {
        SourceKind::Timer => timer_user(source.name()).is_some(),
        _ => false,
    }
}

// Puts the lines of drop-ins, in order.
fn put_drop_ins<S: Stream>(
    root: &str,
    kind: &str,
    name: &str,
    parts: &[Part],
    json: bool,
    lines: &mut TextWriter<'_, S>,
)
    ensures { Takes S.holds S.takes_all lines.old lines.new (drop_ins json root.now kind.now name.now parts.now) }
{
    for part in parts {
        put_part(root, kind, name, part, json, lines);
    }
}

// Puts the line of a part of a source.
fn put_part<S: Stream>(
    root: &str,
    kind: &str,
    name: &str,
    part: &Part,
    json: bool,
    lines: &mut TextWriter<'_, S>,
)
    ensures { Takes S.holds S.takes_all lines.old lines.new (part_text json root.now kind.now name.now part.now) }
{
    if json {
        put_part_object(root, kind, name, part.path(), lines);
    } else {
        put_part_line(root, kind, name, part.path(), lines);
    }
}

// Puts the line of a part in text.
fn put_part_line<S: Stream>(
    root: &str,
    kind: &str,
    name: &str,
    path: &str,
    lines: &mut TextWriter<'_, S>,
)
    ensures { Takes S.holds S.takes_all lines.old lines.new (part_line kind.now name.now (below root.now path.now)) }
{
    lines.put_both(kind.as_bytes(), b"\t");
    lines.put_both(name.as_bytes(), b"\t");
    put_path(root, path, lines);
    lines.put(b"\n");
}

// Puts the object of a part.
fn put_part_object<S: Stream>(
    root: &str,
    kind: &str,
    name: &str,
    path: &str,
    lines: &mut TextWriter<'_, S>,
)
    ensures { Takes S.holds S.takes_all lines.old lines.new (part_object kind.now name.now (below root.now path.now)) }
{
    lines.put(b"{\"kind\":");
    put_string(kind, lines);
    lines.put(b",\"name\":");
    put_string(name, lines);
    lines.put(b",\"path\":");
    put_path_string(root, path, lines);
    lines.put(b"}\n");
}

// Puts a path below a root as a string.
fn put_path_string<S: Stream>(root: &str, path: &str, lines: &mut TextWriter<'_, S>)
    ensures { Takes S.holds S.takes_all lines.old lines.new (json_string (below root.now path.now)) }
{
    lines.put(b"\"");
    put_text(true, root.as_bytes(), lines);
    put_text(true, b"/", lines);
    put_text(true, path.as_bytes(), lines);
    lines.put(b"\"");
}
