//! Paths below the root of a machine, as people are shown them.

ghost use Rattle.std.specs.Prelude.{◌≡◌, ◌++◌, OnOk, string_bytes};
ghost use Rattle.plan_streams.specs.Writer.{Takes};
ghost use Rattle.plan_write.specs.Shown.{shown};
ghost use Rattle.agenda_machine.specs.Paths.{below};

use plan_streams::{Stream, TextWriter};
use plan_write::{push_shown, put_shown};
use std::alloc::AllocError;

// Puts a path below a root as people are shown it.
pub(crate) fn put_path<S: Stream>(root: &str, path: &str, lines: &mut TextWriter<'_, S>)
    ensures { Takes S.holds S.takes_all lines.old lines.new (shown (below root.now path.now)) }
{
    put_shown(root, lines);
    lines.put(b"/");
    put_shown(path, lines);
}

// Appends a path below a root as people are shown it.
pub(crate) fn push_path(whole: &mut String, root: &str, path: &str) -> Result<(), AllocError>
    ensures { OnOk result (string_bytes whole.new ≡ string_bytes whole.old ++ shown (below root.now path.now)) }
{
    push_shown(whole, root)?;
    whole.push_str("/")?;
    push_shown(whole, path)?;
    Ok(())
}
