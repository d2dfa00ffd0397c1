//! The name of a file, from its path.

ghost use Rattle.std.specs.Prelude.{◌≡◌};
ghost use Rattle.agenda_sources.specs.Name.{file_name};

/// Returns a file's name: its path after the last `/`.
pub fn file_name(path: &str) -> &str
    ensures { result.now ≡ file_name path.now }
{
    match path.rsplit_once('/') {
        Some((_, name)) => name,
        None => path,
    }
}
