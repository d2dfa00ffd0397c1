//! The root of a machine.

ghost use Rattle.std.specs.Prelude.{◌≡◌};
ghost use Rattle.agenda_machine.specs.Root.{dir_of, root_of};

/// Returns the path of a directory without the slashes at its end. That of the root of the file system is empty.
pub fn root_of(dir: &str) -> &str
    ensures { result.now ≡ root_of dir.now }
{
    match dir.strip_suffix('/') {
        Some(front) => root_of(front),
        None => dir,
    }
}

/// Returns the path of a directory as people are shown it: without the slashes at its end, but that of `/`.
pub fn dir_of(dir: &str) -> &str
    ensures { result.now ≡ dir_of dir.now }
{
    let root = root_of(dir);
    if root.is_empty() && !dir.is_empty() {
        "/"
    } else {
        root
    }
}
