//! Whether a service has a command to start, or may do without one (systemd.service(5)).

ghost use Rattle.std.specs.Prelude.{◌≡◌, ◌==◌, not, true, IfOk, length, map};
ghost use Rattle.plan_texts.specs.WholeLines.{whole_text};
ghost use Rattle.plan_services.specs.Commands.{action_after, after_file, after_files, after_line_by, after_lines, after_service_setting, after_setting, after_unit_setting, can_start, commands_of, has_value, is_idle, is_oneshot, no_commands, section_after, section_of, truth_after, type_after};
ghost use Rattle.plan_services.specs.declared.commands.Section.TheVariants as section;
ghost use Rattle.plan_units.specs.Settings.{lines_at, section_name, setting_of};

use plan_spans::boolean;
use plan_texts::whole_lines::{WholeLine, trimmed};
use plan_tree::Tree;
use plan_units::{Entry, Unit, UnitDir, drop_ins, lines_at, section_name, setting_of};
use std::alloc::{AllocError, Global};

// The type of a service.
#[derive(Clone, Copy, Debug, PartialEq, Eq)]
pub(crate) enum ServiceType {
    // None is given.
    Unset,
    // It is oneshot.
    Oneshot,
    // It is another one.
    Other,
}

// The section of a unit's file that a line is in.
#[derive(Clone, Copy, Debug, PartialEq, Eq)]
pub(crate) enum Section {
    // [Unit]
    Unit,
    // [Service]
    Service,
    // Another one, or none.
    Other,
}

// What the files of a service say of its commands.
#[derive(Clone, Copy, Debug, PartialEq, Eq)]
pub(crate) struct Commands {
    // Whether it has `ExecStart=`.
    pub(crate) starts: bool,
    // Whether it has `ExecStop=`.
    pub(crate) stops: bool,
    // Whether it remains active after it exits, by `RemainAfterExit=`.
    pub(crate) remains: bool,
    // Whether it has `BusName=`.
    pub(crate) has_bus: bool,
    // Whether it has a `SuccessAction=` other than `none`.
    pub(crate) acts: bool,
    // Its type.
    pub(crate) service_type: ServiceType,
}

// Returns whether a unit is a service that can't start.
pub(crate) fn is_idle<T: Tree>(
    alloc: Global,
    tree: &T,
    dirs: &[UnitDir],
    unit: &Unit,
) -> Result<bool, AllocError>
    ensures { T.is_known ≡ true → IfOk result (λ is. is ≡ is_idle (T.held tree.now) dirs.now unit.now) }
{
    if !unit.name.as_str().as_bytes().ends_with(b".service") {
        return Ok(false);
    }
    if !has_lines(alloc, tree, unit.file.real.as_str())? {
        return Ok(false);
    }
    let commands = commands_of(alloc, tree, dirs, unit)?;
    Ok(!can_start(commands))
}

// Returns whether the file at a path has lines.
fn has_lines<T: Tree>(alloc: Global, tree: &T, path: &str) -> Result<bool, AllocError>
    ensures { T.is_known ≡ true → IfOk result (λ has.
        has ≡ not (length (lines_at (T.held tree.now) path.now) == 0)) }
{
    let lines = lines_at(alloc, tree, path)?;
    Ok(!lines.is_empty())
}

// Returns whether a service can start.
fn can_start(commands: Commands) -> bool
    ensures { result ≡ can_start commands }
{
    commands.starts
        || (is_oneshot(commands.service_type, commands.has_bus)
            && ((commands.stops && commands.remains) || commands.acts))
}

// Returns whether a service without `ExecStart=` is oneshot.
fn is_oneshot(service_type: ServiceType, has_bus: bool) -> bool
    ensures { result ≡ is_oneshot service_type has_bus }
{
    match service_type {
        ServiceType::Oneshot => true,
        ServiceType::Other => false,
        ServiceType::Unset => !has_bus,
    }
}

// Returns what the files of a unit say.
#[tactic(auto, unfolding(crate::specs::Commands::commands_of))]
fn commands_of<T: Tree>(
    alloc: Global,
    tree: &T,
    dirs: &[UnitDir],
    unit: &Unit,
) -> Result<Commands, AllocError>
    ensures { T.is_known ≡ true → IfOk result (λ commands.
        commands ≡ commands_of (T.held tree.now) dirs.now unit.now) }
{
    let first = after_file(alloc, tree, no_commands(), unit.file.real.as_str())?;
    let files = drop_ins(alloc, tree, dirs, unit.name.as_str())?;
    after_files(alloc, tree, first, files.as_slice())
}

// Returns what is said before the first file.
fn no_commands() -> Commands
    ensures { result ≡ no_commands }
{
    Commands {
        starts: false,
        stops: false,
        remains: false,
        has_bus: false,
        acts: false,
        service_type: ServiceType::Unset,
    }
}

// Returns what is said after some files.
fn after_files<T: Tree>(
    alloc: Global,
    tree: &T,
    before: Commands,
    files: &[Entry],
) -> Result<Commands, AllocError>
    ensures { T.is_known ≡ true → IfOk result (λ commands.
        commands ≡ after_files (T.held tree.now) before files.now) }
{
    let mut commands = before;
    for file in files {
        commands = after_file(alloc, tree, commands, file.real.as_str())?;
    }
    Ok(commands)
}

// Returns what is said after a file.
fn after_file<T: Tree>(
    alloc: Global,
    tree: &T,
    before: Commands,
    path: &str,
) -> Result<Commands, AllocError>
    ensures { T.is_known ≡ true → IfOk result (λ commands.
        commands ≡ after_file (T.held tree.now) before path.now) }
{
    let lines = lines_at(alloc, tree, path)?;
    Ok(after_lines(before, lines.as_slice()))
}

// Returns what is said after whole lines.
fn after_lines(before: Commands, lines: &[WholeLine]) -> Commands
    ensures { result ≡ after_lines before section.Other (map whole_text lines.now) }
{
    let mut commands = before;
    let mut inside = Section::Other;
    for line in lines {
        let text = trimmed(line.text.as_str());
        commands = after_line(commands, inside, text);
        inside = section_after(inside, text.as_bytes());
    }
    commands
}

// Returns the section after a line.
fn section_after(before: Section, text: &[u8]) -> Section
    ensures { result ≡ section_after before (section_name text.now) }
{
    match section_name(text) {
        Some(name) => section_of(name),
        None => before,
    }
}

// Returns the section with a name.
fn section_of(name: &[u8]) -> Section
    ensures { result ≡ section_of name.now }
{
    if name == b"Unit".as_slice() {
        return Section::Unit;
    }
    if name == b"Service".as_slice() {
        return Section::Service;
    }
    Section::Other
}

// Returns what is said after a line in a section.
fn after_line(before: Commands, inside: Section, text: &str) -> Commands
    ensures { result ≡ after_line_by before inside (setting_of text.now) }
{
    match setting_of(text) {
        Some((key, value)) => after_setting(before, inside, key, value),
        None => before,
    }
}

// Returns what is said after a setting in a section.
fn after_setting(before: Commands, inside: Section, key: &str, value: &str) -> Commands
    ensures { result ≡ after_setting before inside (key.now, value.now) }
{
    match inside {
        Section::Unit => after_unit_setting(before, key, value),
        Section::Service => after_service_setting(before, key, value),
        Section::Other => before,
    }
}

// Returns what is said after a setting in a section `[Unit]`.
fn after_unit_setting(before: Commands, key: &str, value: &str) -> Commands
    ensures { result ≡ after_unit_setting before (key.now, value.now) }
{
    let mut after = before;
    if key == "SuccessAction" {
        after.acts = action_after(before.acts, value);
    }
    after
}

// Returns what is said after a setting in a section `[Service]`.
fn after_service_setting(before: Commands, key: &str, value: &str) -> Commands
    ensures { result ≡ after_service_setting before (key.now, value.now) }
{
    let mut after = before;
    match key {
        "ExecStart" => after.starts = has_value(value),
        "ExecStop" => after.stops = has_value(value),
        "RemainAfterExit" => after.remains = truth_after(before.remains, value),
        "BusName" => after.has_bus = has_value(value),
        "Type" => after.service_type = type_after(before.service_type, value),
        _ => {}
    }
    after
}

// Returns whether a value isn't empty.
fn has_value(value: &str) -> bool
    ensures { result ≡ has_value value.now }
{
    !value.is_empty()
}

// Returns the type of a service after a value of `Type=`.
fn type_after(before: ServiceType, value: &str) -> ServiceType
    ensures { result ≡ type_after before value.now }
{
    match value {
        "oneshot" => ServiceType::Oneshot,
        "simple" | "exec" | "forking" | "dbus" | "notify" | "idle" => ServiceType::Other,
        _ => before,
    }
}

// Returns whether there is an action after a value of `SuccessAction=`.
fn action_after(before: bool, value: &str) -> bool
    ensures { result ≡ action_after before value.now }
{
    match value {
        "none" => false,
        "reboot"
        | "reboot-force"
        | "reboot-immediate"
        | "poweroff"
        | "poweroff-force"
        | "poweroff-immediate"
        | "exit"
        | "exit-force" => true,
        _ => before,
    }
}

// Returns whether a setting is true after a value.
fn truth_after(before: bool, value: &str) -> bool
    ensures { result ≡ truth_after before value.now }
{
    boolean(value).unwrap_or(before)
}
