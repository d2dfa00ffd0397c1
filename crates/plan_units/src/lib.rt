//! The units of systemd in a tree of files: which file counts for a name, and which units the boot reaches.
//!
//! Read `paths` first, then `validity` for which names are valid, `file` and `unit`, which say what a name means, and then `wants` and `reach`.
#![tactic(auto)]

mod drop_in_files;
mod file;
mod mask;
mod merging;
mod names;
mod paths;
mod reach;
mod settings;
mod timers;
mod unit;
mod unit_dirs;
mod validity;
mod wants;

pub use drop_in_files::{drop_in_entries, drop_ins, drop_ins_among};
pub use file::{UnitFile, file_of_unit, is_below, last_name};
pub use mask::is_mask;
pub use merging::{Entry, entries_among, names_at};
pub use names::{stem, template_of, wanted_name};
pub use paths::{UnitDir, dir_at, dirs_at, read_dir, search_path};
pub use reach::{Wants, add_new, reached};
pub use settings::{lines_at, name_of_word, section_name, setting_of};
pub use timers::{boot_timers, is_timer};
pub use unit::{Unit, unit_of};
pub use unit_dirs::names_of_dirs;
pub use validity::{is_unit_name, is_valid_name};
pub use wants::{TreeUnits, is_counted, reached_units, set_by_unit, wanted_names};
