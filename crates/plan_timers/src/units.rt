//! What is known of the units of a machine.

use crate::links::LinkDir;
use plan_tree::Name;
use plan_units::UnitDir;

/// What is known of the units of a machine before its timers are looked at.
#[derive(Drop)]
pub struct Units<'a> {
    /// The directories of units, first to last.
    pub dirs: &'a [UnitDir],
    /// The directories of links to units that others want: see `link_dirs`.
    pub links: &'a [LinkDir],
    /// The names that the boot reaches, in byte order.
    pub reached: &'a [Name],
    /// How many bytes of a file are read.
    pub most: u64,
}
