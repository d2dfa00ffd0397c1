//! A timer that is a source.

ghost use Rattle.std.specs.Prelude.{◌≡◌, ◌∷◌, IfOk};
ghost use Rattle.plan_timers.specs.Source.{parts_of_timer, parts_of_unit};

use crate::order::has_at;
use crate::reports::copy_of;
use plan_parts::{Part, Parts, UnitParts};
use plan_texts::Text;
use plan_tree::Name;
use std::alloc::{AllocError, Global};
use std::marker::Model;

/// A timer that is a source.
#[derive(Debug, Drop)]
pub struct TimerSource {
    /// The name of the timer.
    pub unit: Name,
    /// The name of its job.
    pub name: Text,
    /// Its file.
    pub file: Part,
    /// Its drop-ins, in the order in which they are merged.
    pub drop_ins: Vec<Part>,
}

impl Model for TimerSource {
    ghost use Rattle.plan_timers.specs.Source.{TimerParts};

    ghost Value = { TimerParts };

    ghost view = { λ source. record {
      unit = source.unit;
      name = source.name;
      file = source.file;
      drop_ins = source.drop_ins.items;
    } };
}

impl TimerSource {
    /// Returns the parts of the timer: its file alone, but its file and its drop-ins with its name if it has drop-ins or is
    /// an instance.
    ///
    /// # Errors
    ///
    /// `AllocError` if an allocation fails.
    pub fn into_parts(self, alloc: Global) -> Result<Parts, AllocError>
        ensures { IfOk result (λ parts. parts ≡ parts_of_timer self) }
    {
        let TimerSource {
            unit,
            file,
            drop_ins,
            ..
        } = self;
        if drop_ins.is_empty() && !has_at(unit.as_str()) {
            return Ok(Parts::One(file));
        }
        parts_of_unit(alloc, unit.as_str(), file, drop_ins)
    }
}

// Returns the parts of a unit with this name, its file and its drop-ins.
fn parts_of_unit(
    alloc: Global,
    unit: &str,
    file: Part,
    drop_ins: Vec<Part>,
) -> Result<Parts, AllocError>
    ensures { IfOk result (λ parts. parts ≡ parts_of_unit unit.now (file ∷ drop_ins.items)) }
{
    let mut drop_ins = drop_ins;
    let mut files = Vec::new(alloc);
    files.push(file)?;
    files.append(&mut drop_ins)?;
    let unit = copy_of(alloc, unit)?;
    Ok(Parts::OfUnit(UnitParts::new(alloc, unit, files)?))
}
