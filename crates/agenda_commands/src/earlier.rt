//! An agenda that was made earlier.

ghost use Rattle.std.specs.Prelude.{◌≡◌, IfOk};
ghost use Rattle.std.specs.Arc.{arc_value};

use plan_baseline::Baseline;
use std::alloc::{AllocError, Global};
use std::marker::Model;
use std::sync::Arc;

/// An agenda that was made earlier. A goal shares it with what is made for the goal.
#[derive(Debug, Drop)]
pub struct Earlier {
    shared: Arc<Baseline>,
}

impl Model for Earlier {
    ghost use Rattle.std.specs.Arc.{arc_value};
    ghost use Rattle.plan_baseline.specs.Line.{Listing, listing_code};

    ghost Value = { Listing };

    ghost coded = { listing_code };

    ghost view = { λ earlier. arc_value earlier.shared };
}

impl Earlier {
    /// Keeps an agenda.
    ///
    /// # Errors
    ///
    /// `AllocError` if an allocation failed.
    pub fn new(alloc: Global, agenda: Baseline) -> Result<Earlier, AllocError>
        ensures { IfOk result (λ earlier. earlier ≡ agenda) }
    {
        let shared = Arc::new(alloc, agenda)?;
        Ok(Earlier { shared })
    }

    // Returns the same agenda, shared with this one.
    pub(crate) fn share(&self) -> Result<Earlier, AllocError>
        ensures { IfOk result (λ earlier. earlier ≡ self.now) }
    {
        let shared = Arc::try_clone(&self.shared)?;
        Ok(Earlier { shared })
    }

    // Lends the agenda.
    pub(crate) fn agenda(&self) -> &Baseline
        ensures { result.now ≡ self.now }
    {
        &self.shared
    }
}
