//! The ends of a ring of one sender, which other modules use.

ghost use Rattle.std.specs.Prelude.{◌≡◌, [], IfOk, Some, slice_get};
ghost use Rattle.plan_mailbox.specs.Ends.{inlet_of, outlet_of};

use plan_mailbox::{Inlet, Outlet, Rings};
use std::alloc::Global;
use std::test::Fail;

/// Returns the outlet and the inlet of a ring with this capacity.
pub fn ends_of_one<M: Drop>(alloc: Global, room: usize) -> Result<(Outlet<M>, Inlet<M>), Fail>
    ensures { IfOk result (λ ends. ((outlet_of ends.0).sender ≡ 0)
        × (slice_get (inlet_of ends.1).rings 0 ≡ Some (outlet_of ends.0).ring)
        × ((outlet_of ends.0).sent ≡ [])) }
{
    let rings = Rings::new(alloc, 1, room)?;
    let Ok((mut outlets, inlet)) = rings.split(alloc) else {
        return Err(Fail::from("the rings came back"));
    };
    let Some(outlet) = outlets.pop() else {
        return Err(Fail::from("no outlet"));
    };
    Ok((outlet, inlet))
}
