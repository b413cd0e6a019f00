// Carts in order.
ghost use Rattle.std.specs.Prelude.{◌≡◌, Bool, ℕ, ◌≤◌, ◌<◌, Some};
ghost use Rattle.refusal.specs.Results.{checked};
ghost use Rattle.plan.specs.Valid.{HeadInRange};
ghost use Rattle.conflict.specs.Search.{narrow_verdict};
ghost use Rattle.conflict.specs.Table.{Flags, held_routes};
ghost use Rattle.conflict.specs.Above.{verdict_of};

use crate::rows::Rows;
use plan::Head;
use refusal::Refused;

// A cart's first meeting, if there is one, as its refusal. `as`, here and in above.rt: the numbers are proved to fit, and TryFrom would add an error that
// never comes.
fn refused_meeting(a: usize, m: Option<usize>) -> Result<(), Refused>
    requires { (a < 32) × ((s : ℕ) → m ≡ Some s → s < 64) }
    ensures { checked result ≡ verdict_of a m }
{
    match m {
        None => Ok(()),
        Some(s) => Err(Refused::Plan(refusal::refuse(20, a as u32, s as u32))),
    }
}

// Judges a plan's carts: the lowest in a conflict, at its earliest counter in one. A table marks the narrow places.
pub(crate) fn judge_carts(
    bays: &[u8; 256],
    carts: usize,
    h: Head,
    block: &[u8; 2048],
) -> Result<(), Refused>
    requires head_in_range { HeadInRange h }
    requires carts_bound { carts ≤ 32 }
    ensures { (narrow : ℕ → Bool) → Flags bays.now narrow
        → checked result ≡ narrow_verdict (held_routes narrow carts h block.now) h.drift }
{
    let rows = Rows {
        bays,
        block,
        carts,
        head: h,
    };
    for c in 0..carts {
        refused_meeting(c, rows.first_met(c))?;
    }
    Ok(())
}
