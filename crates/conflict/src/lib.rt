// Narrow places: whether two carts can meet in one, or change places between two.
#![tactic(auto)]

mod above;
mod carts;
mod columns;
mod narrow;
mod rows;

ghost use Rattle.std.specs.Prelude.{◌≡◌};
ghost use Rattle.refusal.specs.Results.{checked};
ghost use Rattle.floor.specs.Promises.{AcceptedFloor};
ghost use Rattle.plan.specs.Plan.{held_numbers};
ghost use Rattle.plan.specs.Valid.{HeadInRange};
ghost use Rattle.conflict.specs.OfPlan.{conflict_verdict};

use carts::judge_carts;
use floor::Floor;
use plan::Head;
use refusal::Refused;

// Judges the rows of an accepted plan. Where nothing is narrow there is nothing to judge. The parameters are those of moves::judge_plan; behind them all is in
// a Rows.
pub fn judge_plan(floor: &[u8], f: Floor, h: Head, block: &[u8; 2048]) -> Result<(), Refused>
    requires accepted_floor { AcceptedFloor floor.now f }
    requires head_in_range { HeadInRange h }
    ensures { checked result ≡ conflict_verdict floor.now f (held_numbers f.carts h block.now) }
{
    if f.narrow == 0 {
        return Ok(());
    }
    let bays = narrow::marked(floor, f);
    judge_carts(&bays, f.carts, h, block)
}
