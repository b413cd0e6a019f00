// Replacing a row: judged first, and written only where that accepts. Casts by `as`: u32 to usize has no From, and where a step becomes a u32 it is proved to
// fit, so TryFrom would add an error that never comes.
ghost use Rattle.std.specs.Prelude.{◌≡◌, ℕ, ◌<◌, Err};
ghost use Rattle.floor.specs.Promises.{AcceptedFloor};
ghost use Rattle.plan.specs.Plan.{held_numbers};
ghost use Rattle.plan.specs.Valid.{HeadInRange};
ghost use Rattle.refusal.specs.Results.{told, checked};
ghost use Rattle.plan.specs.declared.RowFault.TheVariants.{Absent};
ghost use Rattle.edit.specs.Replaced.{places_verdict, replace_verdict};
ghost use Rattle.edit.specs.Judgement.{fit_verdict, ReplacementJudged};
ghost use Rattle.edit.specs.Promises.{RowReplaced};

use floor::Floor;
use plan::{Head, PlanRead, RowFault};
use refusal::Refused;

// What is refused of a row's places.
fn refused_row(cart: u32, fault: RowFault) -> Refused
    requires { (s : ℕ) → fault ≡ Absent s → s < 64 }
    ensures { told result ≡ places_verdict cart (Err fault) }
{
    match fault {
        RowFault::WrongLength => Refused::Plan(refusal::refuse(4, 0, 0)),
        RowFault::Absent(s) => Refused::Plan(refusal::refuse(9, cart, s as u32)),
    }
}

// Judges whether a row fits a cart of the floor, its moves left out.
fn judge_fit(f: Floor, h: Head, cart: u32, row: &[u8]) -> Result<(), Refused>
    requires head_in_range { HeadInRange h }
    ensures { checked result ≡ fit_verdict f h cart row.now }
{
    if f.carts <= cart as usize {
        return Err(Refused::Plan(refusal::refuse(19, cart, 0)));
    }
    plan::judge_row(row, h.steps, f.places).map_err(|fault| refused_row(cart, fault))
}

// Judges the moves of a plan that is read already, and then a row for a cart. Its fit is judged first, so that its moves can follow the plan's
// with the lanes linked once. A row that doesn't fit is told only where the plan's moves are accepted.
fn judge_moves_and_row(floor: &[u8], r: &PlanRead, cart: u32, row: &[u8]) -> Result<(), Refused>
    requires accepted_floor { AcceptedFloor floor.now r.now.floor }
    requires head_in_range { HeadInRange r.now.plan.head }
    ensures { checked result
        ≡ replace_verdict floor.now r.now.floor (held_numbers r.now.floor.carts r.now.plan.head r.now.plan.block) cart row.now }
{
    let h = r.plan.head;
    if let Err(unfit) = judge_fit(r.floor, h, cart, row) {
        moves::judge_plan(floor, r.floor, h, &r.plan.block)?;
        return Err(unfit);
    }
    moves::judge_plan_and_row(floor, r.floor, h, &r.plan.block, cart as usize, row)
}

// Judges a replacement. It changes nothing.
fn judge(floor: &[u8], plan: &[u8], cart: u32, row: &[u8]) -> Result<usize, Refused>
    ensures { ReplacementJudged floor.now plan.now cart row.now result }
{
    let r = plan::read(floor, plan)?;
    judge_moves_and_row(floor, &r, cart, row)?;
    Ok(plan::row_at(r.plan.head.steps, cart))
}

// Replaces a cart's row in a plan.
pub fn replace_row(floor: &[u8], plan: &mut [u8], cart: u32, row: &[u8]) -> Result<(), Refused>
    ensures { RowReplaced floor.now plan.old cart row.now (checked result) plan.new }
{
    let at = judge(floor, plan, cart, row)?;
    record::copy_at(plan, at, row);
    Ok(())
}
