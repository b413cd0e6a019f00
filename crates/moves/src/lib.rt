// Checking the moves of a plan, carts in order. Casts by `as` are from wider to narrower, proved to fit: TryFrom would add an error that never comes.
#![tactic(auto)]

ghost use Rattle.std.specs.Prelude.{◌≡◌, ℕ, ◌≤◌, ◌<◌, length, Err};
ghost use Rattle.refusal.specs.Results.{told, checked};
ghost use Rattle.floor.specs.Promises.{AcceptedFloor};
ghost use Rattle.plan.specs.Plan.{held_numbers};
ghost use Rattle.row.specs.declared.MoveFault.TheVariants.{Shut};
ghost use Rattle.moves.specs.Carts.{verdict_of, cart_verdict, judged_carts};
ghost use Rattle.moves.specs.Further.{RowsFit, FurtherFits, further_verdict, with_further};
ghost use Rattle.moves.specs.Promises.{MovesChecked};

use floor::Floor;
use plan::Head;
use refusal::Refused;
use row::{Lanes, MoveFault};

// What is refused of a cart's moves.
fn refused_move(c: usize, fault: MoveFault) -> Refused
    requires { (c < 32) × ((s : ℕ) → fault ≡ Shut s → s < 64) }
    ensures { told result ≡ verdict_of c (Err fault) }
{
    match fault {
        MoveFault::Elsewhere => Refused::Plan(refusal::refuse(10, c as u32, 0)),
        MoveFault::Shut(s) => Refused::Plan(refusal::refuse(11, c as u32, s as u32)),
    }
}

// Judges a row as a cart's.
fn judge_cart_row(lanes: &Lanes<'_>, c: usize, row: &[u8], stem: usize) -> Result<(), Refused>
    requires { (c < lanes.now.counts.carts) × (stem < length row.now) × (length row.now ≤ 64) }
    ensures { checked result ≡ cart_verdict lanes.now.floor.now c row.now (length row.now) stem }
{
    let at = floor::cart_at(lanes.counts, c) + 4;
    lanes
        .judge_moves(lanes.floor[at], lanes.floor[at + 1], row, stem)
        .map_err(|fault| refused_move(c, fault))
}

// Judges the rows of all carts. Where a cart's row lies is a product, a sum and a slice, here as in edit's moved_rows: a function in plan
// would only wrap them.
fn judge_carts(lanes: &Lanes<'_>, h: Head, block: &[u8; 2048]) -> Result<(), Refused>
    requires { RowsFit h }
    ensures { checked result ≡ judged_carts lanes.now.floor.now (held_numbers lanes.now.counts.carts h block.now) lanes.now.counts.carts 0 }
{
    let steps = h.steps;
    for c in 0..lanes.counts.carts {
        let from = c * 64;
        let end = from + steps;
        judge_cart_row(lanes, c, &block[from..end], h.stem)?;
    }
    Ok(())
}

// Judges a row beyond the plan's as a cart's. One without steps is none: not an Option, since with_further says so of judge_plan_and_row.
fn judge_further(lanes: &Lanes<'_>, c: usize, row: &[u8], stem: usize) -> Result<(), Refused>
    requires { FurtherFits lanes.now.counts.carts c row.now stem }
    ensures { checked result ≡ further_verdict lanes.now.floor.now c row.now stem }
{
    if row.is_empty() {
        return Ok(());
    }
    judge_cart_row(lanes, c, row, stem)
}

// Judges the rows of an accepted plan and then a further one, with the lanes linked in a table of N links.
fn judge_linked<const N: usize>(
    s: &[u8],
    f: Floor,
    h: Head,
    block: &[u8; 2048],
    c: usize,
    row: &[u8],
) -> Result<(), Refused>
    requires accepted_floor { AcceptedFloor s.now f }
    requires stem_lt_steps { RowsFit h }
    requires further_fits { FurtherFits f.carts c row.now h.stem }
    requires lanes_in_bounds { (f.lanes ≤ N) × (N ≤ 1024) }
    ensures { checked result ≡ with_further s.now f (held_numbers f.carts h block.now) c row.now }
{
    let mut first = [0u16; 256];
    let mut next = [0u16; N];
    row::link(s, f, &mut first, &mut next);
    let lanes = Lanes {
        floor: s,
        counts: f,
        first: &first,
        next: &next,
    };
    judge_carts(&lanes, h, block)?;
    judge_further(&lanes, c, row, h.stem)
}

// Judges the rows of an accepted plan and then a further one as a cart's. Clearing a large table of links would cost a small floor more than reading it.
// The floor's bytes, its numbers, the head and the block come one by one: `plan::read` gives the last three without the bytes, and a struct of all four would be
// made at each call.
pub fn judge_plan_and_row(
    s: &[u8],
    f: Floor,
    h: Head,
    block: &[u8; 2048],
    c: usize,
    row: &[u8],
) -> Result<(), Refused>
    requires accepted_floor { AcceptedFloor s.now f }
    requires stem_lt_steps { RowsFit h }
    requires further_fits { FurtherFits f.carts c row.now h.stem }
    ensures { checked result ≡ with_further s.now f (held_numbers f.carts h block.now) c row.now }
{
    if f.lanes <= 128 {
        judge_linked::<128>(s, f, h, block, c, row)
    } else {
        judge_linked::<1024>(s, f, h, block, c, row)
    }
}

// Judges the rows of an accepted plan.
pub fn judge_plan(floor: &[u8], f: Floor, h: Head, block: &[u8; 2048]) -> Result<(), Refused>
    requires accepted_floor { AcceptedFloor floor.now f }
    requires stem_lt_steps { RowsFit h }
    ensures { checked result ≡ judged_carts floor.now (held_numbers f.carts h block.now) f.carts 0 }
{
    judge_plan_and_row(floor, f, h, block, 0, &[])
}

// Checks the moves of a plan.
pub fn check(floor: &[u8], plan: &[u8]) -> Result<(), Refused>
    ensures { MovesChecked floor.now plan.now (checked result) }
{
    let r = plan::read(floor, plan)?;
    judge_plan(floor, r.floor, r.plan.head, &r.plan.block)
}
