// Moving a plan on. Casts by `as` are from wider to narrower, proved to fit: TryFrom would add an error that never comes.
ghost use Rattle.std.specs.Prelude.{◌≡◌, ◌+◌, ◌*◌, ◌≤◌, ◌<◌, length, take};
ghost use mathlib.Core.List.{map, flatten};
ghost use Rattle.refusal.specs.Outcome.{Gives, written};
ghost use Rattle.refusal.specs.Results.{wrote};
ghost use Rattle.refusal.specs.declared.Verdict.TheVariants.{Plan as AboutPlan};
ghost use Rattle.record.specs.Buffer.{stored};
ghost use Rattle.plan.specs.Numbers.{plan_file};
ghost use Rattle.plan.specs.Plan.{block_rows, held_numbers};
ghost use Rattle.plan.specs.Valid.{HeadInRange};
ghost use Rattle.edit.specs.Moved.{turned, moved_row, moved_head, moved};
ghost use Rattle.edit.specs.Promises.{MovedOn, MovesAddUp};

use plan::Head;
use refusal::Refused;

fn moved_head(s: usize, h: Head) -> Head
    requires { HeadInRange h }
    ensures { result ≡ moved_head s h }
{
    let gone = s.min(h.stem);
    Head {
        steps: h.steps - gone,
        stem: h.stem - gone,
        ..h
    }
}

// Writes a lap turned by k at an offset of a buffer. Every other byte stays.
fn put_turned(lap: &[u8], k: usize, out: &mut [u8], at: usize)
    requires { (k < length lap.now) × (at + length lap.now ≤ length out.old) }
    ensures { out.new ≡ stored out.old at (turned k lap.now) }
{
    record::copy_at(out, at, &lap[k..]);
    record::copy_at(out, at + (lap.len() - k), &lap[..k]);
}

// Writes one row moved on by s, by a length and a lap of its own, at an offset of a buffer. Every other byte stays.
fn moved_row(row: &[u8], stem: usize, s: usize, out: &mut [u8], at: usize)
    requires { (stem < length row.now) × (at + length (moved_row (length row.now) stem s row.now) ≤ length out.old) }
    ensures { out.new ≡ stored out.old at (moved_row (length row.now) stem s row.now) }
{
    if s <= stem {
        record::copy_at(out, at, &row[s..]);
        return;
    }
    let k = (s - stem) % (row.len() - stem);
    put_turned(&row[stem..], k, out, at);
}

// The rows of a block moved on, one after the other with nothing between them. Where a row lies is a product, a sum and a slice,
// as in moves: a function in plan would only wrap them.
fn moved_rows(carts: usize, h: Head, block: &[u8; 2048], s: usize, size: usize) -> [u8; 2048]
    requires head_in_range { HeadInRange h }
    requires carts_bound { (carts ≤ 32) × (size ≡ (moved_head s h).steps) }
    ensures { take (carts * size) result ≡ flatten (map (moved_row h.steps h.stem s) (block_rows carts h.steps block.now)) }
{
    let steps = h.steps;
    let mut rows = [0u8; 2048];
    for c in 0..carts {
        let from = c * 64;
        let end = from + steps;
        moved_row(&block[from..end], h.stem, s, &mut rows, c * size);
    }
    rows
}

// Writes a plan that is read already, moved on, if there is room. Not by &PlanRead: tried, and behind it the length of the
// block's slices is not known.
fn put_moved(
    carts: usize,
    h: Head,
    block: &[u8; 2048],
    s: usize,
    out: &mut [u8],
) -> Result<u32, Refused>
    requires head_in_range { HeadInRange h }
    requires carts_bound { carts ≤ 32 }
    ensures { Gives (written AboutPlan (plan_file (moved s (held_numbers carts h block.now))) out.old) (wrote result) out.new }
{
    let m = moved_head(s, h);
    let steps = m.steps;
    let rows = moved_rows(carts, h, block, s, steps);
    let len = carts * steps;
    plan::put_numbers(
        steps as u16,
        m.stem as u16,
        m.drift as u16,
        &rows[0..len],
        out,
    )
}

// Moves a plan on by s steps.
pub fn move_on(floor: &[u8], plan: &[u8], s: u16, out: &mut [u8]) -> Result<u32, Refused>
    ensures moved { MovedOn floor.now plan.now s out.old (wrote result) out.new }
    ensures added_up { MovesAddUp floor.now plan.now s out.old (wrote result) out.new }
{
    let r = plan::read(floor, plan)?;
    put_moved(
        r.floor.carts,
        r.plan.head,
        &r.plan.block,
        usize::from(s),
        out,
    )
}
