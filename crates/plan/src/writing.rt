// Writing a plan. Casts by `as` are from wider to narrower, proved to fit: TryFrom would add an error that never comes.
ghost use Rattle.std.specs.Prelude.{◌≡◌, false, [], ◌+◌, ◌≤◌, ◌<◌, length, MatchOption};
ghost use Rattle.refusal.specs.Outcome.{Gives, written};
ghost use Rattle.refusal.specs.Results.{wrote};
ghost use Rattle.refusal.specs.declared.Verdict.TheVariants.{Plan as AboutPlan};
ghost use Rattle.record.specs.Parts.{laid};
ghost use Rattle.plan.specs.Plan.{read_rows, read_plan};
ghost use Rattle.plan.specs.Numbers.{head_of, head_bytes, row_records, plan_bytes, Narrow, judged_numbers};
ghost use Rattle.plan.specs.Promises.{PlanWritten};

use crate::Head;
use crate::heads::out_of_range;
use crate::rows::judge_record;
use floor::Floor;
use refusal::{Refusal, Refused};

// The length of a plan laid out, unless it is longer than a file may be. With no steps all bytes are one record.
fn laid_size(h: Head, rows: &[u8]) -> Option<usize>
    ensures { MatchOption result (65536 < length (plan_bytes h rows.now)) (λ k. (k ≡ length (plan_bytes h rows.now)) × (k ≤ 65536)) }
{
    let len = rows.len();
    if 65536 < len {
        return None;
    }
    let records = if h.steps == 0 {
        len.min(1)
    } else {
        len.div_ceil(h.steps)
    };
    let size = 10 + len + records * 4;
    if 65536 < size {
        return None;
    }
    Some(size)
}

// Judges rows laid out behind a head, as reading their records would.
fn judge_rows(f: Floor, h: Head, rows: &[u8]) -> Result<(), Refusal>
    requires { (0 < h.steps) × (10 + length (laid 5 h.steps rows.now) ≤ 65536) }
    ensures { result ≡ judged_numbers (read_rows f h [] 10 (row_records h rows.now) false) }
{
    // Counted, not enumerated: how many rows there are is read behind the loop too.
    let mut n: usize = 0;
    let mut at: u32 = 10;
    for row in rows.chunks(h.steps) {
        judge_record(f, h, n, 5, row).map_err(|fault| refusal::at_offset(fault, at))?;
        n += 1;
        at += 4 + row.len() as u32;
    }
    if n < f.carts {
        return Err(refusal::at_offset(7, at));
    }
    Ok(())
}

// Judges a plan's numbers as reading their records would.
fn judge_numbers(f: Floor, h: Head, rows: &[u8]) -> Result<(), Refusal>
    requires { Narrow h }
    ensures { result ≡ judged_numbers (read_plan f (plan_bytes h rows.now)) }
{
    let Some(_) = laid_size(h, rows) else {
        return Err(refusal::at_offset(1, 0));
    };
    if out_of_range(h) {
        return Err(refusal::at_offset(8, 0));
    }
    judge_rows(f, h, rows)
}

// The six bytes of a head.
fn head_bytes(steps: u16, stem: u16, drift: u16) -> [u8; 6]
    ensures { result ≡ head_bytes (head_of steps stem drift) }
{
    let s = endian::bytes16(steps);
    let l = endian::bytes16(stem);
    let d = endian::bytes16(drift);
    [s[0], s[1], l[0], l[1], d[0], d[1]]
}

// Writes a plan's numbers that reading would accept, if there is room. The head's are 16 bits wide each, as C lends them: a
// `Head` of indices would take more.
pub fn put_numbers(
    steps: u16,
    stem: u16,
    drift: u16,
    rows: &[u8],
    out: &mut [u8],
) -> Result<u32, Refused>
    requires { (0 < steps) × (length (plan_bytes (head_of steps stem drift) rows.now) ≤ 65536) }
    ensures { Gives (written AboutPlan (plan_bytes (head_of steps stem drift) rows.now) out.old) (wrote result) out.new }
{
    // It has one: `requires` says that it is no longer than a file may be.
    let n = laid_size(head_of(steps, stem, drift), rows).unwrap();
    if out.len() < n {
        return Err(Refused::Plan(refusal::refuse(18, n as u32, 0)));
    }
    record::put(out, 0, 4, &head_bytes(steps, stem, drift));
    record::put_parts(out, 10, 5, usize::from(steps), rows);
    Ok(n as u32)
}

fn head_of(steps: u16, stem: u16, drift: u16) -> Head
    ensures { result ≡ head_of steps stem drift }
{
    Head {
        steps: usize::from(steps),
        stem: usize::from(stem),
        drift: usize::from(drift),
    }
}

// Writes a plan's numbers as a file for a floor, or refuses them as reading that file would. The head's as C lends them, as above.
pub fn write(
    floor: &[u8],
    steps: u16,
    stem: u16,
    drift: u16,
    rows: &[u8],
    out: &mut [u8],
) -> Result<u32, Refused>
    ensures { PlanWritten floor.now (head_of steps stem drift) rows.now out.old (wrote result) out.new }
{
    let f = floor::read(floor).map_err(Refused::Floor)?;
    judge_numbers(f, head_of(steps, stem, drift), rows).map_err(Refused::Plan)?;
    put_numbers(steps, stem, drift, rows, out)
}
