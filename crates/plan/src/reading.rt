// Reading a plan. The cast by `as` is from wider to narrower, proved to fit: TryFrom would add an error that never comes.
ghost use Rattle.std.specs.Prelude.{◌≡◌, ◌≤◌, [], length};
ghost use Rattle.refusal.specs.Codes.{at_offset};
ghost use Rattle.refusal.specs.declared.Refused.TheVariants.{Plan as RefusedPlan};
ghost use Rattle.record.specs.Record.{records_in};
ghost use Rattle.plan.specs.Plan.{plan_read, head_in, rows_from, read_plan};
ghost use Rattle.plan.specs.Promises.{PlanReads};

use crate::heads::judge_head;
use crate::rows::judge_record;
use crate::{Head, Plan, PlanRead};
use floor::Floor;
use record::Found;
use refusal::{Refusal, Refused};

// A plan's refusal at an offset.
fn refused_at(number: u32, at: usize) -> Refused
    requires { at ≤ 65536 }
    ensures { result ≡ RefusedPlan (at_offset number at) }
{
    Refused::Plan(refusal::at_offset(number, at as u32))
}

// The rows behind a head. The head's record is ten bytes.
fn read_rows(f: Floor, h: Head, s: &[u8]) -> Result<PlanRead, Refused>
    requires { (f.carts ≤ 32) × (h.steps ≤ 64) × (10 ≤ length s.now) × (length s.now ≤ 65536) }
    ensures { result ≡ plan_read f (rows_from f h [] 10 s.now) }
{
    let mut block = [0u8; 2048];
    // Counted and found, by no range: each record says where the next one begins.
    let mut n: usize = 0;
    let mut at: usize = 10;
    loop {
        match record::find(s, at) {
            Found::End => {
                if n < f.carts {
                    return Err(refused_at(7, at));
                }
                return Ok(PlanRead {
                    floor: f,
                    plan: Plan {
                        head: h,
                        carts: n,
                        block,
                    },
                });
            }
            Found::Cut => {
                return Err(refused_at(2, at));
            }
            Found::Whole { kind, start, end } => {
                let body = &s[start..end];
                judge_record(f, h, n, kind, body).map_err(|fault| refused_at(fault, at))?;
                record::copy_at(&mut block, n * 64, body);
                n += 1;
                at = end;
            }
        }
    }
}

// The head's record.
fn read_head(s: &[u8]) -> Result<Head, Refusal>
    ensures { result ≡ head_in (records_in s.now) }
{
    match record::find(s, 0) {
        Found::End => Err(refusal::at_offset(7, 0)),
        Found::Cut => Err(refusal::at_offset(2, 0)),
        Found::Whole { kind, start, end } => judge_head(kind, &s[start..end]),
    }
}

// Reads a plan for a floor that is read already.
fn read_for(f: Floor, s: &[u8]) -> Result<PlanRead, Refused>
    requires { f.carts ≤ 32 }
    ensures { result ≡ plan_read f (read_plan f s.now) }
{
    if 65536 < s.len() {
        return Err(refused_at(1, 0));
    }
    let h = read_head(s).map_err(Refused::Plan)?;
    read_rows(f, h, s)
}

// Reads a floor, and a plan for it.
pub fn read(floor: &[u8], plan: &[u8]) -> Result<PlanRead, Refused>
    ensures { PlanReads floor.now plan.now result }
{
    let f = floor::read(floor).map_err(Refused::Floor)?;
    read_for(f, plan)
}
