// One row of a plan.
ghost use Rattle.std.specs.Prelude.{◌≡◌, ◌≤◌};
ghost use Rattle.refusal.specs.Codes.{unless_fault};
ghost use Rattle.plan.specs.Plan.{judged_row, row_fault};
ghost use Rattle.plan.specs.Numbers.{row_at};

use crate::{Head, RowFault};
use floor::Floor;

// The offset of cart c's row in a plan's file, its length and kind left out. By `as`: std has no From from u32 to usize.
pub fn row_at(steps: usize, c: u32) -> usize
    requires { steps ≤ 64 }
    ensures { result ≡ row_at steps c }
{
    10 + c as usize * (4 + steps) + 4
}

// Judges a row on its body alone: so many steps, each place on the floor. No `position`: tried, and no proof was found of what its closure runs over.
#[tactic(auto, unfolding(crate::specs::Plan::judged_row))]
pub fn judge_row(body: &[u8], steps: usize, places: usize) -> Result<(), RowFault>
    ensures { result ≡ judged_row body.now steps places }
{
    if body.len() != steps {
        return Err(RowFault::WrongLength);
    }
    for (step, place) in body.iter().enumerate() {
        if places <= usize::from(*place) {
            return Err(RowFault::Absent(step));
        }
    }
    Ok(())
}

// Judges a record behind n rows. An error is document 01's number of the refusal, as `row_fault` states it; the kind is the file's number, and any may stand
// there.
pub(crate) fn judge_record(f: Floor, h: Head, n: usize, kind: u16, body: &[u8]) -> Result<(), u32>
    ensures { result ≡ unless_fault (row_fault f h n kind body.now) (Ok tt) Err }
{
    if kind != 5 {
        return Err(3);
    }
    match judge_row(body, h.steps, f.places) {
        Err(RowFault::WrongLength) => Err(4),
        _ if f.carts <= n => Err(5),
        Err(RowFault::Absent(_)) => Err(9),
        Ok(()) => Ok(()),
    }
}
