// Reading a floor. Casts by `as` are from wider to narrower, proved to fit: TryFrom would add an error that never comes.
ghost use Rattle.std.specs.Prelude.{◌≡◌, false, ◌≤◌, Ok};
ghost use Rattle.floor.specs.Floor.{at_end, floor_verdict};
ghost use Rattle.floor.specs.Promises.{FloorRead};

use crate::Floor;
use crate::judging::judge_at;
use record::Found;
use refusal::{Refusal, Verdict};

// The answer at the end of the records.
pub(crate) fn at_end(f: Floor, at: usize) -> Result<Floor, Refusal>
    requires { at ≤ 65536 }
    ensures { result ≡ at_end (Ok (f, at)) false }
{
    if f.places == 0 || f.carts == 0 {
        return Err(refusal::at_offset(7, at as u32));
    }
    Ok(f)
}

// Reads a floor. The loop's offset is found by each record and not counted; what is found has three cases, so an iterator over records would be no plainer.
pub fn read(s: &[u8]) -> Result<Floor, Refusal>
    ensures { FloorRead s.now result }
{
    if 65536 < s.len() {
        return Err(refusal::at_offset(1, 0));
    }
    let mut f = Floor::default();
    let mut at: usize = 0;
    loop {
        match record::find(s, at) {
            Found::End => {
                return at_end(f, at);
            }
            Found::Cut => {
                return Err(refusal::at_offset(2, at as u32));
            }
            Found::Whole { kind, start, end } => {
                f = judge_at(f, at, kind, &s[start..end])?;
                at = end;
            }
        }
    }
}

// The answer as a verdict. Kept: `floor_verdict` and docs/TRUST.md name it. No From: `Verdict` is of crate refusal, and `Floor` not of it.
pub fn verdict_of(a: Result<Floor, Refusal>) -> Verdict
    ensures { result ≡ floor_verdict a }
{
    match a {
        Ok(_) => Verdict::Accepted,
        Err(r) => Verdict::Floor(r),
    }
}
