// The tokens of a sheet.
ghost use Rattle.std.specs.Prelude.{◌≡◌, ◌≤◌, ◌+◌, ◌*◌, ◌-◌, min, length, drop, MatchResult};
ghost use Rattle.grammar.specs.Reader.{skip, number as numberS};
ghost use Rattle.token.specs.Tokens.{NumIs};

use crate::nodes::refused;
use crate::{Fault, Num};

// The offset of the first byte from `at` on that is no space.
pub fn spaces(s: &[u8], at: usize) -> usize
    ensures { (drop result s.now ≡ skip (drop at s.now)) × (at ≤ result) × (at ≤ length s.now → result ≤ length s.now) }
{
    // A `for` is slower, by 3 % of reading a sheet: 699,195 instructions against 678,864 for that of bench/inputs/c.
    let mut i = at;
    while i < s.len() {
        if s[i] != b' ' {
            return i;
        }
        i += 1;
    }
    i
}

// A number with one digit more, up to 1,000.
fn shifted(v: usize, b: u8) -> usize
    requires { (v ≤ 1000) × (48 ≤ b) }
    ensures { result ≡ min (v * 10 + (b - 48)) 1000 }
{
    (v * 10 + usize::from(b - b'0')).min(1000)
}

// The number at an offset.
pub(crate) fn number(s: &[u8], at: usize) -> Result<Num, Fault>
    ensures value { NumIs s.now result (numberS 0 (drop at s.now)) }
    ensures inside { at ≤ length s.now → MatchResult result (λ k. k.at ≤ length s.now) (λ f. f.at ≤ length s.now) }
{
    if s.len() <= at {
        return Err(refused(13, at));
    }
    let b = s[at];
    if b == b'0' {
        return Ok(Num {
            value: 0,
            at: at + 1,
        });
    }
    if !b.is_ascii_digit() {
        return Err(refused(13, at));
    }
    let mut v = shifted(0, b);
    for i in at + 1..s.len() {
        let c = s[i];
        if !c.is_ascii_digit() {
            return Ok(Num { value: v, at: i });
        }
        v = shifted(v, c);
    }
    Ok(Num {
        value: v,
        at: s.len(),
    })
}
