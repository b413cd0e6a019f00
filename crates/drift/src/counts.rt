// The carts and thresholds of counts, the slack of an or, and the steps at which its counts are true together. `as` where a number is proved to fit: std has no
// From for u32 to usize, and TryFrom would add an error that never comes.
ghost use Rattle.std.specs.Prelude.{◌≡◌, cond, ℕ, ◌+◌, ◌-◌, ◌/◌, ◌^◌, ◌<◌, ◌≤◌, min, ltb, eqb, length};
ghost use Rattle.std.specs.Int.Count.{ones};
ghost use Rattle.cltl.specs.Threshold.{threshold as threshold_of, quota as quota_of};
ghost use Rattle.grammar.specs.Grammar.{Inner, counted};
ghost use Rattle.cltl.specs.Meaning.{Rows, among};
ghost use Rattle.cltl.specs.Rules.{throughout, asked};
ghost use Rattle.mask.specs.Mask.{on, Row};
ghost use Rattle.table.specs.Table.{told};
ghost use Rattle.quorum.specs.Words.{within};
ghost use Rattle.drift.specs.Tree.{Ordered, third_at, over_of, amount_at};
ghost use Rattle.drift.specs.Lent.{who_of, Lent};

use crate::Ground;
use crate::nodes::{number_at, over_at, percent_at};

// The number of carts that a count over so many carts asks for: a share is rounded to the nearest, a half going up.
pub fn threshold(number: usize, percent: bool, size: usize) -> usize
    requires { (number < 65536) × (size ≤ 32) }
    ensures { result ≡ threshold_of number percent size }
{
    if percent {
        (number * size + 50) / 100
    } else {
        number
    }
}

// The threshold of the count (p), or of its negation.
pub fn quota(p: bool, m: usize, size: usize) -> usize
    requires { size ≤ 32 }
    ensures { result ≡ quota_of p m size }
{
    if p {
        return m;
    }
    if m <= size { size + 1 - m } else { 0 }
}

// The carts that count k is over, a bit each: the words of the fleet and of the groups stand behind the bits of the table. A group that is not there has none.
pub fn who_at(nodes: &[u8], bits: &[u32; 41], k: usize) -> u32
    requires { Ordered nodes.now (k + 1) }
    ensures { result ≡ who_of bits.now (third_at nodes.now k / 4) }
{
    let o = over_at(nodes, k);
    if o < 9 {
        return bits[32 + o];
    }
    0
}

// How many carts those are, of so many in the fleet.
fn size_of(o: usize, who: u32, carts: usize) -> usize
    requires { (carts ≤ 32) × (who < 2 ^ carts) }
    ensures { (result ≡ cond (eqb o 0) carts (ones who)) × (result ≤ carts) }
{
    if o == 0 {
        return carts;
    }
    u32::count_ones(who) as usize
}

// The threshold of count k over the carts in a word (p), or of its negation.
pub fn asked_at(nodes: &[u8], who: u32, carts: usize, p: bool, k: usize) -> usize
    requires { Ordered nodes.now (k + 1) × (carts ≤ 32) × (who < 2 ^ carts) }
    ensures { (P : Rows) (a : Inner) → P.carts ≡ carts
        → ((i : ℕ) → i < carts → on who i ≡ among P (over_of (third_at nodes.now k / 4)) i)
        → result ≡ asked P (p, counted a (amount_at nodes.now k)) }
{
    let size = size_of(over_at(nodes, k), who, carts);
    let percent = percent_at(nodes, k);
    quota(p, threshold(number_at(nodes, k), percent, size), size)
}

// What a count adds to the slack of an or, (threshold - 1); 32 stand for any more, since there are no more carts.
pub fn slack_of(m: usize) -> u8
    ensures { result ≡ min 32 (m - 1) }
{
    m.saturating_sub(1).min(32) as u8
}

// The slack of two sides together, 32 at most.
pub fn added(a: u8, b: u8) -> u8
    requires { (a ≤ 32) × (b ≤ 32) }
    ensures { result ≡ min 32 (a + b) }
{
    (a + b).min(32)
}

// The steps at which more of the carts in a word than the slack satisfy, throughout, the text whose table begins at `at`.
pub fn together(
    t: &[u32],
    at: usize,
    slack: u8,
    who: u32,
    w: &mut [u32; 81],
    bits: &[u32; 41],
    g: Ground,
) -> u64
    requires lent { Lent g t.now bits.now }
    requires h_in_bounds { (at + g.lasso.h ≤ length t.now) × (slack ≤ 32) × (who < 2 ^ g.carts) }
    ensures row { Row g.lasso.h result (λ s. ltb slack (throughout g.lasso.h g.lasso.l g.carts g.drift (within who (told t.now at)) s)) }
{
    let few = usize::from(slack);
    if g.carts <= few {
        return 0;
    }
    quorum::joint_row(t, at, few + 1, who, g.fleet(), w, bits)
}
