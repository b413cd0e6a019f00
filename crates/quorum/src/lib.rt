// The rule for a count, and its part on windows alone, on a table of truth by step and for all steps at once: a word a step, with bit i for cart i.
#![tactic(auto)]

mod along;
mod counting;
mod fleet;
mod running;
mod tallies;
mod words;

ghost use Rattle.std.specs.Prelude.{ℕ, ◌+◌, ◌^◌, ◌≤◌, ◌<◌, ◌&&◌, eqb, length, get_or};
ghost use Rattle.cltl.specs.Counting.{every};
ghost use Rattle.cltl.specs.Rules.{quorum};
ghost use Rattle.mask.specs.Mask.{Row, signed};
ghost use Rattle.table.specs.Table.{told};
ghost use Rattle.quorum.specs.Words.{within, has, Bits};

pub use along::joint_row;
pub use fleet::Fleet;
pub use tallies::{fill_tallies, tallied_row};
pub use words::lowest;

// The table of the bits that count_row, joint_row and tallied_row ask for. Behind the 32 bits is room for nine words of carts (marks): whatever is judged takes
// both, and one parameter less is held on the stack for each of up to 79 nodes.
pub fn fill_bits(bits: &mut [u32; 41])
    ensures { Bits bits.new }
{
    for j in 0..32 {
        bits[j] = 1u32 << j;
    }
}

// Where all carts have their bit, if the threshold is 1: a word is full if it has as many bits as there are carts.
pub(crate) fn all_row(w: &[u32; 81], m: usize, carts: usize, h: usize, bits: &[u32; 41]) -> u64
    requires carts_bound { (carts ≤ 32) × (h ≤ 64) }
    requires bits { Bits bits.now }
    requires by_index { (s : ℕ) → s < h → get_or w.now s 0 < 2 ^ carts }
    ensures { Row h result (λ s. eqb m 1 && every (λ i. has w.now i s) carts) }
{
    if m == 1 {
        counting::at_least(w, 0, carts, carts, h, bits)
    } else {
        0
    }
}

// The rule for a count with threshold m, over the carts in `who`, of the text (p), or the negation of the text, whose table begins at `at`. The words of w
// are scratch: nothing is asked of them, and nothing is said of what they are afterwards.
pub fn count_row(
    t: &[u32],
    at: usize,
    p: bool,
    m: usize,
    who: u32,
    fleet: Fleet,
    w: &mut [u32; 81],
    bits: &[u32; 41],
) -> u64
    requires who_bound { who < 2 ^ fleet.carts }
    requires h_in_bounds { at + fleet.lasso.h ≤ length t.now }
    requires bits { Bits bits.now }
    ensures row { Row fleet.lasso.h result (quorum fleet.lasso.h fleet.lasso.l fleet.carts fleet.drift m (within who (λ i s. signed p (told t.now at i s)))) }
{
    words::unroll(t, at, p, who, fleet.lasso.h, w);
    let all = all_row(w, m, fleet.carts, fleet.lasso.h, bits);
    along::throughout_row(w, m, fleet, bits) | all
}
