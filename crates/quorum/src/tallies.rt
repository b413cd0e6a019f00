// How many carts keep to a text all along a window, a byte a step: made once for a text, it serves each count over it.
ghost use Rattle.std.specs.Prelude.{ℕ, ◌+◌, ◌^◌, ◌≤◌, ◌<◌, ◌≡◌, leb, length, get_or};
ghost use Rattle.std.specs.Int.Count.{ones};
ghost use Rattle.cltl.specs.Rules.{throughout, quorum};
ghost use Rattle.mask.specs.Mask.{Row, signed};
ghost use Rattle.table.specs.Table.{told, Stored};
ghost use Rattle.quorum.specs.Words.{within, Bits};
ghost use Rattle.quorum.specs.Tallies.{Tallied};

use crate::counting::{in_parts, row_of};
use crate::{Fleet, all_row};

// The number of bits of each of h words from `from` on.
fn put_tallies(w: &[u32; 81], from: usize, h: usize, tallies: &mut [u8; 2048], at: usize)
    requires h_bound { (from + h ≤ 81) × (at + h ≤ 2048) }
    requires by_index { (s : ℕ) → s < h → get_or w.now (from + s) 0 < 2 ^ 32 }
    ensures { Stored (λ s x. x ≡ ones (get_or w.now (from + s) 0)) at 0 h tallies.old tallies.new }
{
    for s in 0..h {
        tallies[at + s] = w[from + s].count_ones() as u8;
    }
}

// The tallies, over the carts in `who`, of the text (p), or of the negation of the text, whose table begins at `from`. The words of w are scratch.
pub fn fill_tallies(
    t: &[u32],
    from: usize,
    p: bool,
    who: u32,
    fleet: Fleet,
    w: &mut [u32; 81],
    tallies: &mut [u8; 2048],
    at: usize,
)
    requires who_bound { who < 2 ^ fleet.carts }
    requires h_in_bounds { from + fleet.lasso.h ≤ length t.now }
    requires tallies_len { at + fleet.lasso.h ≤ 2048 }
    ensures stored { Stored (λ s x. x ≡ throughout fleet.lasso.h fleet.lasso.l fleet.carts fleet.drift (within who (λ i s. signed p (told t.now from i s))) s)
        at 0 fleet.lasso.h
        tallies.old tallies.new }
{
    crate::words::unroll(t, from, p, who, fleet.lasso.h, w);
    let begin = crate::running::windows(w, fleet.lasso, fleet.drift);
    put_tallies(w, begin, fleet.lasso.h, tallies, at);
}

// Of the n steps from `at` on, those whose tally is at least m.
fn enough(tallies: &[u8; 2048], at: usize, m: u8, n: usize, bits: &[u32; 41]) -> u32
    requires n_bound { (n ≤ 32) × (at + n ≤ 2048) }
    requires bits { Bits bits.now }
    ensures { Row n result (λ j. leb m (get_or tallies.now (at + j) 0)) }
{
    row_of(n, bits, move |j| m <= tallies[at + j])
}

// The steps whose tally is at least m; no tally is above the number of carts.
fn enough_row(
    tallies: &[u8; 2048],
    at: usize,
    m: usize,
    carts: usize,
    h: usize,
    bits: &[u32; 41],
) -> u64
    requires carts_bound { (carts ≤ 32) × (h ≤ 64) × (at + h ≤ 2048) }
    requires bits { Bits bits.now }
    ensures { ((s : ℕ) → s < h → get_or tallies.now (at + s) 0 ≤ carts)
        → Row h result (λ s. leb m (get_or tallies.now (at + s) 0)) }
{
    if carts < m {
        return 0;
    }
    in_parts(
        at,
        h,
        move |first, n| enough(tallies, first, m as u8, n, bits),
    )
}

// count_row where the tallies of its text are there already. Only a threshold of 1 needs the text itself, for all carts at the step itself. It takes no
// Fleet, since it promises this of any l and d.
pub fn tallied_row(
    t: &[u32],
    from: usize,
    p: bool,
    m: usize,
    who: u32,
    carts: usize,
    h: usize,
    w: &mut [u32; 81],
    tallies: &[u8; 2048],
    at: usize,
    bits: &[u32; 41],
) -> u64
    requires h_bound { (h ≤ 64) × (carts ≤ 32) × (who < 2 ^ carts) }
    requires h_in_bounds { from + h ≤ length t.now }
    requires tallies_len { at + h ≤ 2048 }
    requires bits { Bits bits.now }
    ensures by_index { (l d : ℕ) → Tallied h l carts d (within who (λ i s. signed p (told t.now from i s))) at tallies.now
        → Row h result (quorum h l carts d m (within who (λ i s. signed p (told t.now from i s)))) }
{
    let many = enough_row(tallies, at, m, carts, h, bits);
    if m == 1 {
        crate::words::unroll(t, from, p, who, h, w);
        return many | all_row(w, m, carts, h, bits);
    }
    many
}
