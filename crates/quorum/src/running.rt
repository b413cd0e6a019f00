// Running counts of all carts at once, cut off at 17 and in unary: 17 words from a step's own on, the one j further on with the carts whose count is above j.
ghost use Rattle.std.specs.Prelude.{ℕ, ◌+◌, ◌≤◌, ◌<◌, ◌≡◌, cond, ltb, get_or};
ghost use Rattle.std.specs.Int.Bits.{bit_and};
ghost use Rattle.cltl.specs.Rules.{window};
ghost use Rattle.cltl.specs.Running.{lap_count};
ghost use Rattle.mask.specs.Mask.{on};
ghost use Rattle.table.specs.Table.{Stored};
ghost use Rattle.quorum.specs.Words.{has};
ghost use Rattle.quorum.specs.Unary.{Above, WalkedBack};

use mask::Lasso;

// Carts that x has not lose their bits in 16 words: their counts begin again at 0.
fn reset(w: &mut [u32; 81], at: usize, x: u32)
    requires at_bound { at + 16 ≤ 81 }
    ensures { Stored (λ j y. y ≡ bit_and x (get_or w.old (at + j) 0)) at 0 16 w.old w.new }
{
    for j in 0..16 {
        w[at + j] &= x;
    }
}

// Of carts that have their bit at j steps of the lap from l on, those that have it at one step more. Where the lap has no more they have it for ever.
fn one_more(w: &[u32; 81], l: usize, lap: usize, j: usize, all: u32) -> u32
    requires lap_bound { l + lap ≤ 81 }
    ensures { result ≡ cond (ltb j lap) (bit_and (get_or w.now (l + j) 0) all) all }
{
    if j < lap { w[l + j] & all } else { all }
}

// Looks over the lap for its count from l on, and lays it behind the last step.
fn lap_count(w: &mut [u32; 81], lasso: Lasso)
    ensures { Stored (Above (λ i. lap_count lasso.h lasso.l (has w.old i))) lasso.h 0 17 w.old w.new }
{
    let mut all = w[lasso.l];
    for j in 0..17 {
        w[lasso.h + j] = all;
        all = one_more(w, lasso.l, lasso.h - lasso.l, j + 1, all);
    }
}

// Walks back over step s: the counts there, and behind their words that of the carts whose count is above d.
fn one_back(w: &mut [u32; 81], s: usize, d: usize)
    requires s_bound { (s < 64) × (d ≤ 16) }
    ensures { WalkedBack s 1 d w.old w.new }
{
    let x = w[s];
    reset(w, s + 1, x);
    w[s + 17] = w[s + d];
}

// Walks back over steps s + 1 and s: going over the 16 words once for both costs half as much as once for each.
fn two_back(w: &mut [u32; 81], s: usize, d: usize)
    requires s_bound { (s < 63) × (d ≤ 16) }
    ensures { WalkedBack s 2 d w.old w.new }
{
    let x = w[s + 1];
    let y = w[s];
    w[s + 18] = x & w[s + 1 + d];
    reset(w, s + 1, y & x);
    w[s + 17] = w[s + d];
}

// Walks back from the last step to step 0: by twos (as above), and a last single step, which no range does.
fn walk_back(w: &mut [u32; 81], h: usize, d: usize)
    requires h_bound { (h ≤ 64) × (d ≤ 16) }
    ensures { WalkedBack 0 h d w.old w.new }
{
    let mut s = h;
    while 1 < s {
        s -= 2;
        two_back(w, s, d);
    }
    if s == 1 {
        one_back(w, 0, d);
    }
}

// Makes of the words of the steps those of the windows, and tells where they begin. Without drift they are the same.
pub(crate) fn windows(w: &mut [u32; 81], lasso: Lasso, d: usize) -> usize
    requires d_bound { d ≤ 16 }
    ensures h_bound { result + lasso.h ≤ 81 }
    ensures by_index { (s i : ℕ) → s < lasso.h → on (get_or w.new (result + s) 0) i ≡ window lasso.h lasso.l (has w.old i) d s }
{
    if d == 0 {
        return 0;
    }
    lap_count(w, lasso);
    walk_back(w, lasso.h, d);
    17
}
