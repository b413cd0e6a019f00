// "until" and "release".
ghost use Rattle.std.specs.Prelude.{◌+◌, ◌-◌, ◌<◌, ◌≤◌, length};
ghost use Rattle.cltl.specs.Rules.{fix};
ghost use Rattle.mask.specs.Mask.{on};
ghost use Rattle.table.specs.Table.{told, Word, Stored, Table, Apart};
ghost use Rattle.table.specs.Straight.{straight};

use crate::words::{mix_word, same_word};

// Backwards over the steps from one up to another, with what is true behind them: each step's word, and the first one's.
pub(crate) fn back(
    p: bool,
    t: &mut [u32],
    a: usize,
    b: usize,
    k: usize,
    from: usize,
    to: usize,
    rest: u32,
) -> u32
    requires from_le_to { (from ≤ to) × (a + to ≤ length t.old) × (b + to ≤ length t.old) × (k + to ≤ length t.old) }
    requires apart { Apart a k to × Apart b k to }
    ensures stored { Stored (λ s. Word (λ i. straight p (told t.old a i) (told t.old b i) (on rest i) (to - s) s)) k from to
        t.old t.new }
    ensures word { Word (λ i. straight p (told t.old a i) (told t.old b i) (on rest i) (to - from) from) result }
{
    let mut v = rest;
    for s in (from..to).rev() {
        v = mix_word(p, t[a + s], t[b + s], v);
        t[k + s] = v;
    }
    v
}

// "until" (p) or "release": backwards over the lap for what is true at its first step, then backwards over all steps. h and l are no mask::Lasso, which
// would ask of until_table, next_table and ever_table that h is 64 at most.
pub fn until_table(p: bool, t: &mut [u32], a: usize, b: usize, k: usize, h: usize, l: usize)
    requires l_lt_h { (l < h) × (a + h ≤ length t.old) × (b + h ≤ length t.old) × (k + h ≤ length t.old) }
    requires apart { Apart a k h × Apart b k h }
    ensures { Table (λ i. fix h l p (told t.old a i) (told t.old b i) h) k h t.old t.new }
{
    let turn = back(p, t, a, b, k, l, h, same_word(!p));
    back(p, t, a, b, k, 0, h, turn);
}
