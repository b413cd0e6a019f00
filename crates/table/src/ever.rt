// F and G.
ghost use Rattle.std.specs.Prelude.{◌≡◌, not, ℕ, ◌+◌, ◌-◌, ◌<◌, ◌≤◌, length};
ghost use Rattle.cltl.specs.Rules.{fix};
ghost use Rattle.table.specs.Table.{told, Word, Stored, Table, Apart};
ghost use Rattle.table.specs.Straight.{straight};

use crate::until::back;
use crate::words::{join_word, same_word};

// "or" (p) or "and" over the lap.
fn over_lap(p: bool, t: &[u32], b: usize, h: usize, l: usize) -> u32
    requires { (l < h) × (b + h ≤ length t.now) }
    ensures { Word (λ i. straight p (λ s. p) (told t.now b i) (not p) (h - l) l) result }
{
    let mut v = same_word(!p);
    for s in (l..h).rev() {
        v = join_word(!p, t[b + s], v);
    }
    v
}

// One word for each of the lap's steps.
fn put_lap(t: &mut [u32], k: usize, h: usize, l: usize, v: u32)
    requires { (l < h) × (k + h ≤ length t.old) }
    ensures { Stored (λ s x. x ≡ v) k l h t.old t.new }
{
    t[k + l..k + h].fill(v);
}

// F (p) or G of the table at b: once over the lap, then backwards through the run-in, with a table c of p at every step.
pub fn ever_table(p: bool, t: &mut [u32], c: usize, b: usize, k: usize, h: usize, l: usize)
    requires l_lt_h { (l < h) × (c + h ≤ length t.old) × (b + h ≤ length t.old) × (k + h ≤ length t.old) }
    requires apart { Apart c k h × Apart b k h }
    requires by_index { (i s : ℕ) → i < 32 → s < h → told t.old c i s ≡ p }
    ensures { Table (λ i. fix h l p (λ s. p) (told t.old b i) h) k h t.old t.new }
{
    let v = over_lap(p, t, b, h, l);
    put_lap(t, k, h, l, v);
    back(p, t, c, b, k, 0, l, v);
}
