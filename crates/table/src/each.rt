// Tables made word by word.
ghost use Rattle.std.specs.Prelude.{ℕ, not, ◌||◌, ◌+◌, ◌^◌, ◌<◌, ◌≤◌, Bool, length, get_or};
ghost use Rattle.row.specs.Lasso.{next_step};
ghost use Rattle.cltl.specs.Rules.{join};
ghost use Rattle.mask.specs.Mask.{signed};
ghost use Rattle.table.specs.Table.{told, Word, Table, Apart};

use crate::words::{flip, join_word};

// The table at k, each word made of those at a and b by a rule for words. It may ask for words of 32 bits alone.
fn each_word<F: Fn(u32, u32) -> u32>(t: &mut [u32], a: usize, b: usize, k: usize, h: usize, rule: F)
    requires h_in_bounds { (a + h ≤ length t.old) × (b + h ≤ length t.old) × (k + h ≤ length t.old) }
    requires apart { Apart a k h × Apart b k h }
    requires callable { (x y : ℕ) → x < 2 ^ 32 → y < 2 ^ 32 → F.pre rule x y }
    ensures { (f : ℕ → ℕ → Bool)
        → ((s r : ℕ) → s < h → F.post rule (get_or t.old (a + s) 0) (get_or t.old (b + s) 0) r → Word (λ i. f i s) r)
        → Table f k h t.old t.new }
{
    for s in 0..h {
        t[k + s] = rule(t[a + s], t[b + s]);
    }
}

// "and" (p) or "or" of the tables at a and b. By a flag, as `join` and `fix` are: a negation turns it over, and each law is then of both at once.
pub fn join_table(p: bool, t: &mut [u32], a: usize, b: usize, k: usize, h: usize)
    requires h_in_bounds { (a + h ≤ length t.old) × (b + h ≤ length t.old) × (k + h ≤ length t.old) }
    requires apart { Apart a k h × Apart b k h }
    ensures { Table (λ i s. join p (told t.old a i s) (told t.old b i s)) k h t.old t.new }
{
    each_word(t, a, b, k, h, |x, y| join_word(p, x, y));
}

// The or of two texts: that whose table begins at a (pa), or its negation, and the one at b (pb), or its negation.
pub fn either_table(pa: bool, pb: bool, t: &mut [u32], a: usize, b: usize, k: usize, h: usize)
    requires h_in_bounds { (a + h ≤ length t.old) × (b + h ≤ length t.old) × (k + h ≤ length t.old) }
    requires apart { Apart a k h × Apart b k h }
    ensures { Table (λ i s. signed pa (told t.old a i s) || signed pb (told t.old b i s)) k h
        t.old t.new }
{
    let flip_a = flip(pa);
    let flip_b = flip(pb);
    each_word(t, a, b, k, h, |x, y| (x ^ flip_a) | (y ^ flip_b));
}

// "not": inner text is exact, so its negation is the complement.
pub fn not_table(t: &mut [u32], a: usize, k: usize, h: usize)
    requires { (a + h ≤ length t.old) × (k + h ≤ length t.old) × Apart a k h }
    ensures { Table (λ i s. not (told t.old a i s)) k h t.old t.new }
{
    each_word(t, a, a, k, h, |x, _| x ^ u32::MAX);
}

// What is true a step later, the lap's first step after the last.
pub fn next_table(t: &mut [u32], a: usize, k: usize, h: usize, l: usize)
    requires { (l < h) × (a + h ≤ length t.old) × (k + h ≤ length t.old) × Apart a k h }
    ensures { Table (λ i s. told t.old a i (next_step h l s)) k h t.old t.new }
{
    let last = h - 1;
    for s in 0..last {
        t[k + s] = t[a + s + 1];
    }
    t[k + last] = t[a + l];
}
