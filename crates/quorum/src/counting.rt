// The steps whose words have bits enough. A table of the bits is lent: to join its words makes vectors of a loop where to move bits does not.
// `as` only where a number gets narrower, here and in tallies and words: it is proved to fit, and TryFrom would add an error that never comes.
ghost use Rattle.std.specs.Prelude.{ℕ, ◌+◌, ◌^◌, ◌≤◌, ◌<◌, ◌≡◌, Bool, leb, get_or};
ghost use Rattle.std.specs.Int.Count.{ones};
ghost use Rattle.mask.specs.Mask.{Row};
ghost use Rattle.quorum.specs.Words.{Bits};

// Of n numbers, those that the test accepts. A bit is read before its test, or the loop makes no vectors.
pub(crate) fn row_of<F: Fn(usize) -> bool>(n: usize, bits: &[u32; 41], test: F) -> u32
    requires n_bound { n ≤ 32 }
    requires bits { Bits bits.now }
    requires callable { (j : ℕ) → j < n → F.pre test j }
    ensures { (f : ℕ → Bool) → ((j : ℕ) (r : Bool) → j < n → F.post test j r → r ≡ f j) → Row n result f }
{
    let mut row = 0;
    for j in 0..n {
        let bit = bits[j];
        row |= if test(j) { bit } else { 0 };
    }
    row
}

// Of the n words from `at` on, those with at least m bits, where the words have bits of carts alone: more carts than there are no word has, and all carts
// or at least one need no counting.
fn part(w: &[u32; 81], at: usize, m: usize, carts: usize, n: usize, bits: &[u32; 41]) -> u32
    requires carts_bound { (carts ≤ 32) × (n ≤ 32) × (at + n ≤ 81) }
    requires bits { Bits bits.now }
    requires by_index { (j : ℕ) → j < n → get_or w.now (at + j) 0 < 2 ^ carts }
    ensures { Row n result (λ j. leb m (ones (get_or w.now (at + j) 0))) }
{
    if carts < m {
        return 0;
    }
    if m == carts {
        let all = crate::words::lowest(carts);
        return row_of(n, bits, move |j| w[at + j] == all);
    }
    if m == 1 {
        return row_of(n, bits, move |j| w[at + j] == 0) ^ crate::words::lowest(n);
    }
    row_of(n, bits, move |j| m as u32 <= w[at + j].count_ones())
}

// The row of h numbers from `from` on in two parts, each made from its first number and its size: there are 32 bits in the table.
pub(crate) fn in_parts<F: Fn(usize, usize) -> u32>(from: usize, h: usize, part: F) -> u64
    requires h_bound { (h ≤ 64) × (from + h ≤ 2048) }
    requires callable { (at n : ℕ) → from ≤ at → at + n ≤ from + h → n ≤ 32 → F.pre part at n }
    ensures { (f : ℕ → Bool) → ((at n r : ℕ) → from ≤ at → at + n ≤ from + h → n ≤ 32 → F.post part at n r → Row n r (λ j. f (at + j)))
        → Row h result (λ j. f (from + j)) }
{
    if h <= 32 {
        return u64::from(part(from, h));
    }
    let low = u64::from(part(from, 32));
    let high = u64::from(part(from + 32, h - 32));
    low | (high << 32)
}

// Of the h words from `from` on, those with at least m bits.
pub(crate) fn at_least(
    w: &[u32; 81],
    from: usize,
    m: usize,
    carts: usize,
    h: usize,
    bits: &[u32; 41],
) -> u64
    requires carts_bound { (carts ≤ 32) × (h ≤ 64) × (from + h ≤ 81) }
    requires bits { Bits bits.now }
    requires by_index { (s : ℕ) → s < h → get_or w.now (from + s) 0 < 2 ^ carts }
    ensures { Row h result (λ s. leb m (ones (get_or w.now (from + s) 0))) }
{
    in_parts(from, h, move |at, n| part(w, at, m, carts, n, bits))
}
