// One operator, its table made in the place of a pair that its operand's is not in.
ghost use Rattle.std.specs.Prelude.{◌≡◌, true, false, cond, ◌||◌, ◌+◌, ◌*◌, ◌≤◌, length};
ghost use Rattle.mask.specs.Mask.{signed};
ghost use Rattle.table.specs.Table.{told, Table};
ghost use Rattle.table.specs.Layout.{pairs_at, Constants};
ghost use Rattle.drift.specs.Decoded.{unary_of, binary_of};
ghost use Rattle.drift.specs.Operator.{exact_rule, two_rule};
ghost use Rattle.drift.specs.Places.{pairs_end, other_of, Placed};

use crate::Ground;
use crate::tables::{one_table, two_table};
use token::{Binary, Unary};

// One of two values, by a flag.
pub fn chosen<T: Copy>(p: bool, a: T, b: T) -> T
    ensures { result ≡ cond p a b }
{
    if p { a } else { b }
}

// The place of the pair at an offset that is not in use. No block is longer than 2,944 words.
fn other(at: usize, used: usize, h: usize) -> usize
    requires { at + h ≤ 2944 }
    ensures { result ≡ other_of at h used }
{
    if used == at { at + h } else { at }
}

// "not", "next", F or G of the table at a, which was there already or was made in the pair at an offset.
pub fn place_one(o: Unary, t: &mut [u32], a: usize, at: usize, g: Ground) -> usize
    requires constants { Constants g.marks g.lasso.h t.old }
    requires h_bound { (pairs_at g.marks g.lasso.h ≤ at) × (at + 2 * g.lasso.h ≤ pairs_end g.marks g.lasso.h) × (pairs_end g.marks g.lasso.h ≤ length t.old) }
    requires placed { Placed g.marks g.lasso.h at a }
    ensures { (result ≡ other_of at g.lasso.h a)
        × Table (λ i. exact_rule g.lasso.h g.lasso.l true (unary_of o) (told t.old a i)) result g.lasso.h t.old t.new }
{
    let to = other(at, a, g.lasso.h);
    one_table(o, t, a, to, g);
    to
}

// "and", "or", U or R of two tables, that of the operand judged first in the pair at an offset, the other's in the one behind, if they were not there already.
// Swapped, the operand judged first is the right one.
pub fn place_two(
    o: Binary,
    swapped: bool,
    t: &mut [u32],
    first: usize,
    second: usize,
    at: usize,
    g: Ground,
) -> usize
    requires constants { Constants g.marks g.lasso.h t.old }
    requires h_bound { (pairs_at g.marks g.lasso.h ≤ at) × (at + 2 * g.lasso.h ≤ pairs_end g.marks g.lasso.h) × (pairs_end g.marks g.lasso.h ≤ length t.old) }
    requires placed { Placed g.marks g.lasso.h at first × Placed g.marks g.lasso.h (at + 2 * g.lasso.h) second × (second + g.lasso.h ≤ length t.old) }
    ensures { (result ≡ other_of at g.lasso.h first) × Table (λ i. two_rule g.lasso.h g.lasso.l true (binary_of o) (λ s. false)
        (told t.old (cond swapped second first) i) (told t.old (cond swapped first second) i))
        result g.lasso.h t.old t.new }
{
    let to = other(at, first, g.lasso.h);
    let a = chosen(swapped, second, first);
    let b = chosen(swapped, first, second);
    two_table(o, t, a, b, to, g);
    to
}

// The or of two texts, each itself (p, q) or its negation, by their tables, which lie as for place_two.
pub fn place_either(
    p: bool,
    q: bool,
    t: &mut [u32],
    first: usize,
    second: usize,
    at: usize,
    g: Ground,
) -> usize
    requires constants { Constants g.marks g.lasso.h t.old }
    requires h_bound { (pairs_at g.marks g.lasso.h ≤ at) × (at + 2 * g.lasso.h ≤ pairs_end g.marks g.lasso.h) × (pairs_end g.marks g.lasso.h ≤ length t.old) }
    requires placed { Placed g.marks g.lasso.h at first × Placed g.marks g.lasso.h (at + 2 * g.lasso.h) second × (second + g.lasso.h ≤ length t.old) }
    ensures { (result ≡ other_of at g.lasso.h first) × Table (λ i s. signed p (told t.old first i s)
        || signed q (told t.old second i s)) result g.lasso.h t.old t.new }
{
    let to = other(at, first, g.lasso.h);
    table::either_table(p, q, t, first, second, to, g.lasso.h);
    to
}
