// A clause on the rows of all carts. A negation goes inward as a flag, down to the counts.
ghost use Rattle.std.specs.Prelude.{Bool, ℕ, ◌+◌, ◌≤◌, get_or, IfSome};
ghost use Rattle.table.specs.Table.{Kept};
ghost use Rattle.table.specs.Layout.{pairs_at, Shown};
ghost use Rattle.drift.specs.Tree.{kind_at};
ghost use Rattle.drift.specs.Places.{PairsFrom};
ghost use Rattle.drift.specs.Lent.{Lent, ClauseNodes};
ghost use Rattle.drift.specs.Tallies.{Tallies};
ghost use Rattle.drift.specs.Answer.{rows_on, TableAt, ClauseRow, ClauseJudged};

use crate::counts::{asked_at, slack_of, who_at};
use crate::inner::inner_table;
use crate::joining::{one_judged, two_judged};
use crate::needs::in_turn;
use crate::nodes::{first_at, kind_at};
use crate::operators::under;
use crate::tallies::count_told;
use crate::{Clause, Ground, Joined, Judged};
use token::Kind;

// A count, or its negation, its text judged in the pairs of places from an offset on. Without drift it is joined to none.
fn leaf_judged(
    c: Clause,
    t: &mut [u32],
    w: &mut [u32; 81],
    tallies: &mut [u8; 2048],
    bits: &[u32; 41],
    g: Ground,
    at: usize,
    p: bool,
    k: usize,
) -> Judged
    requires lent { Lent g t.old bits.now }
    requires clause_nodes { ClauseNodes c.nodes.now c.needs.now k × (10 ≤ kind_at c.nodes.now k) }
    requires pairs_from { PairsFrom g.marks g.lasso.h at (get_or c.needs.now k 0) }
    requires tallies { Tallies g t.old tallies.old }
    ensures kept { Kept at t.old t.new × IfSome result.joined (λ j. TableAt g at t.new j) × Tallies g t.new tallies.new }
    ensures by_index { (bears : ℕ → ℕ → ℕ → Bool) → Shown g.marks g.carts g.lasso.h bears t.old
        → ClauseJudged (rows_on g.carts g.lasso.h g.lasso.l bears bits.now) g.drift c.entry.nodes.now p k t.new result }
{
    let who = who_at(c.nodes, bits, k);
    let m = asked_at(c.nodes, who, g.carts, p, k);
    let from = inner_table(c, t, g, at, first_at(c.nodes, k));
    let row = count_told(t, from, p, m, who, w, tallies, bits, g);
    if g.drift == 0 {
        return Judged { row, joined: None };
    }
    let joined = Joined {
        at: from,
        sign: p,
        slack: slack_of(m),
        who,
    };
    Judged {
        row,
        joined: Some(joined),
    }
}

// Node k with drift d, or its negation, judged in the pairs of places from an offset on.
fn clause_judged(
    c: Clause,
    t: &mut [u32],
    w: &mut [u32; 81],
    tallies: &mut [u8; 2048],
    bits: &[u32; 41],
    g: Ground,
    at: usize,
    p: bool,
    k: usize,
) -> Judged
    requires lent { Lent g t.old bits.now }
    requires clause_nodes { ClauseNodes c.nodes.now c.needs.now k }
    requires pairs_from { PairsFrom g.marks g.lasso.h at (get_or c.needs.now k 0) }
    requires tallies { Tallies g t.old tallies.old }
    ensures kept { Kept at t.old t.new × IfSome result.joined (λ j. TableAt g at t.new j) × Tallies g t.new tallies.new }
    ensures by_index { (bears : ℕ → ℕ → ℕ → Bool) → Shown g.marks g.carts g.lasso.h bears t.old
        → ClauseJudged (rows_on g.carts g.lasso.h g.lasso.l bears bits.now) g.drift c.entry.nodes.now p k t.new result }
{
    match kind_at(c.nodes, k) {
        Kind::Top | Kind::Mark => Judged {
            row: g.lasso.constant(p),
            joined: None,
        },
        Kind::Unary(o) => {
            let a = clause_judged(
                c,
                t,
                w,
                tallies,
                bits,
                g,
                at,
                under(o, p),
                first_at(c.nodes, k),
            );
            one_judged(o, p, a, g)
        }
        Kind::Binary(o) => {
            let turn = in_turn(c, k);
            let first = clause_judged(c, t, w, tallies, bits, g, at, p, turn.first);
            let behind = at + 2 * g.lasso.h;
            let second = clause_judged(c, t, w, tallies, bits, g, behind, p, turn.second);
            two_judged(o, p, turn.swapped, first, second, t, w, bits, g, at)
        }
        Kind::Count { .. } => leaf_judged(c, t, w, tallies, bits, g, at, p, k),
    }
}

// Node k's row with drift d, or its negation's.
pub fn clause_row(
    c: Clause,
    t: &mut [u32],
    w: &mut [u32; 81],
    tallies: &mut [u8; 2048],
    bits: &[u32; 41],
    g: Ground,
    p: bool,
    k: usize,
) -> u64
    requires lent { Lent g t.old bits.now }
    requires clause_nodes { ClauseNodes c.nodes.now c.needs.now k }
    requires tallies { Tallies g t.old tallies.old }
    ensures kept { Kept (pairs_at g.marks g.lasso.h) t.old t.new
        × Tallies g t.new tallies.new }
    ensures by_index { (bears : ℕ → ℕ → ℕ → Bool) → Shown g.marks g.carts g.lasso.h bears t.old
        → ClauseRow (rows_on g.carts g.lasso.h g.lasso.l bears bits.now) g.drift c.entry.nodes.now p k result }
{
    let r = clause_judged(c, t, w, tallies, bits, g, (g.marks + 2) * g.lasso.h, p, k);
    r.row
}
