// What the refusals of a clause name: a group that the floor lacks, "next" outside a count, and the step at which a G fails.
ghost use Rattle.std.specs.Prelude.{◌≡◌, Bool, ◌&&◌, ℕ, ◌+◌, ◌/◌, ◌<◌, ◌≤◌, ltb, MatchOption};
ghost use Rattle.cltl.specs.Rules.{has_next};
ghost use Rattle.cltl.specs.Step.{lowest, failing};
ghost use Rattle.mask.specs.Mask.{on};
ghost use Rattle.table.specs.Table.{Kept};
ghost use Rattle.table.specs.Layout.{pairs_at, Shown};
ghost use Rattle.drift.specs.Tree.{Ordered, clause_tree, kind_at, first_at, third_at};
ghost use Rattle.drift.specs.Lacking.{groups_from, first_lacked};
ghost use Rattle.drift.specs.Lent.{Lent, ClauseNodes};
ghost use Rattle.drift.specs.Tallies.{Tallies};
ghost use Rattle.drift.specs.Answer.{rows_on};

use crate::clauses::clause_row;
use crate::nodes::{first_at, kind_at, over_at, second_at};
use crate::{Clause, Ground};
use token::{Kind, Unary};

// Whether node k is a count over a group that a floor with so many lacks.
fn lacks(nodes: &[u8], many: usize, k: usize) -> bool
    requires { Ordered nodes.now (k + 1) }
    ensures { result ≡ (ltb 9 (kind_at nodes.now k) && ltb many (third_at nodes.now k / 4)) }
{
    match kind_at(nodes, k) {
        Kind::Count { .. } => many < over_at(nodes, k),
        _ => false,
    }
}

// The first group that n nodes name, in their order, and a floor with so many lacks. Counts end in the order of the text.
pub fn lacking_group(nodes: &[u8], n: usize, many: usize) -> Option<usize>
    requires { Ordered nodes.now n }
    ensures { MatchOption result (first_lacked many (groups_from nodes.now n 0) ≡ 0)
        (λ g. (first_lacked many (groups_from nodes.now n 0) ≡ g + 1) × (g < 255)) }
{
    for k in 0..n {
        if lacks(nodes, many, k) {
            return Some(over_at(nodes, k) - 1);
        }
    }
    None
}

// Whether "next" stands outside the counts of node k's clause.
pub fn has_next(nodes: &[u8], k: usize) -> bool
    requires { Ordered nodes.now (k + 1) }
    ensures { (n : ℕ) → k < n → result ≡ has_next (clause_tree nodes.now n k) }
{
    match kind_at(nodes, k) {
        // A match in a match: after `Unary(Next)` an arm `Unary(_)` is not told that it is no "next" (tried).
        Kind::Unary(o) => match o {
            Unary::Next => true,
            _ => has_next(nodes, first_at(nodes, k)),
        },
        Kind::Binary(_) => {
            let a = has_next(nodes, first_at(nodes, k));
            let b = has_next(nodes, second_at(nodes, k));
            // Not `||`: `two_tells` is of both answers; where one is not asked the check finds no proof (tried), and a lemma more would be needed.
            a | b
        }
        _ => false,
    }
}

// The lowest step at which a row is false, or h for none: `lowest` is so.
fn lowest_off(a: u64, h: usize) -> usize
    requires { h ≤ 64 }
    ensures { (result ≡ lowest (on a) h 0) × (result ≤ h) }
{
    for s in 0..h {
        if (a >> s) % 2 == 0 {
            return s;
        }
    }
    h
}

// The operand of a G.
fn globally_at(nodes: &[u8], k: usize) -> Option<usize>
    requires { Ordered nodes.now (k + 1) }
    ensures { MatchOption result (kind_at nodes.now k ≡ 5 → ⊥) (λ x. (kind_at nodes.now k ≡ 5) × (x ≡ first_at nodes.now k)) }
{
    match kind_at(nodes, k) {
        Kind::Unary(Unary::Globally) => Some(first_at(nodes, k)),
        _ => None,
    }
}

// The step at which node k's clause fails, if it does. 0 where it is no G: `failing` and the paper say so.
pub fn failing_step(
    c: Clause,
    t: &mut [u32],
    w: &mut [u32; 81],
    tallies: &mut [u8; 2048],
    bits: &[u32; 41],
    g: Ground,
    k: usize,
) -> usize
    requires lent { Lent g t.old bits.now }
    requires clause_nodes { ClauseNodes c.nodes.now c.needs.now k }
    requires tallies { Tallies g t.old tallies.old }
    ensures kept { Kept (pairs_at g.marks g.lasso.h) t.old t.new
        × Tallies g t.new tallies.new }
    ensures by_index { ((bears : ℕ → ℕ → ℕ → Bool) → Shown g.marks g.carts g.lasso.h bears t.old → (n : ℕ) → k < n
        → result ≡ failing (rows_on g.carts g.lasso.h g.lasso.l bears bits.now) g.drift (clause_tree c.entry.nodes.now n k)) × (result ≤ 64) }
{
    let Some(x) = globally_at(c.nodes, k) else {
        return 0;
    };
    let body = clause_row(c, t, w, tallies, bits, g, true, x);
    lowest_off(body, g.lasso.h)
}
