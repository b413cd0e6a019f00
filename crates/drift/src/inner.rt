// Inner text for all carts at once, each node once. Of two operands the one that needs more pairs of places goes first, so that few tables are held.
ghost use Rattle.std.specs.Prelude.{◌≡◌, Bool, List, ℕ, ◌+◌, ◌≤◌, get_or, length};
ghost use Rattle.table.specs.Table.{Kept};
ghost use Rattle.table.specs.Layout.{mark_at, Constants, Shown};
ghost use Rattle.drift.specs.Tree.{Ordered, kind_at, node_at};
ghost use Rattle.drift.specs.Decoded.{IsKind};
ghost use Rattle.drift.specs.Need.{Needs};
ghost use Rattle.drift.specs.Places.{leaf_at, pairs_end, PairsFrom, Placed};
ghost use Rattle.drift.specs.Answer.{rows_on, InnerTable};

use crate::needs::in_turn;
use crate::nodes::{first_at, kind_at};
use crate::places::{place_one, place_two};
use crate::tables::constant_at;
use crate::{Clause, Ground};
use token::Kind;

// The table of a mark; one above the highest that is borne has that of none.
fn mark_at(g: Ground, m: usize) -> usize
    ensures { result ≡ mark_at g.marks g.lasso.h m }
{
    if m < g.marks {
        m * g.lasso.h
    } else {
        constant_at(g, false)
    }
}

// Where a leaf's table lies.
fn leaf_at(nodes: &[u8], kind: Kind, g: Ground, k: usize) -> usize
    requires ordered { Ordered nodes.now (k + 1) }
    requires kind_value { IsKind kind (kind_at nodes.now k) }
    ensures { result ≡ leaf_at g.marks g.lasso.h (node_at nodes.now k) }
{
    match kind {
        Kind::Mark => mark_at(g, first_at(nodes, k)),
        _ => constant_at(g, true),
    }
}

// Makes the table of node k's text in the pairs of places from an offset on, and tells where it lies.
pub fn inner_table(c: Clause, t: &mut [u32], g: Ground, at: usize, k: usize) -> usize
    requires constants { Constants g.marks g.lasso.h t.old }
    requires ordered { Ordered c.nodes.now (k + 1) × Needs c.nodes.now c.needs.now (k + 1) }
    requires pairs_from { PairsFrom g.marks g.lasso.h at (get_or c.needs.now k 0) }
    requires h_in_bounds { pairs_end g.marks g.lasso.h ≤ length t.old }
    ensures kept { Kept at t.old t.new × Placed g.marks g.lasso.h at result × (result + g.lasso.h ≤ length t.new) }
    ensures by_index { (bears : ℕ → ℕ → ℕ → Bool) (b : List ℕ) → Shown g.marks g.carts g.lasso.h bears t.old
        → InnerTable (rows_on g.carts g.lasso.h g.lasso.l bears b) c.entry.nodes.now k t.new result }
{
    match kind_at(c.nodes, k) {
        Kind::Unary(o) => {
            let a = inner_table(c, t, g, at, first_at(c.nodes, k));
            place_one(o, t, a, at, g)
        }
        Kind::Binary(o) => {
            let turn = in_turn(c, k);
            let first = inner_table(c, t, g, at, turn.first);
            let second = inner_table(c, t, g, at + 2 * g.lasso.h, turn.second);
            place_two(o, turn.swapped, t, first, second, at, g)
        }
        leaf => leaf_at(c.nodes, leaf, g, k),
    }
}
