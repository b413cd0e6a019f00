// How many pairs of places the text of each node needs.
ghost use Rattle.std.specs.Prelude.{◌≡◌, ℕ, ◌+◌, ◌≤◌, ◌<◌, get_or, length};
ghost use Rattle.drift.specs.Tree.{Ordered, kind_at, node_at};
ghost use Rattle.drift.specs.Need.{more as more_of, need_node, Needs, InTurn};

use crate::nodes::{first_at, kind_at, second_at};
use crate::{Clause, Operands};
use token::Kind;

// Of two operands.
fn more(a: u8, b: u8) -> u8
    requires { a < 255 }
    ensures { result ≡ more_of a b }
{
    if a == b {
        return a + 1;
    }
    if a < b { b } else { a }
}

// What node k needs, by the needs of its operands: a count needs what its text needs.
fn node_need(nodes: &[u8], needs: &[u8], k: usize) -> u8
    requires ordered { Ordered nodes.now (k + 1) }
    requires k_in_bounds { (k ≤ length needs.now) × (k < 255) × ((j : ℕ) → j < k → get_or needs.now j 0 ≤ j) }
    ensures { result ≡ need_node needs.now (node_at nodes.now k) }
{
    match kind_at(nodes, k) {
        Kind::Top | Kind::Mark => 0,
        // An operator's own table takes a pair.
        Kind::Unary(_) => needs[first_at(nodes, k)].max(1),
        Kind::Binary(_) => more(needs[first_at(nodes, k)], needs[second_at(nodes, k)]),
        Kind::Count { .. } => needs[first_at(nodes, k)],
    }
}

// Fills the needs of n nodes, and leaves every other byte alone.
pub fn fill_needs(nodes: &[u8], n: usize, needs: &mut [u8])
    requires { Ordered nodes.now n × (n ≤ 128) × (n ≤ length needs.old) }
    ensures { Needs nodes.now needs.new n × (length needs.new ≡ length needs.old)
        × ((j : ℕ) → n ≤ j → get_or needs.new j 0 ≡ get_or needs.old j 0) }
{
    for k in 0..n {
        needs[k] = node_need(nodes, needs, k);
    }
}

// The operands of a binary operator, node k: the one that needs more pairs goes first.
pub fn in_turn(c: Clause, k: usize) -> Operands
    requires ordered { Ordered c.nodes.now (k + 1) × Needs c.nodes.now c.needs.now (k + 1) }
    requires bound { (6 ≤ kind_at c.nodes.now k) × (kind_at c.nodes.now k < 10) }
    ensures { InTurn c.entry.nodes.now c.entry.needs.now k result }
{
    let x = first_at(c.nodes, k);
    let y = second_at(c.nodes, k);
    if c.needs[x] < c.needs[y] {
        Operands {
            first: y,
            second: x,
            swapped: true,
        }
    } else {
        Operands {
            first: x,
            second: y,
            swapped: false,
        }
    }
}
