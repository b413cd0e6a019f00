// One operator of inner text on the tables of its operands. Rows (operators) are numbers that are returned, tables are made in a block that is lent: one
// function for both would be no plainer.
ghost use Rattle.std.specs.Prelude.{◌≡◌, true, false, ◌+◌, ◌≤◌, length};
ghost use Rattle.table.specs.Table.{told, Apart, Table};
ghost use Rattle.table.specs.Layout.{pairs_at, Constants};
ghost use Rattle.drift.specs.Decoded.{unary_of, binary_of};
ghost use Rattle.drift.specs.Operator.{exact_rule, two_rule};
ghost use Rattle.drift.specs.Places.{constant_at};

use crate::Ground;
use token::{Binary, Unary};

// The table of p at every step.
pub fn constant_at(g: Ground, p: bool) -> usize
    ensures { result ≡ constant_at g.marks g.lasso.h p }
{
    if p {
        g.marks * g.lasso.h
    } else {
        (g.marks + 1) * g.lasso.h
    }
}

// "not", "next", F or G.
pub fn one_table(o: Unary, t: &mut [u32], a: usize, to: usize, g: Ground)
    requires constants { Constants g.marks g.lasso.h t.old }
    requires h_in_bounds { (a + g.lasso.h ≤ length t.old) × (pairs_at g.marks g.lasso.h ≤ to) × (to + g.lasso.h ≤ length t.old) × Apart a to g.lasso.h }
    ensures { Table (λ i. exact_rule g.lasso.h g.lasso.l true (unary_of o) (told t.old a i)) to g.lasso.h t.old t.new }
{
    let h = g.lasso.h;
    let l = g.lasso.l;
    match o {
        Unary::Not => table::not_table(t, a, to, h),
        Unary::Next => table::next_table(t, a, to, h, l),
        Unary::Finally => table::ever_table(true, t, constant_at(g, true), a, to, h, l),
        Unary::Globally => table::ever_table(false, t, constant_at(g, false), a, to, h, l),
    }
}

// "and", "or", U or R.
pub fn two_table(o: Binary, t: &mut [u32], a: usize, b: usize, to: usize, g: Ground)
    requires h_in_bounds { (a + g.lasso.h ≤ length t.old) × (b + g.lasso.h ≤ length t.old) × (to + g.lasso.h ≤ length t.old) }
    requires apart { Apart a to g.lasso.h × Apart b to g.lasso.h }
    ensures { Table (λ i. two_rule g.lasso.h g.lasso.l true (binary_of o) (λ s. false) (told t.old a i) (told t.old b i)) to g.lasso.h
        t.old t.new }
{
    match o {
        Binary::And => table::join_table(true, t, a, b, to, g.lasso.h),
        Binary::Or => table::join_table(false, t, a, b, to, g.lasso.h),
        Binary::Until => table::until_table(true, t, a, b, to, g.lasso.h, g.lasso.l),
        Binary::Release => table::until_table(false, t, a, b, to, g.lasso.h, g.lasso.l),
    }
}
