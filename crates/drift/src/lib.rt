// Clauses judged on rows: outside counts a row is a mask, bit s for step s; inside counts a table is one word a step, with bit i for cart i.
#![tactic(auto)]

mod clauses;
mod counts;
mod inner;
mod joining;
mod needs;
mod nodes;
mod operators;
mod places;
mod refused;
mod tables;
mod tallies;

ghost use Rattle.std.specs.Prelude.{◌≡◌, ◌<◌, ◌≤◌};

pub use clauses::clause_row;
use mask::Lasso;
pub use needs::fill_needs;
use quorum::Fleet;
pub use refused::{failing_step, has_next, lacking_group};

// What clauses are judged on: so many carts, the lasso of their steps, the drift, and so many tables of marks. The bits of steps are lent beside it,
// since inner text needs none: in one struct they would be no plainer. Nor would t, w and bits be, as each function takes another part of them: t to read or
// to fill, w alone or with the tallies. Nor a node's block with its number: each step down would make one, and prove `Ordered` for it, where a number does.
// Words for the windows of a count (w), and the tallies that are kept from count to count, are lent for a whole check, the tallies each 255 at the start, for
// none: memory is fixed, and an Option to each would take twice the bytes. w and tallies are lent one by one: a struct of them is cleared when it is made,
// and the check of a small floor takes 2,218 instructions more (29 %).
#[derive(Clone, Copy)]
pub struct Ground {
    pub carts: usize,
    pub lasso: Lasso,
    pub drift: usize,
    pub marks: usize,
    pub ghost some: { 0 < carts },
    pub ghost few: { carts ≤ 32 },
    pub ghost drift_bound: { drift ≤ 16 },
    pub ghost marks_bound: { marks ≤ 32 },
}

impl Ground {
    // What its counts are over.
    #[inline(always)]
    pub(crate) fn fleet(self) -> Fleet
        ensures { (result.carts ≡ self.carts) × (result.lasso ≡ self.lasso) × (result.drift ≡ self.drift) }
    {
        Fleet {
            carts: self.carts,
            lasso: self.lasso,
            drift: self.drift,
        }
    }
}

// The nodes up to a clause's last one, four bytes to each, and how many pairs of places the text of each needs.
#[derive(Clone, Copy)]
pub struct Clause<'a> {
    pub nodes: &'a [u8],
    pub needs: &'a [u8],
}

// The operands of a binary operator in the order in which they are judged; swapped, the right one is first. The flag stays beside them, for `chosen`: what is
// made of the two (rows, tables) is made in this order, and put back into that of the text by the flag.
#[derive(Clone, Copy)]
pub struct Operands {
    pub first: usize,
    pub second: usize,
    pub swapped: bool,
}

// The counts of a part of a clause to join (with drift, a count or an or whose sides, through nested ors, are all counts over the same carts): where the table
// of the or of their texts begins, or without the sign that of the negation of this or, the sum of (threshold - 1), 32 at most, and these carts, a bit each.
#[derive(Clone, Copy)]
pub struct Joined {
    pub at: usize,
    pub sign: bool,
    pub slack: u8,
    pub who: u32,
}

// What judging a part of a clause gives.
#[derive(Clone, Copy)]
pub struct Judged {
    pub row: u64,
    pub joined: Option<Joined>,
}
