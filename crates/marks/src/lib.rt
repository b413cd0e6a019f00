// The tables of the marks, made once for a plan: word s of a mark's table has bit i for cart i. And the words of the groups.
#![tactic(auto)]

mod fours;
mod groups;
mod tables;
mod words;

ghost use Rattle.std.specs.Prelude.{◌+◌, ◌*◌, ◌≤◌, length};
ghost use Rattle.table.specs.Layout.{pairs_at};
ghost use Rattle.marks.specs.Bears.{Placed, Borne, NoneFrom};
ghost use Rattle.marks.specs.Tables.{Filled};

pub use groups::fill_groups;

// How many tables the marks of a floor's places need. `as`: std has no From for u32 to usize.
pub fn borne(floor: &[u8], places: usize) -> usize
    requires { 8 * places ≤ length floor.now }
    ensures { Borne floor.now places result }
{
    let mut all = 0u32;
    for q in 0..places {
        all |= words::marks_of(floor, q);
    }
    32 - all.leading_zeros() as usize
}

// Fills the tables of a plan: the marks', that of all and that of none. The parameters go down to add_carts, gather_some and gather as they are: a struct of them
// would be made for this one call, and each function takes another part.
pub fn fill(floor: &[u8], block: &[u8; 2048], carts: usize, h: usize, marks: usize, t: &mut [u32])
    requires carts_bound { (carts ≤ 32) × (h ≤ 64) × (marks ≤ 32) }
    requires h_in_bounds { pairs_at marks h ≤ length t.old }
    requires placed { Placed floor.now block.now carts h }
    requires none_from { NoneFrom floor.now block.now carts h marks }
    ensures { Filled floor.now block.now carts h marks t.old t.new }
{
    let all = marks * h;
    tables::put(t, 0, all, 0);
    tables::put(t, all, h, u32::MAX);
    tables::put(t, all + h, h, 0);
    tables::add_carts(floor, block, carts, h, marks, t);
}
