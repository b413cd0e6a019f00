// Tables built by four carts at a time, the last ones first: their bits go below those of the carts behind them.
ghost use Rattle.std.specs.Prelude.{◌+◌, ◌*◌, ◌≤◌, ◌<◌, ◌≡◌, length};
ghost use Rattle.table.specs.Table.{Stored};
ghost use Rattle.marks.specs.Bears.{Placed};
ghost use Rattle.marks.specs.Tables.{Each, Holds, Tables, Empty, Room, MovedUp, Bearers};

use super::{fours, words};

// One word stored n times. A `fill` of a range, as table's `put_lap` is: a function over both would wrap that.
pub(crate) fn put(t: &mut [u32], at: usize, n: usize, x: u32)
    requires { at + n ≤ length t.old }
    ensures { Stored (λ s y. y ≡ x) at 0 n t.old t.new }
{
    t[at..at + n].fill(x);
}

// Four carts' bits go into the table of mark k.
fn move_up(words: &[u32; 256], k: usize, h: usize, t: &mut [u32])
    requires k_bound { (k < 32) × (h ≤ 64) }
    requires h_in_bounds { k * h + h ≤ length t.old }
    requires each { Each (Room k) (k * h) h t.old }
    ensures { Stored (MovedUp t.old h words.now k) (k * h) 0 h t.old t.new }
{
    let at = k * h;
    let from = k % 4 * 64;
    let low = k / 4 * 4;
    for s in 0..h {
        let j = at + s;
        t[j] = t[j] * 16 + (words[from + s] >> low) % 16;
    }
}

// Four carts' bits go into the table of each mark.
fn add_four(words: &[u32; 256], marks: usize, h: usize, t: &mut [u32])
    requires marks_bound { (marks ≤ 32) × (h ≤ 64) }
    requires h_in_bounds { marks * h ≤ length t.old }
    requires holds { Holds Room marks h t.old }
    ensures { Tables (MovedUp t.old h words.now) marks h t.old t.new }
{
    for k in 0..marks {
        move_up(words, k, h, t);
    }
}

// Every cart's bits go into cleared tables. Carts that are missing in the last four have words of 0.
pub(crate) fn add_carts(
    floor: &[u8],
    block: &[u8; 2048],
    carts: usize,
    h: usize,
    marks: usize,
    t: &mut [u32],
)
    requires carts_bound { (carts ≤ 32) × (h ≤ 64) × (marks ≤ 32) }
    requires h_in_bounds { marks * h ≤ length t.old }
    requires placed { Placed floor.now block.now carts h }
    requires holds { Holds Empty marks h t.old }
    ensures { Tables (Bearers floor.now block.now carts) marks h t.old t.new }
{
    let mut words = [0u32; 256];
    for four in (0..(carts + 3) / 4).rev() {
        let i = 4 * four;
        words::gather_some(floor, block, i, (carts - i).min(4), h, &mut words);
        fours::pack(h, &mut words);
        add_four(&words, marks, h, t);
    }
}
