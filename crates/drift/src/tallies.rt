// Most counts are over a single mark. How many carts have it at all counters of each window, or at none, is counted once a check and kept, where there is room.
ghost use Rattle.std.specs.Prelude.{◌≡◌, ◌+◌, ◌-◌, ◌^◌, ◌≤◌, ◌<◌, length, IfSome};
ghost use Rattle.cltl.specs.Rules.{quorum};
ghost use Rattle.mask.specs.Mask.{Row, signed};
ghost use Rattle.table.specs.Table.{told};
ghost use Rattle.quorum.specs.Words.{within};
ghost use Rattle.drift.specs.Lent.{Lent};
ghost use Rattle.drift.specs.Tallies.{KeptAt, TalliesOf, Tallies};

use crate::Ground;
use crate::places::chosen;

// Where the tallies of the mark whose table begins at `from` are kept, or of its negation; nowhere if the table is no mark's or there is no room.
fn kept_at(from: usize, p: bool, g: Ground) -> Option<usize>
    ensures { IfSome result (λ at. KeptAt g from p at) }
{
    let k = from / g.lasso.h;
    if g.marks <= k {
        return None;
    }
    if k * g.lasso.h < from {
        return None;
    }
    let at = chosen(p, from, from + g.marks * g.lasso.h);
    if 2048 < at + g.lasso.h {
        return None;
    }
    Some(at)
}

// The same for a count over the carts in a word: only those of the whole fleet are kept.
fn kept_for(who: u32, fleet: u32, from: usize, p: bool, g: Ground) -> Option<usize>
    ensures { IfSome result (λ at. KeptAt g from p at × (who ≡ fleet)) }
{
    if who != fleet {
        return None;
    }
    kept_at(from, p, g)
}

// Makes the tallies of all carts that are kept at `at`, unless they are there already.
fn fill_if_none(
    t: &[u32],
    from: usize,
    p: bool,
    who: u32,
    w: &mut [u32; 81],
    tallies: &mut [u8; 2048],
    g: Ground,
    at: usize,
)
    requires h_in_bounds { (from + g.lasso.h ≤ length t.now) × (who ≡ 2 ^ g.carts - 1) }
    requires tallies { Tallies g t.now tallies.old × KeptAt g from p at }
    ensures tallies_2 { Tallies g t.now tallies.new × TalliesOf g t.now from p at tallies.new }
{
    if tallies[at] < 255 {
        return;
    }
    quorum::fill_tallies(t, from, p, who, g.fleet(), w, tallies, at);
}

// The rule for a count with threshold m, over the carts in a word, of the text (p), or the negation of the text, whose table begins at `from`.
pub fn count_told(
    t: &[u32],
    from: usize,
    p: bool,
    m: usize,
    who: u32,
    w: &mut [u32; 81],
    tallies: &mut [u8; 2048],
    bits: &[u32; 41],
    g: Ground,
) -> u64
    requires lent { Lent g t.now bits.now }
    requires tallies { Tallies g t.now tallies.old }
    requires h_in_bounds { (from + g.lasso.h ≤ length t.now) × (who < 2 ^ g.carts) }
    ensures tallies_2 { Tallies g t.now tallies.new }
    ensures row { Row g.lasso.h result (quorum g.lasso.h g.lasso.l g.carts g.drift m (within who (λ i s. signed p (told t.now from i s)))) }
{
    let Some(at) = kept_for(who, bits[32], from, p, g) else {
        return quorum::count_row(t, from, p, m, who, g.fleet(), w, bits);
    };
    fill_if_none(t, from, p, who, w, tallies, g, at);
    quorum::tallied_row(t, from, p, m, who, g.carts, g.lasso.h, w, tallies, at, bits)
}
