// The carts that keep to a text all along a window of drift + 1 counters.
ghost use Rattle.std.specs.Prelude.{ℕ, ◌+◌, ◌^◌, ◌≤◌, ◌<◌, leb, length, get_or};
ghost use Rattle.cltl.specs.Rules.{throughout};
ghost use Rattle.mask.specs.Mask.{Row};
ghost use Rattle.table.specs.Table.{told};
ghost use Rattle.quorum.specs.Words.{within, has, Bits};

use crate::Fleet;

// Of the words of the steps: from which steps on at least m carts have their bit at all of drift + 1 counters.
pub(crate) fn throughout_row(w: &mut [u32; 81], m: usize, fleet: Fleet, bits: &[u32; 41]) -> u64
    requires bits { Bits bits.now }
    requires by_index { (s : ℕ) → s < fleet.lasso.h → get_or w.old s 0 < 2 ^ fleet.carts }
    ensures row { Row fleet.lasso.h result (λ s. leb m (throughout fleet.lasso.h fleet.lasso.l fleet.carts fleet.drift (has w.old) s)) }
{
    let from = crate::running::windows(w, fleet.lasso, fleet.drift);
    crate::counting::at_least(w, from, m, fleet.carts, fleet.lasso.h, bits)
}

// The steps s at which at least m of the carts in `who` satisfy the text whose table begins at `at`, at all of counters s to s + drift: count_row without its
// case of all carts at the step itself. The words of w are scratch.
pub fn joint_row(
    t: &[u32],
    at: usize,
    m: usize,
    who: u32,
    fleet: Fleet,
    w: &mut [u32; 81],
    bits: &[u32; 41],
) -> u64
    requires who_bound { who < 2 ^ fleet.carts }
    requires h_in_bounds { at + fleet.lasso.h ≤ length t.now }
    requires bits { Bits bits.now }
    ensures row { Row fleet.lasso.h result (λ s. leb m (throughout fleet.lasso.h fleet.lasso.l fleet.carts fleet.drift (within who (told t.now at)) s)) }
{
    crate::words::unroll(t, at, true, who, fleet.lasso.h, w);
    throughout_row(w, m, fleet, bits)
}
