// A cart's first meeting with those above it.
ghost use Rattle.std.specs.Prelude.{◌≡◌, suc, ◌+◌, ◌≤◌, ◌<◌, T};
ghost use Rattle.conflict.specs.Table.{flag, block_place};
ghost use Rattle.conflict.specs.Columns.{Decides, Some, near};
ghost use Rattle.conflict.specs.Above.{Above, FirstMet};
ghost use Rattle.conflict.specs.OfRows.{routes_of, step_at, LatestOf};

use crate::rows::Rows;

// Whether an entry of the table is of a counter that v is at most d ahead of.
fn is_near(m: u8, v: usize, d: usize) -> bool
    requires { d ≤ 16 }
    ensures { result ≡ near m v d }
{
    m != 0 && v < usize::from(m) + d
}

impl<'a> Rows<'a> {
    // Whether cart a at counter v, on step sv, meets one of those above. The table has where they were up to counter v + d, which is on step sw.
    // Only there an exchange is looked for: an earlier one ends on a's place, and so is in the table.
    #[tactic(auto, using(row::specs::Round::step_below, row::specs::Round::next_below))]
    fn meets_above(&self, last: &[u8; 256], a: usize, v: usize, sv: usize, sw: usize) -> bool
        requires a_lt_carts { a < self.now.carts }
        requires sv_value { (sv ≡ step_at self.now v) × (sw ≡ step_at self.now (v + self.now.head.drift)) }
        requires latest_above { LatestOf self.now a (suc (v + self.now.head.drift)) last.now }
        ensures { Decides (Above (routes_of self.now) self.now.head.drift a v) result }
    {
        let h = self.head;
        let p = self.place_on(a, sv);
        if self.bays[p] == 0 {
            return false;
        }
        if is_near(last[p], v, h.drift) {
            return true;
        }
        let q = self.place_on(a, row::next_step(h.steps, h.stem, sv));
        if self.bays[q] == 0 {
            return false;
        }
        self.exchanged(a + 1, sw, row::next_step(h.steps, h.stem, sw), q, p)
    }

    // Enters where those above cart a are at the counters below d; the step of counter d. In `last` each place has one more than the latest such counter, and 0
    // if there is none: bytes, since `Latest` is of a list of numbers.
    #[tactic(auto, using(row::specs::Round::step_below))]
    fn lead(&self, last: &mut [u8; 256], a: usize) -> usize
        requires a_lt_carts { a < self.now.carts }
        requires latest_above { LatestOf self.now a 0 last.old }
        ensures { (result ≡ step_at self.now self.now.head.drift)
            × LatestOf self.now a self.now.head.drift last.new }
    {
        let h = self.head;
        let mut s = 0;
        for w in 0..h.drift {
            self.enter(last, a + 1, s, (w + 1) as u8);
            s = row::next_step(h.steps, h.stem, s);
        }
        s
    }

    // Whether cart a stands on a narrow place on one of its steps. A loop: of `any` what it returns is left to be shown
    // by hand (tried), of the loop nothing is.
    fn visits(&self, a: usize) -> bool
        requires { a < self.now.carts }
        ensures { Decides (Some 0 self.now.head.steps (λ s. T (flag self.now.bays.now (block_place self.now.block.now a s)))) result }
    {
        for s in 0..self.head.steps {
            if self.bays[self.place_on(a, s)] != 0 {
                return true;
            }
        }
        false
    }

    // The step of cart a's first meeting with one above it, its counters in order.
    #[tactic(auto, using(row::specs::Round::step_below))]
    fn first_above(&self, a: usize) -> Option<usize>
        requires { a < self.now.carts }
        ensures { FirstMet (routes_of self.now) self.now.head.drift a result }
    {
        let h = self.head;
        let mut last = [0u8; 256];
        let mut sw = self.lead(&mut last, a);
        let mut sv = 0;
        for v in 0..h.steps + h.drift {
            self.enter(&mut last, a + 1, sw, (v + h.drift + 1) as u8);
            if self.meets_above(&last, a, v, sv, sw) {
                return Some(sv);
            }
            sv = row::next_step(h.steps, h.stem, sv);
            sw = row::next_step(h.steps, h.stem, sw);
        }
        None
    }

    // The same, with no look at the others where cart a stands on no narrow place.
    pub(crate) fn first_met(&self, a: usize) -> Option<usize>
        requires { a < self.now.carts }
        ensures { FirstMet (routes_of self.now) self.now.head.drift a result }
    {
        if !self.visits(a) {
            return None;
        }
        self.first_above(a)
    }
}
