// "until" and "release" over all steps at once.
ghost use Rattle.std.specs.Prelude.{true, not, ◌&&◌, ◌||◌, ◌<◌, ◌^◌};
ghost use Rattle.cltl.specs.Rules.{fix};
ghost use Rattle.mask.specs.Mask.{on, Row};

use crate::Lasso;

impl Lasso {
    // The lap's turn: where no gap is met up to the end, what is true at the lap's first step.
    fn turned(self, r: u64, gap: u64) -> u64
        requires r_bound { (r < 2 ^ self.h) × (gap < 2 ^ self.h) }
        ensures { Row self.h result (λ s. on r s || (not (on gap s) && on r self.l)) }
    {
        if (r >> self.l) % 2 == 1 {
            r | self.complement(gap)
        } else {
            r
        }
    }

    // "until": straight on, over twice as many steps with each turn of the loop, and then round the lap. The loop stays a while: no range doubles.
    pub fn until_row(self, a: u64, b: u64) -> u64
        requires a_bound { (a < 2 ^ self.h) × (b < 2 ^ self.h) }
        ensures { Row self.h result (fix self.h self.l true (on a) (on b) self.h) }
    {
        let mut r = b;
        let mut gap = self.complement(a);
        let mut w = 1;
        while w < self.h {
            let ahead = r >> w;
            r |= ahead ^ (ahead & gap);
            gap |= gap >> w;
            w *= 2;
        }
        self.turned(r, gap)
    }

    // "until" (p) or "release": the complement of "until" over complements.
    pub fn fix_row(self, p: bool, a: u64, b: u64) -> u64
        requires a_bound { (a < 2 ^ self.h) × (b < 2 ^ self.h) }
        ensures { Row self.h result (fix self.h self.l p (on a) (on b) self.h) }
    {
        let until = self.until_row(self.flagged(p, a), self.flagged(p, b));
        self.flagged(p, until)
    }
}
