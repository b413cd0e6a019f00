// Columns of the block: where the carts stand on one step.
ghost use Rattle.std.specs.Prelude.{◌≤◌, ◌<◌};
ghost use Rattle.conflict.specs.Table.{block_place, Goes};
ghost use Rattle.conflict.specs.Columns.{Decides, Some, Entered};

use crate::rows::Rows;

impl<'a> Rows<'a> {
    // Marks the places where the carts from one on stand on a step.
    pub(crate) fn enter(&self, last: &mut [u8; 256], from: usize, step: usize, mark: u8)
        requires { (from ≤ self.now.carts) × (step < 64) }
        ensures { Entered from self.now.carts (λ b. block_place self.now.block.now b step) mark last.old last.new }
    {
        for b in from..self.carts {
            last[self.place_on(b, step)] = mark;
        }
    }

    // Whether cart b stands on q on a step and on p on the next.
    fn goes(&self, b: usize, step: usize, next: usize, q: usize, p: usize) -> bool
        requires { (b < 32) × (step < 64) × (next < 64) }
        ensures { Decides (Goes self.now.block.now step next q p b) result }
    {
        self.place_on(b, step) == q && self.place_on(b, next) == p
    }

    // Whether one of the carts from one on does so: a loop, as in `visits`.
    pub(crate) fn exchanged(
        &self,
        from: usize,
        step: usize,
        next: usize,
        q: usize,
        p: usize,
    ) -> bool
        requires { (from ≤ self.now.carts) × (step < 64) × (next < 64) }
        ensures { Decides (Some from self.now.carts (Goes self.now.block.now step next q p)) result }
    {
        for b in from..self.carts {
            if self.goes(b, step, next, q, p) {
                return true;
            }
        }
        false
    }
}
