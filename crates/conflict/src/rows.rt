// The rows of a plan as they lie in its block.
ghost use Rattle.std.specs.Prelude.{◌≡◌, ◌≤◌, ◌<◌};
ghost use Rattle.plan.specs.Valid.{HeadInRange};
ghost use Rattle.conflict.specs.Table.{block_place};

use plan::Head;

// The rows of so many carts, 64 bytes each, and a table that flags the floor's narrow places.
#[derive(Clone, Copy)]
pub(crate) struct Rows<'a> {
    pub(crate) bays: &'a [u8; 256],
    pub(crate) block: &'a [u8; 2048],
    pub(crate) carts: usize,
    pub(crate) head: Head,
    ghost head_in_range: { HeadInRange head },
    ghost carts_bound: { carts ≤ 32 },
}

impl<'a> Rows<'a> {
    // The place on step s of cart i, as an index: marks has this line too, and knows no conflict.
    pub(crate) fn place_on(&self, i: usize, s: usize) -> usize
        requires { (i < 32) × (s < 64) }
        ensures { (result ≡ block_place self.now.block.now i s) × (result < 256) }
    {
        usize::from(self.block[64 * i + s])
    }
}
