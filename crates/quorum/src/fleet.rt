// What counts are over.
ghost use Rattle.std.specs.Prelude.{◌≤◌};

use mask::Lasso;

// So many carts, the lasso that they all go round, and the drift between them. The table t, the words w and the bits stay beside it: t and the bits are read
// and w is written, and a struct of them would be made for each call and taken apart in it, no plainer.
#[derive(Clone, Copy)]
pub struct Fleet {
    pub carts: usize,
    pub lasso: Lasso,
    pub drift: usize,
    pub ghost few: { carts ≤ 32 },
    pub ghost drift_bound: { drift ≤ 16 },
}
