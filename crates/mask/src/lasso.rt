// The steps that truth rows are over.
ghost use Rattle.std.specs.Prelude.{◌<◌, ◌≤◌};

// A lasso of h steps whose lap begins at l, short enough for a bit to each step.
#[derive(Clone, Copy)]
pub struct Lasso {
    pub h: usize,
    pub l: usize,
    pub ghost lap: { l < h },
    pub ghost short: { h ≤ 64 },
}
