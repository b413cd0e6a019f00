// Truth rows over a lasso as masks: bit s is the truth at step s.
#![tactic(auto)]

mod lasso;
mod until;

ghost use Rattle.std.specs.Prelude.{true, not, ℕ, ◌<◌, ◌≤◌, ◌^◌};
ghost use Rattle.row.specs.Lasso.{next_step};
ghost use Rattle.cltl.specs.Rules.{join};
ghost use Rattle.mask.specs.Mask.{on, Row, signed};

pub use lasso::Lasso;

// True at every step. This and the three behind it ask only how many steps there are: no lap is needed for them.
pub fn full(h: usize) -> u64
    requires { (0 < h) × (h ≤ 64) }
    ensures { Row h result (λ s. true) }
{
    u64::MAX >> (64 - h)
}

// p at every step.
pub fn constant(p: bool, h: usize) -> u64
    requires { (0 < h) × (h ≤ 64) }
    ensures { Row h result (λ s. p) }
{
    if p { full(h) } else { 0 }
}

pub fn complement(a: u64, h: usize) -> u64
    requires h_nonzero { (0 < h) × (h ≤ 64) }
    requires a_bound { a < 2 ^ h }
    ensures { Row h result (λ s. not (on a s)) }
{
    a ^ full(h)
}

// The row itself (p) or its complement.
pub fn flagged(p: bool, a: u64, h: usize) -> u64
    requires h_nonzero { (0 < h) × (h ≤ 64) }
    requires a_bound { a < 2 ^ h }
    ensures { Row h result (λ s. signed p (on a s)) }
{
    if p { a } else { complement(a, h) }
}

// "and" (p) or "or".
pub fn join_row(p: bool, a: u64, b: u64) -> u64
    ensures { (h : ℕ) → a < 2 ^ h → b < 2 ^ h → Row h result (λ s. join p (on a s) (on b s)) }
{
    if p { a & b } else { a | b }
}

impl Lasso {
    // True at every step.
    pub fn full(self) -> u64
        ensures { Row self.h result (λ s. true) }
    {
        full(self.h)
    }

    // p at every step.
    pub fn constant(self, p: bool) -> u64
        ensures { Row self.h result (λ s. p) }
    {
        constant(p, self.h)
    }

    pub fn complement(self, a: u64) -> u64
        requires a_bound { a < 2 ^ self.h }
        ensures { Row self.h result (λ s. not (on a s)) }
    {
        complement(a, self.h)
    }

    // The row itself (p) or its complement.
    pub fn flagged(self, p: bool, a: u64) -> u64
        requires a_bound { a < 2 ^ self.h }
        ensures { Row self.h result (λ s. signed p (on a s)) }
    {
        flagged(p, a, self.h)
    }

    // What is true a step later, the lap's first step after the last.
    pub fn next_row(self, a: u64) -> u64
        requires a_bound { a < 2 ^ self.h }
        ensures { Row self.h result (λ s. on a (next_step self.h self.l s)) }
    {
        let last = self.h - 1;
        (a >> 1) | (((a >> self.l) % 2) << last)
    }
}
