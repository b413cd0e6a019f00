// One operator on the rows of its operands.
ghost use Rattle.std.specs.Prelude.{◌≡◌, ◌<◌, ◌^◌};
ghost use Rattle.cltl.specs.Rules.{fix};
ghost use Rattle.mask.specs.Mask.{on, Row};
ghost use Rattle.drift.specs.Decoded.{unary_of, binary_of};
ghost use Rattle.drift.specs.Operator.{under as under_of, is_or, one_rule, two_rule};

use mask::Lasso;
use token::{Binary, Unary};

// The flag of an operator's first operand.
pub fn under(o: Unary, p: bool) -> bool
    ensures { result ≡ under_of (unary_of o) p }
{
    match o {
        Unary::Not => !p,
        _ => p,
    }
}

// F, or a negated G, where p: true at a step from each on; else true at all steps from each on.
fn ever_row(p: bool, a: u64, lasso: Lasso) -> u64
    requires { a < 2 ^ lasso.h }
    ensures { Row lasso.h result (λ s. fix lasso.h lasso.l p (λ s. p) (on a) lasso.h s) }
{
    lasso.fix_row(p, lasso.constant(p), a)
}

// "not", "next", F or G.
pub fn one_row(o: Unary, p: bool, a: u64, lasso: Lasso) -> u64
    requires { a < 2 ^ lasso.h }
    ensures { Row lasso.h result (one_rule lasso.h lasso.l p (unary_of o) (on a)) }
{
    match o {
        Unary::Not => a,
        Unary::Next => lasso.next_row(a),
        Unary::Finally => ever_row(p, a, lasso),
        Unary::Globally => ever_row(!p, a, lasso),
    }
}

// Whether an operator is an or, or asks for one: a | b and a U b, or under a negation a & b and a R b.
pub fn is_or(o: Binary, p: bool) -> bool
    ensures { result ≡ is_or (binary_of o) p }
{
    match o {
        Binary::Or | Binary::Until => p,
        Binary::And | Binary::Release => !p,
    }
}

// "and", "or", U or R; z is where the or of the operands is also true.
pub fn two_row(o: Binary, p: bool, z: u64, a: u64, b: u64, lasso: Lasso) -> u64
    requires { (z < 2 ^ lasso.h) × (a < 2 ^ lasso.h) × (b < 2 ^ lasso.h) }
    ensures { Row lasso.h result (two_rule lasso.h lasso.l p (binary_of o) (on z) (on a) (on b)) }
{
    match o {
        Binary::And => z | mask::join_row(p, a, b),
        Binary::Or => z | mask::join_row(!p, a, b),
        Binary::Until => lasso.fix_row(p, z | a, b),
        Binary::Release => lasso.fix_row(!p, z | a, b),
    }
}
