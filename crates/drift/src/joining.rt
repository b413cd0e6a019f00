// One operator outside counts, with the tables of its operands where ors of counts are joined.
ghost use Rattle.std.specs.Prelude.{◌≡◌, Bool, true, cond, List, [], ℕ, ◌+◌, ◌*◌, ◌<◌, ◌≤◌, ◌^◌, None, Some, IfSome, MatchOption};
ghost use Rattle.grammar.specs.Grammar.{Counted};
ghost use Rattle.cltl.specs.Rules.{both, joint};
ghost use Rattle.mask.specs.Mask.{on, Row};
ghost use Rattle.table.specs.Table.{Kept};
ghost use Rattle.table.specs.Layout.{pairs_at};
ghost use Rattle.drift.specs.declared.Joined.{Joined};
ghost use Rattle.token.specs.declared.Unary.TheVariants.{Not};
ghost use Rattle.drift.specs.Decoded.{unary_of, binary_of, hands_on};
ghost use Rattle.drift.specs.Operator.{is_or, one_rule, two_rule};
ghost use Rattle.drift.specs.Places.{pairs_end, Placed};
ghost use Rattle.drift.specs.Lent.{Lent};
ghost use Rattle.drift.specs.Answer.{rows_on, TableAt, Fits, Gathered};

use crate::counts::{added, together};
use crate::operators::{is_or, one_row, two_row};
use crate::places::{chosen, place_either};
use crate::{Ground, Joined, Judged};
use token::{Binary, Unary};

// "not", "next", F or G. A negation is in its operand's flag already.
pub fn one_judged(o: Unary, p: bool, a: Judged, g: Ground) -> Judged
    requires { a.row < 2 ^ g.lasso.h }
    ensures { (o ≡ Not → result ≡ a) × ((o ≡ Not → ⊥) → Row g.lasso.h result.row (one_rule g.lasso.h g.lasso.l p (unary_of o) (on a.row))
        × (result.joined ≡ None)) }
{
    match o {
        Unary::Not => a,
        _ => Judged {
            row: one_row(o, p, a.row, g.lasso),
            joined: None,
        },
    }
}

// The counts of both sides of an or (p), if they are over the same carts.
fn both_sides(p: bool, first: Option<Joined>, second: Option<Joined>) -> Option<(Joined, Joined)>
    ensures { MatchOption result ((a b : Joined) → p ≡ true → first ≡ Some a → second ≡ Some b → a.who ≡ b.who → ⊥)
        (λ r. (p ≡ true) × (first ≡ Some r.0) × (second ≡ Some r.1) × (r.0.who ≡ r.1.who)) }
{
    let a = first?;
    let b = second?;
    if p && a.who == b.who {
        Some((a, b))
    } else {
        None
    }
}

// "and", "or", U or R of the operand judged first, in the pair of places at an offset, and the one judged second, in the pair behind. Swapped, the one judged
// first is the right one. An and or an or hands its counts on to an or around it.
pub fn two_judged(
    o: Binary,
    p: bool,
    swapped: bool,
    first: Judged,
    second: Judged,
    t: &mut [u32],
    w: &mut [u32; 81],
    bits: &[u32; 41],
    g: Ground,
    at: usize,
) -> Judged
    requires lent { Lent g t.old bits.now }
    requires h_bound { (pairs_at g.marks g.lasso.h ≤ at) × (at + 2 * g.lasso.h ≤ pairs_end g.marks g.lasso.h) }
    requires placed { IfSome first.joined (λ j. Placed g.marks g.lasso.h at j.at) × IfSome second.joined (λ j. TableAt g (at + 2 * g.lasso.h) t.old j) }
    requires row_bound { (first.row < 2 ^ g.lasso.h) × (second.row < 2 ^ g.lasso.h)
        × IfSome first.joined (λ j. Fits g j) × IfSome second.joined (λ j. Fits g j) }
    ensures kept { Kept at t.old t.new × IfSome result.joined (λ j. TableAt g at t.new j) }
    ensures by_index { (bears : ℕ → ℕ → ℕ → Bool) (xs ys : List (Bool × Counted)) → let P = rows_on g.carts g.lasso.h g.lasso.l bears bits.now in
        let zs = cond (is_or (binary_of o) p) (both xs ys) [] in
        Gathered P xs t.old (cond swapped second.joined first.joined) → Gathered P ys t.old (cond swapped first.joined second.joined)
        → Row g.lasso.h result.row (two_rule g.lasso.h g.lasso.l p (binary_of o) (joint P g.drift zs) (on (cond swapped second.row first.row))
        (on (cond swapped first.row second.row))) × Gathered P (cond (hands_on (binary_of o)) zs []) t.new result.joined }
{
    let a = chosen(swapped, second.row, first.row);
    let b = chosen(swapped, first.row, second.row);
    let Some((x, y)) = both_sides(is_or(o, p), first.joined, second.joined) else {
        return Judged {
            row: two_row(o, p, 0, a, b, g.lasso),
            joined: None,
        };
    };
    let to = place_either(x.sign, y.sign, t, x.at, y.at, at, g);
    let slack = added(x.slack, y.slack);
    let z = together(t, to, slack, x.who, w, bits, g);
    let row = two_row(o, p, z, a, b, g.lasso);
    let joined = Joined {
        at: to,
        sign: true,
        slack,
        who: x.who,
    };
    match o {
        Binary::And | Binary::Or => Judged {
            row,
            joined: Some(joined),
        },
        Binary::Until | Binary::Release => Judged { row, joined: None },
    }
}
