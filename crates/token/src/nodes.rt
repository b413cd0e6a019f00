// Nodes put into the block, four bytes to each. Numbers become bytes by `as`: they fit, and `try_from` would bring an error that never comes.
ghost use Rattle.std.specs.Prelude.{◌≡◌, [], ◌∷◌, ◌<◌, ◌*◌, ◌-◌, IfOk};
ghost use Rattle.record.specs.Buffer.{stored};
ghost use Rattle.token.specs.More.{more_one, WithNodeIfRead};

use crate::{Fault, Part};

// A refusal at an offset. Shorter than the struct's fields at each of the places that refuse.
pub fn refused(number: u32, at: usize) -> Fault
    ensures { result ≡ record { number = number; at = at } }
{
    Fault { number, at }
}

// Puts a node behind those of a part that was read.
pub(crate) fn put(nodes: &mut [u8; 512], r: Part, kind: u8, a: u8, b: u8, c: u8) -> Part
    requires { r.n < 128 }
    ensures value { result ≡ more_one r }
    ensures nodes_after { nodes.new ≡ stored nodes.old (4 * r.n) (kind ∷ a ∷ b ∷ c ∷ []) }
{
    record::copy_at(nodes, 4 * r.n, &[kind, a, b, c]);
    Part { n: r.n + 1, ..r }
}

// An operator, by its byte, over the part just read, whose node is the last. A refused part is handed on.
pub fn with_one(nodes: &mut [u8; 512], r: Result<Part, Fault>, kind: u8) -> Result<Part, Fault>
    requires { IfOk r (λ p. (0 < p.n) × (p.n < 128)) }
    ensures { WithNodeIfRead nodes.old r (λ p. kind ∷ (p.n - 1) ∷ 0 ∷ 0 ∷ []) result nodes.new }
{
    let r = r?;
    let last = (r.n - 1) as u8;
    Ok(put(nodes, r, kind, last, 0, 0))
}

// An operator, by its byte, over an earlier node and the part just read. A refused part is handed on.
pub fn with_two(
    nodes: &mut [u8; 512],
    r: Result<Part, Fault>,
    kind: u8,
    first: usize,
) -> Result<Part, Fault>
    requires { IfOk r (λ p. (0 < p.n) × (p.n < 128)) × (first < 128) }
    ensures { WithNodeIfRead nodes.old r (λ p. kind ∷ first ∷ (p.n - 1) ∷ 0 ∷ []) result nodes.new }
{
    let r = r?;
    let last = (r.n - 1) as u8;
    Ok(put(nodes, r, kind, first as u8, last, 0))
}
