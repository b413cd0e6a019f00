// Single tokens: an operator, a byte that ends a part, `true`, a mark.
ghost use Rattle.std.specs.Prelude.{◌≡◌, [], ◌∷◌, ◌+◌, ◌-◌, ◌*◌, ◌≤◌, ◌<◌, length, drop, IfOk};
ghost use Rattle.grammar.specs.Nodes.{top_n, mark_n};
ghost use Rattle.record.specs.Buffer.{stored};
ghost use Rattle.grammar.specs.Reader.{marks};
ghost use Rattle.token.specs.Block.{kind_byte};
ghost use Rattle.token.specs.Operator.{OperatorAt, Reaches};
ghost use Rattle.token.specs.Leaves.{LeafIs, Expected, ExpectedIfRead, ByteAt, word_got};

use crate::nodes::{put, refused};
use crate::tokens::{number, spaces};
use crate::{Binary, Fault, Kind, Part, ReachAt};

// The offset of an operator behind spaces from `at` on, if it stands there.
pub fn operator_at(s: &[u8], at: usize, c: u8) -> Option<usize>
    ensures { OperatorAt s.now at c result }
{
    let i = spaces(s, at);
    if is_at(s, i, c) { Some(i) } else { None }
}

// `U` or `R` behind spaces from `at` on, if one of them stands there.
pub fn reach_at(s: &[u8], at: usize) -> Option<ReachAt>
    ensures { Reaches s.now at result }
{
    let i = spaces(s, at);
    if is_at(s, i, b'U') {
        return Some(ReachAt {
            at: i,
            operator: Binary::Until,
        });
    }
    if is_at(s, i, b'R') {
        return Some(ReachAt {
            at: i,
            operator: Binary::Release,
        });
    }
    None
}

// A part up to behind the byte that has to follow it. A refused part is handed on.
pub fn expect(s: &[u8], r: Result<Part, Fault>, c: u8) -> Result<Part, Fault>
    requires { IfOk r (λ p. p.at ≤ length s.now) }
    ensures { ExpectedIfRead s.now r c result }
{
    let r = r?;
    expect_read(s, r, c)
}

// The same of a part that was read.
pub(crate) fn expect_read(s: &[u8], r: Part, c: u8) -> Result<Part, Fault>
    requires { r.at ≤ length s.now }
    ensures { Expected s.now r c result }
{
    let i = spaces(s, r.at);
    if !is_at(s, i, c) {
        return Err(refused(13, i));
    }
    Ok(Part { at: i + 1, ..r })
}

pub(crate) fn is_at(s: &[u8], j: usize, c: u8) -> bool
    ensures { ByteAt s.now j c result }
{
    if s.len() <= j {
        return false;
    }
    s[j] == c
}

// A node that stands alone, at the end of its token.
fn alone(nodes: &mut [u8; 512], p: Part, kind: Kind, number: u8) -> Part
    requires { (p.n < 128) × (0 < p.left) }
    ensures value { result ≡ record { at = p.at; left = p.left - 1; n = p.n + 1 } }
    ensures nodes_after { nodes.new ≡ stored nodes.old (4 * p.n) (kind_byte kind ∷ number ∷ 0 ∷ 0 ∷ []) }
{
    let r = Part {
        left: p.left - 1,
        ..p
    };
    put(nodes, r, kind.byte(), number, 0, 0)
}

// `true`, behind its first byte.
pub fn word(s: &[u8], p: Part, nodes: &mut [u8; 512]) -> Result<Part, Fault>
    requires { (p.at < length s.now) × (p.n + p.left ≤ 128) }
    ensures { LeafIs (λ u. top_n) s.now p.n p.left nodes.old result nodes.new (word_got s.now p.left p.at) }
{
    for (k, c) in b"rue".iter().enumerate() {
        let i = p.at + 1 + k;
        if !is_at(s, i, *c) {
            return Err(refused(13, i));
        }
    }
    if p.left == 0 {
        return Err(refused(14, p.at));
    }
    Ok(alone(nodes, Part { at: p.at + 4, ..p }, Kind::Top, 0))
}

// A mark, at its first byte. Its number becomes a byte by `as`: it is at most 31, and `try_from` would bring an error that never comes.
pub fn mark(s: &[u8], p: Part, nodes: &mut [u8; 512]) -> Result<Part, Fault>
    requires { (p.at < length s.now) × (p.n + p.left ≤ 128) }
    ensures { LeafIs mark_n s.now p.n p.left nodes.old result nodes.new (marks p.left (drop p.at s.now)) }
{
    let i = p.at;
    if s[i] != b'm' {
        return Err(refused(13, i));
    }
    let k = number(s, i + 1)?;
    if p.left == 0 {
        return Err(refused(14, i));
    }
    if 31 < k.value {
        return Err(refused(15, i + 1));
    }
    Ok(alone(nodes, Part { at: k.at, ..p }, Kind::Mark, k.value as u8))
}
