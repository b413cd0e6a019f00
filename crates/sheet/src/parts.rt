// The four levels of a clause, which call each other in a cycle: an or-chain over and-chains over until-chains over smallest
// parts. The levels still allowed fall at each call that goes further in. Of what these five functions are given only the text is
// the same at every call, so a struct of it would be no plainer. What may follow an operator (one byte on, one node less) is
// written out at each: a function for it would hide from the proofs the fields that they compute with.
ghost use Rattle.std.specs.Prelude.{◌≡◌, ◌+◌, ◌≤◌, ◌<◌, length};
ghost use Rattle.grammar.specs.Grammar.{small, untils, ands, ors};
ghost use Rattle.sheet.specs.Ranks.{Reads, LeafReads};
ghost use Rattle.sheet.specs.Small.{prefix_kind};

use token::{
    Binary, Fault, Kind, Part, Unary, count_end, expect, mark, operator_at, reach_at, refused,
    spaces, with_one, with_two, word,
};

// A prefix operator, by its byte.
#[tactic(auto, unfolding(crate::specs::Small::prefix_kind))]
fn prefix_kind(b: u8) -> Option<Unary>
    ensures { result ≡ prefix_kind b }
{
    match b {
        b'!' => Some(Unary::Not),
        b'X' => Some(Unary::Next),
        b'F' => Some(Unary::Finally),
        b'G' => Some(Unary::Globally),
        _ => None,
    }
}

// A smallest part: `true`, a part in parentheses, a prefix operator before a smallest part, a mark in inner text, or a count.
#[cycle(and_part_leaf_part_or_part_small_part_until_part)]
fn small_part(
    s: &[u8],
    p: Part,
    level: usize,
    inner: bool,
    nodes: &mut [u8; 512],
) -> Result<Part, Fault>
    requires { (p.at ≤ length s.now) × (length s.now ≤ 16384) × (p.n + p.left ≤ 128) }
    ensures { Reads inner small level s.now p.at p.n p.left nodes.old result nodes.new }
{
    let i = spaces(s, p.at);
    if s.len() <= i {
        return Err(refused(13, i));
    }
    let b = s[i];
    if b == b't' {
        return word(s, Part { at: i, ..p }, nodes);
    }
    if b == b'(' {
        if level == 0 {
            return Err(refused(14, i));
        }
        let r = or_part(s, Part { at: i + 1, ..p }, level - 1, inner, nodes);
        return expect(s, r, b')');
    }
    match prefix_kind(b) {
        None => leaf_part(s, Part { at: i, ..p }, level, inner, nodes),
        Some(o) => {
            if level == 0 || p.left == 0 {
                return Err(refused(14, i));
            }
            let operand = Part {
                at: i + 1,
                left: p.left - 1,
                ..p
            };
            let q = small_part(s, operand, level - 1, inner, nodes);
            with_one(nodes, q, Kind::Unary(o).byte())
        }
    }
}

// A leaf at its first byte: a mark in inner text, and a count in a clause.
#[cycle(and_part_leaf_part_or_part_small_part_until_part)]
fn leaf_part(
    s: &[u8],
    p: Part,
    level: usize,
    inner: bool,
    nodes: &mut [u8; 512],
) -> Result<Part, Fault>
    requires { (p.at < length s.now) × (length s.now ≤ 16384) × (p.n + p.left ≤ 128) }
    ensures { LeafReads inner level s.now p.at p.n p.left nodes.old result nodes.new }
{
    if inner {
        return mark(s, p, nodes);
    }
    let i = p.at;
    if s[i] != b'[' {
        return Err(refused(13, i));
    }
    if level == 0 || p.left == 0 {
        return Err(refused(14, i));
    }
    let text = Part {
        at: i + 1,
        left: p.left - 1,
        ..p
    };
    let r = or_part(s, text, level - 1, true, nodes);
    count_end(s, r, nodes)
}

// An until-chain: a smallest part, and `U` or `R` with the rest of the chain, to the right.
#[cycle(and_part_leaf_part_or_part_small_part_until_part)]
fn until_part(
    s: &[u8],
    p: Part,
    level: usize,
    inner: bool,
    nodes: &mut [u8; 512],
) -> Result<Part, Fault>
    requires { (p.at ≤ length s.now) × (length s.now ≤ 16384) × (p.n + p.left ≤ 128) }
    ensures { Reads inner untils level s.now p.at p.n p.left nodes.old result nodes.new }
{
    let r = small_part(s, p, level, inner, nodes)?;
    match reach_at(s, r.at) {
        None => Ok(r),
        Some(k) => {
            if level == 0 || r.left == 0 {
                return Err(refused(14, k.at));
            }
            let rest = Part {
                at: k.at + 1,
                left: r.left - 1,
                ..r
            };
            let q = until_part(s, rest, level - 1, inner, nodes);
            with_two(nodes, q, Kind::Binary(k.operator).byte(), r.n - 1)
        }
    }
}

// An and-chain: until-chains joined by `&`, to the left. One function for this and the or-chain, told what joins it, was proved
// and is slower by 6 %: 718,581 instructions against 678,864 for bench/inputs/c.
#[cycle(and_part_leaf_part_or_part_small_part_until_part)]
fn and_part(
    s: &[u8],
    p: Part,
    level: usize,
    inner: bool,
    nodes: &mut [u8; 512],
) -> Result<Part, Fault>
    requires { (p.at ≤ length s.now) × (length s.now ≤ 16384) × (p.n + p.left ≤ 128) }
    ensures { Reads inner ands level s.now p.at p.n p.left nodes.old result nodes.new }
{
    let mut r = until_part(s, p, level, inner, nodes)?;
    while let Some(i) = operator_at(s, r.at, b'&') {
        if r.left == 0 {
            return Err(refused(14, i));
        }
        let next = Part {
            at: i + 1,
            left: r.left - 1,
            ..r
        };
        let q = until_part(s, next, level, inner, nodes);
        r = with_two(nodes, q, Kind::Binary(Binary::And).byte(), r.n - 1)?;
    }
    Ok(r)
}

// An or-chain: and-chains joined by `|`, to the left.
#[cycle(and_part_leaf_part_or_part_small_part_until_part)]
pub(crate) fn or_part(
    s: &[u8],
    p: Part,
    level: usize,
    inner: bool,
    nodes: &mut [u8; 512],
) -> Result<Part, Fault>
    requires { (p.at ≤ length s.now) × (length s.now ≤ 16384) × (p.n + p.left ≤ 128) }
    ensures { Reads inner ors level s.now p.at p.n p.left nodes.old result nodes.new }
{
    let mut r = and_part(s, p, level, inner, nodes)?;
    while let Some(i) = operator_at(s, r.at, b'|') {
        if r.left == 0 {
            return Err(refused(14, i));
        }
        let next = Part {
            at: i + 1,
            left: r.left - 1,
            ..r
        };
        let q = and_part(s, next, level, inner, nodes);
        r = with_two(nodes, q, Kind::Binary(Binary::Or).byte(), r.n - 1)?;
    }
    Ok(r)
}
