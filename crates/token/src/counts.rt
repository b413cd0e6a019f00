// The end of a count: its amount, and its node.
ghost use Rattle.std.specs.Prelude.{◌≡◌, cond, ◌+◌, ◌-◌, ◌≤◌, ◌<◌, length, drop, Ok, IfOk, MatchResult};
ghost use Rattle.grammar.specs.Limits.{most};
ghost use Rattle.grammar.specs.Nodes.{count_n};
ghost use Rattle.grammar.specs.Reader.{limits, group_digit, amounts};
ghost use Rattle.token.specs.Block.{node_bytes, over_number};
ghost use Rattle.token.specs.Leaves.{LimitIs, DigitIs, grouped_got, amount_of, over_of, low_group, AmountIs};
ghost use Rattle.token.specs.More.{WithNode};
ghost use Rattle.token.specs.Counts.{CountEnds};

use crate::leaves::{expect_read, is_at};
use crate::nodes::{put, refused};
use crate::tokens::{number, spaces};
use crate::{Amount, Fault, Kind, Part};

// The highest number of a count, or the highest percentage.
fn highest(percent: bool) -> usize
    ensures { result ≡ most percent }
{
    if percent { 100 } else { 999 }
}

// The offset behind a number, and behind its `%` if there is one.
fn behind(at: usize, percent: bool) -> usize
    requires { at ≤ 16384 }
    ensures { result ≡ cond percent (at + 1) at }
{
    if percent { at + 1 } else { at }
}

// A number with its `%`, at its first digit.
fn limit(s: &[u8], i: usize) -> Result<Amount, Fault>
    requires { (i ≤ length s.now) × (length s.now ≤ 16384) }
    ensures value { LimitIs s.now result (limits 0 (drop i s.now)) }
    ensures inside { MatchResult result (λ k. k.at ≤ length s.now) (λ f. f.at ≤ length s.now) }
{
    let k = number(s, i)?;
    let percent = is_at(s, k.at, b'%');
    if highest(percent) < k.value {
        return Err(refused(15, i));
    }
    Ok(Amount {
        at: behind(k.at, percent),
        value: k.value,
        percent,
        over: None,
    })
}

// The group whose digit stands at an offset.
fn group_digit(s: &[u8], j: usize) -> Option<usize>
    ensures { DigitIs s.now j result (group_digit 0 (drop j s.now)) }
{
    if s.len() <= j {
        return None;
    }
    let b = s[j];
    if b < b'0' || b'7' < b {
        return None;
    }
    Some(usize::from(b - b'0'))
}

// The amount with its group, if one stands behind its number.
fn grouped(s: &[u8], k: Amount) -> Result<Amount, Fault>
    requires { (k.at ≤ length s.now) × (length s.now ≤ 16384) × (k.value ≤ 999) × (k.over ≡ None) }
    ensures value { AmountIs s.now result (grouped_got s.now k) }
    ensures inside { MatchResult result (λ k. k.at ≤ length s.now) (λ f. f.at ≤ length s.now) }
{
    let i = spaces(s, k.at);
    if !is_at(s, i, b'@') {
        return Ok(k);
    }
    match group_digit(s, i + 1) {
        None => Err(refused(13, i + 1)),
        Some(g) => Ok(Amount {
            at: i + 2,
            over: Some(g),
            ..k
        }),
    }
}

// An amount, at its number's first digit.
fn amount(s: &[u8], i: usize) -> Result<Amount, Fault>
    requires { (i ≤ length s.now) × (length s.now ≤ 16384) }
    ensures value { AmountIs s.now result (amounts 0 (drop i s.now)) }
    ensures inside { MatchResult result (λ k. k.at ≤ length s.now) (λ f. f.at ≤ length s.now) }
{
    let k = limit(s, i)?;
    grouped(s, k)
}

// A count's carts in its node: 0 for the whole fleet, 1 + g for group g.
fn carts(over: Option<usize>) -> usize
    requires { low_group over }
    ensures { (result ≡ over_number (over_of over)) × (result ≤ 8) }
{
    match over {
        None => 0,
        Some(g) => g + 1,
    }
}

// A count's node, behind its inner text. By `as`: the bytes fit, and `try_from` would bring an error that never comes.
fn with_count(nodes: &mut [u8; 512], r: Part, k: Amount) -> Part
    requires { (0 < r.n) × (r.n < 128) × (k.value ≤ 999) × low_group k.over }
    ensures { WithNode nodes.old r (node_bytes (count_n (r.n - 1) (amount_of k))) result nodes.new }
{
    let last = (r.n - 1) as u8;
    let low = (k.value % 256) as u8;
    let high = (k.value / 256 + 4 * carts(k.over)) as u8;
    let kind = Kind::Count { percent: k.percent }.byte();
    put(nodes, r, kind, last, low, high)
}

// The end of a count behind its inner text: comma, amount and `]`, and its node. Refused inner text is handed on.
pub fn count_end(s: &[u8], r: Result<Part, Fault>, nodes: &mut [u8; 512]) -> Result<Part, Fault>
    requires { IfOk r (λ p. (p.at ≤ length s.now) × (0 < p.n) × (p.n < 128)) × (length s.now ≤ 16384) }
    ensures { CountEnds s.now r nodes.old result nodes.new }
{
    let r = r?;
    count_end_read(s, r, nodes)
}

// The same of inner text that was read. As one function the two are slower, by 4 % of reading a sheet of counts: 1,020,019 instructions against
// 982,110 for that of bench/inputs/c_counts.
fn count_end_read(s: &[u8], r: Part, nodes: &mut [u8; 512]) -> Result<Part, Fault>
    requires { (r.at ≤ length s.now) × (length s.now ≤ 16384) × (0 < r.n) × (r.n < 128) }
    ensures { CountEnds s.now (Ok r) nodes.old result nodes.new }
{
    let p = expect_read(s, r, b',')?;
    let i = spaces(s, p.at);
    let k = amount(s, i)?;
    let q = expect_read(s, Part { at: k.at, ..p }, b']')?;
    Ok(with_count(nodes, q, k))
}
