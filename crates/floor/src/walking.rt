// Judging records of one kind where they would be laid out from an offset on. Kept as two, as is their putting: words make their bodies and parts lend them, and
// one function over both would take a trait of its own and a contract on the steps of any iterator.
ghost use Rattle.std.specs.Prelude.{◌≡◌, map, ◌+◌, ◌≤◌, ◌<◌, length};
ghost use Rattle.record.specs.Record.{layout};
ghost use Rattle.record.specs.Parts.{parts, of_kind, laid};
ghost use Rattle.floor.specs.Floor.{walk};
ghost use Rattle.floor.specs.Numbers.{word_records};

use crate::Floor;
use crate::judging::judge_at;
use refusal::Refusal;

// Lent 32-bit numbers, four bytes to a body.
pub(crate) fn walk_words(
    f: Floor,
    at: usize,
    kind: u16,
    words: &[u32],
) -> Result<(Floor, usize), Refusal>
    requires { at + length (layout (word_records kind words.now)) ≤ 65536 }
    ensures { result ≡ walk f at (word_records kind words.now) }
{
    let mut g = f;
    let mut next = at;
    for word in words {
        g = judge_at(g, next, kind, &endian::bytes32(*word))?;
        next += 8;
    }
    Ok((g, next))
}

// Lent bytes, so many to a body.
pub(crate) fn walk_parts(
    f: Floor,
    at: usize,
    kind: u16,
    size: usize,
    bodies: &[u8],
) -> Result<(Floor, usize), Refusal>
    requires { (0 < size) × (at + length (laid kind size bodies.now) ≤ 65536) }
    ensures { result ≡ walk f at (map (of_kind kind) (parts size bodies.now)) }
{
    let mut g = f;
    let mut next = at;
    for body in bodies.chunks(size) {
        g = judge_at(g, next, kind, body)?;
        next += 4 + body.len();
    }
    Ok((g, next))
}
