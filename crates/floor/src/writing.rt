// Writing a floor. Casts by `as` are from wider to narrower, proved to fit: TryFrom would add an error that never comes.
ghost use Rattle.std.specs.Prelude.{◌≡◌, ◌+◌, ◌≤◌, ◌<◌, length, MatchOption};
ghost use Rattle.refusal.specs.Outcome.{written, Gives};
ghost use Rattle.refusal.specs.Results.{wrote};
ghost use Rattle.refusal.specs.declared.Verdict.TheVariants.{Floor as AboutFloor};
ghost use Rattle.record.specs.Record.{layout};
ghost use Rattle.record.specs.Buffer.{stored};
ghost use Rattle.floor.specs.Floor.{read_floor};
ghost use Rattle.floor.specs.Promises.{FloorWritten};
ghost use Rattle.floor.specs.Lent.{lent};
ghost use Rattle.floor.specs.Numbers.{floor_bytes, numbers, word_records};

use crate::Floor;
use crate::reading::at_end;
use crate::walking::{walk_parts, walk_words};
use refusal::{Refusal, Refused};

// A floor's numbers as they are lent: the marks of each place; from, to and classes of each lane; class and start of each cart; the narrow places; the carts of
// each group.
#[derive(Clone, Copy)]
struct Numbers<'a> {
    places: &'a [u32],
    lanes: &'a [u8],
    carts: &'a [u8],
    narrow: &'a [u8],
    groups: &'a [u32],
}

// The length of a floor laid out, unless it is longer than a file may be.
fn laid_size(n: Numbers) -> Option<usize>
    ensures { MatchOption result (65536 < length (floor_bytes (lent n.entry)))
        (λ k. (k ≡ length (floor_bytes (lent n.entry))) × (k ≤ 65536)) }
{
    let places = n.places.len();
    let lanes = n.lanes.len();
    let carts = n.carts.len();
    let narrow = n.narrow.len();
    let groups = n.groups.len();
    if 65536 < places.max(lanes).max(carts).max(narrow).max(groups) {
        return None;
    }
    let size = places * 8
        + (lanes
            + lanes.div_ceil(3) * 4
            + (carts + carts.div_ceil(2) * 4 + (narrow * 5 + groups * 8)));
    if 65536 < size {
        return None;
    }
    Some(size)
}

// Judges a floor's numbers as reading their records would.
fn judge_numbers(n: Numbers) -> Result<Floor, Refusal>
    ensures { result ≡ read_floor (floor_bytes (lent n.entry)) }
{
    let Some(_) = laid_size(n) else {
        return Err(refusal::at_offset(1, 0));
    };
    let (f, lanes_at) = walk_words(Floor::default(), 0, 1, n.places)?;
    let (f, carts_at) = walk_parts(f, lanes_at, 2, 3, n.lanes)?;
    let (f, narrow_at) = walk_parts(f, carts_at, 3, 2, n.carts)?;
    let (f, groups_at) = walk_parts(f, narrow_at, 6, 1, n.narrow)?;
    let (f, end) = walk_words(f, groups_at, 7, n.groups)?;
    at_end(f, end)
}

// Writes a floor's numbers as a file, or refuses them as reading that file would. Gives how many bytes it wrote. Six parameters kept: of slices in a struct no
// proof knows yet that their numbers are below 2^32, which `reads_back` of `FloorWritten` needs.
pub fn write(
    places: &[u32],
    lanes: &[u8],
    carts: &[u8],
    narrow: &[u8],
    groups: &[u32],
    out: &mut [u8],
) -> Result<u32, Refused>
    ensures { FloorWritten (numbers places.now lanes.now carts.now narrow.now groups.now)
        out.old (wrote result) out.new }
{
    let n = Numbers {
        places,
        lanes,
        carts,
        narrow,
        groups,
    };
    judge_numbers(n).map_err(Refused::Floor)?;
    put_numbers(n, out)
}

// Writes a floor's numbers that reading would accept, if there is room.
fn put_numbers(n: Numbers, out: &mut [u8]) -> Result<u32, Refused>
    requires { length (floor_bytes (lent n)) ≤ 65536 }
    ensures { Gives (written AboutFloor (floor_bytes (lent n.entry)) out.old) (wrote result) out.new }
{
    // It has one: `requires` says that it is no longer than a file may be.
    let size = laid_size(n).unwrap();
    if out.len() < size {
        return Err(Refused::Floor(refusal::refuse(18, size as u32, 0)));
    }
    let lanes_at = put_words(out, 0, 1, n.places);
    let carts_at = record::put_parts(out, lanes_at, 2, 3, n.lanes);
    let narrow_at = record::put_parts(out, carts_at, 3, 2, n.carts);
    let groups_at = record::put_parts(out, narrow_at, 6, 1, n.narrow);
    put_words(out, groups_at, 7, n.groups);
    Ok(size as u32)
}

// Writes lent 32-bit numbers as records of one kind, four bytes to a body, from an offset on, and returns where they end. Every other byte stays.
// Kept beside `record::put_parts`: words make their bodies and parts lend them (walking.rt).
fn put_words(out: &mut [u8], at: usize, kind: u16, words: &[u32]) -> usize
    requires { at + length (layout (word_records kind words.now)) ≤ length out.old }
    ensures value { result ≡ at + length (layout (word_records kind words.now)) }
    ensures out_after { out.new ≡ stored out.old at (layout (word_records kind words.now)) }
{
    let mut next = at;
    for word in words {
        record::put(out, next, kind, &endian::bytes32(*word));
        next += 8;
    }
    next
}
