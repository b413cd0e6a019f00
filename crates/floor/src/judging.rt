// One record of a floor, judged behind those already counted. Its cast by `as` is proved to fit: TryFrom would add an error that never comes.
#![tactic(auto, using(std::proofs::lemmas::Bool::Decides::nat_tests), unfolding(crate::specs::Floor::judged))]

ghost use Rattle.std.specs.Prelude.{◌≡◌, [], ◌∷◌, ◌^◌, ◌≤◌, leb};
ghost use Rattle.floor.specs.Floor.{seen, judged};
ghost use Rattle.floor.specs.Walked.{refused_at};

use crate::Floor;
use refusal::Refusal;

// Whether a record is counted of the kinds behind the places. Joined, one test takes fewer instructions than one each.
fn any_counted(lanes: usize, carts: usize, narrow: usize, groups: usize) -> bool
    ensures { result ≡ seen (lanes ∷ carts ∷ narrow ∷ groups ∷ []) }
{
    (lanes | carts | narrow | groups) != 0
}

// Each kind's judge. An error is document 01's number of the refusal, as `judged` states it.
fn judge_place(f: Floor, body: &[u8]) -> Result<Floor, u32>
    ensures { result ≡ judged f 1 body.now }
{
    if any_counted(f.lanes, f.carts, f.narrow, f.groups) {
        return Err(3);
    }
    if body.len() != 4 {
        return Err(4);
    }
    if 256 <= f.places {
        return Err(5);
    }
    Ok(Floor {
        places: f.places + 1,
        ..f
    })
}

fn judge_lane(f: Floor, body: &[u8]) -> Result<Floor, u32>
    ensures { result ≡ judged f 2 body.now }
{
    if any_counted(0, f.carts, f.narrow, f.groups) {
        return Err(3);
    }
    if body.len() != 3 {
        return Err(4);
    }
    if 1024 <= f.lanes {
        return Err(5);
    }
    if f.places <= usize::from(body[0]) {
        return Err(6);
    }
    if f.places <= usize::from(body[1]) {
        return Err(6);
    }
    Ok(Floor {
        lanes: f.lanes + 1,
        ..f
    })
}

fn judge_cart(f: Floor, body: &[u8]) -> Result<Floor, u32>
    ensures { result ≡ judged f 3 body.now }
{
    if any_counted(0, 0, f.narrow, f.groups) {
        return Err(3);
    }
    if body.len() != 2 {
        return Err(4);
    }
    if 32 <= f.carts {
        return Err(5);
    }
    if 7 < body[0] {
        return Err(6);
    }
    if f.places <= usize::from(body[1]) {
        return Err(6);
    }
    Ok(Floor {
        carts: f.carts + 1,
        ..f
    })
}

fn judge_narrow(f: Floor, body: &[u8]) -> Result<Floor, u32>
    ensures { result ≡ judged f 6 body.now }
{
    if 0 < f.groups {
        return Err(3);
    }
    if body.len() != 1 {
        return Err(4);
    }
    if 256 <= f.narrow {
        return Err(5);
    }
    let place = usize::from(body[0]);
    if f.places <= place {
        return Err(6);
    }
    Ok(Floor {
        narrow: f.narrow + 1,
        ..f
    })
}

// Whether a group's word has a bit of an absent cart.
fn has_absent(word: u32, carts: usize) -> bool
    ensures { result ≡ leb (2 ^ carts) word }
{
    if 32 <= carts {
        return false;
    }
    (1u64 << carts) <= u64::from(word)
}

fn judge_group(f: Floor, body: &[u8]) -> Result<Floor, u32>
    ensures { result ≡ judged f 7 body.now }
{
    if body.len() != 4 {
        return Err(4);
    }
    if 8 <= f.groups {
        return Err(5);
    }
    let word = endian::number32(body[0], body[1], body[2], body[3]);
    if has_absent(word, f.carts) {
        return Err(6);
    }
    Ok(Floor {
        groups: f.groups + 1,
        ..f
    })
}

// Judges a record by its kind and body, behind those already counted. The kind is the file's number: any may stand there.
#[inline(always)]
fn judge(f: Floor, kind: u16, body: &[u8]) -> Result<Floor, u32>
    ensures { result ≡ judged f kind body.now }
{
    match kind {
        1 => judge_place(f, body),
        2 => judge_lane(f, body),
        3 => judge_cart(f, body),
        6 => judge_narrow(f, body),
        7 => judge_group(f, body),
        _ => Err(3),
    }
}

// And refuses it at its offset. Put into the loops that call it: every operation reads a floor, and a call of it would make that half as long again.
#[inline(always)]
pub(crate) fn judge_at(f: Floor, at: usize, kind: u16, body: &[u8]) -> Result<Floor, Refusal>
    requires { at ≤ 65536 }
    ensures { result ≡ refused_at at (judged f kind body.now) }
{
    judge(f, kind, body).map_err(|n| refusal::at_offset(n, at as u32))
}
