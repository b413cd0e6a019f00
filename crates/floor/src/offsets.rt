// Where the records of a floor's lanes, carts, narrow places and groups lie in its file.
ghost use Rattle.std.specs.Prelude.{◌≡◌, ◌^◌, ◌≤◌, ◌<◌, get_or};
ghost use Rattle.floor.specs.Numbers.{lane_at, cart_at, narrow_at, numbers_of};
ghost use Rattle.floor.specs.Promises.{AcceptedFloor};

use crate::Floor;

// The offset of lane j's record.
pub fn lane_at(f: Floor, j: usize) -> usize
    requires { (f.places ≤ 256) × (j ≤ 1024) }
    ensures { result ≡ lane_at f j }
{
    f.places * 8 + j * 7
}

// The offset of cart n's record.
pub fn cart_at(f: Floor, n: usize) -> usize
    requires { (f.places ≤ 256) × (f.lanes ≤ 1024) × (n ≤ 32) }
    ensures { result ≡ cart_at f n }
{
    f.places * 8 + (f.lanes * 7 + n * 6)
}

// The offset of the record of narrow place i.
pub fn narrow_at(f: Floor, i: usize) -> usize
    requires { (f.places ≤ 256) × (f.lanes ≤ 1024) × (f.carts ≤ 32) × (i ≤ 256) }
    ensures { result ≡ narrow_at f i }
{
    f.places * 8 + (f.lanes * 7 + (f.carts * 6 + i * 5))
}

// Group g of an accepted floor: bit n for cart n, and no bit of what is no cart.
pub fn group_at(s: &[u8], f: Floor, g: usize) -> u32
    requires accepted_floor { AcceptedFloor s.now f }
    requires g_lt_groups { g < f.groups }
    ensures value { result ≡ get_or (numbers_of s.now).groups g 0 }
    ensures upper_bound { result < 2 ^ f.carts }
{
    let at = narrow_at(f, f.narrow) + g * 8 + 4;
    endian::number32(s[at], s[at + 1], s[at + 2], s[at + 3])
}
