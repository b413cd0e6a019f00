// The marks of places as words.
ghost use Rattle.std.specs.Prelude.{◌+◌, ◌*◌, ◌≤◌, ◌<◌, ◌≡◌, length};
ghost use Rattle.table.specs.Table.{Stored};
ghost use Rattle.marks.specs.Bears.{marks_of, block_place, OnFloor, Placed};
ghost use Rattle.marks.specs.Tables.{WordAt};
ghost use Rattle.marks.specs.Fours.{Gathered};

// The marks of a place.
pub(crate) fn marks_of(floor: &[u8], place: usize) -> u32
    requires { 8 * place + 8 ≤ length floor.now }
    ensures { result ≡ marks_of floor.now place }
{
    let at = place * 8;
    endian::number32(floor[at + 4], floor[at + 5], floor[at + 6], floor[at + 7])
}

// The place on step s of cart i: conflict has this line too, and marks knows no plan.
fn place_on(block: &[u8; 2048], i: usize, s: usize) -> usize
    requires i_bound { (i < 32) × (s < 64) }
    ensures { result ≡ block_place block.now i s }
{
    usize::from(block[64 * i + s])
}

// The words of cart i's row, from an offset on.
fn gather(floor: &[u8], block: &[u8; 2048], i: usize, h: usize, at: usize, words: &mut [u32; 256])
    requires i_bound { (i < 32) × (h ≤ 64) × (at + 64 ≤ 256) }
    requires on_floor { OnFloor floor.now block.now h i }
    ensures { Stored (WordAt floor.now block.now i) at 0 h words.old words.new }
{
    for s in 0..h {
        words[at + s] = marks_of(floor, place_on(block, i, s));
    }
}

// The words of n carts from cart i on.
pub(crate) fn gather_some(
    floor: &[u8],
    block: &[u8; 2048],
    i: usize,
    n: usize,
    h: usize,
    words: &mut [u32; 256],
)
    requires n_bound { (n ≤ 4) × (i + n ≤ 32) × (h ≤ 64) }
    requires placed { Placed floor.now block.now (i + n) h }
    ensures { Gathered (λ c. WordAt floor.now block.now (i + c)) n h words.old words.new }
{
    for c in 0..n {
        gather(floor, block, i + c, h, c * 64, words);
    }
}
