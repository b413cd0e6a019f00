// Four carts' words turned, so that one mark's four bits stand side by side: bits in turn by twos, then twos by fours.
ghost use Rattle.std.specs.Prelude.{◌+◌, ◌≤◌, ◌<◌, cond};
ghost use Rattle.mask.specs.Mask.{on};
ghost use Rattle.table.specs.Table.{Word};
ghost use Rattle.marks.specs.Fours.{Fours, Packed};

// Each bit out of x where m has one, and out of y elsewhere.
fn choose(m: u32, x: u32, y: u32) -> u32
    ensures { Word (λ j. cond (on m j) (on x j) (on y j)) result }
{
    (x & m) | (y ^ (y & m))
}

// The even bits of a, and those of b above them. `lower` is this with another mask and shift, as `upper` is `odds`: one function with both as parameters would
// state its four bits by cases.
fn evens(a: u32, b: u32) -> u32
    ensures { Fours (λ j. on a j) (λ j. on b j) (λ j. on a (j + 2)) (λ j. on b (j + 2)) result }
{
    choose(0x5555_5555, a, b << 1)
}

// The odd bits of b, and those of a below them.
fn odds(a: u32, b: u32) -> u32
    ensures { Fours (λ j. on a (j + 1)) (λ j. on b (j + 1)) (λ j. on a (j + 3)) (λ j. on b (j + 3)) result }
{
    choose(0x5555_5555, a >> 1, b)
}

// The lower two of each four bits of a, and those of b above them.
fn lower(a: u32, b: u32) -> u32
    ensures { Fours (λ j. on a j) (λ j. on a (j + 1)) (λ j. on b j) (λ j. on b (j + 1)) result }
{
    choose(0x3333_3333, a, b << 2)
}

// The upper two of each four bits of b, and those of a below them.
fn upper(a: u32, b: u32) -> u32
    ensures { Fours (λ j. on a (j + 2)) (λ j. on a (j + 3)) (λ j. on b (j + 2)) (λ j. on b (j + 3)) result }
{
    choose(0x3333_3333, a >> 2, b)
}

// Turns the words of step s. The words of the four carts lie 64 apart in one array, as `Packed` and `Gathered` have them.
fn turn(words: &mut [u32; 256], s: usize)
    requires s_bound { s < 64 }
    ensures { Packed s (s + 1) words.old words.new }
{
    let a = words[s];
    let b = words[64 + s];
    let c = words[128 + s];
    let d = words[192 + s];
    let even = evens(a, b);
    let odd = odds(a, b);
    let even_later = evens(c, d);
    let odd_later = odds(c, d);
    words[s] = lower(even, even_later);
    words[64 + s] = lower(odd, odd_later);
    words[128 + s] = upper(even, even_later);
    words[192 + s] = upper(odd, odd_later);
}

// Turns the words of all steps.
pub(crate) fn pack(h: usize, words: &mut [u32; 256])
    requires h_bound { h ≤ 64 }
    ensures { Packed 0 h words.old words.new }
{
    for s in 0..h {
        turn(words, s);
    }
}
