// The carts of the fleet and of each group, a bit each.
ghost use Rattle.std.specs.Prelude.{◌≡◌, get_or};
ghost use Rattle.floor.specs.Numbers.{numbers_of};
ghost use Rattle.floor.specs.Promises.{AcceptedFloor};
ghost use Rattle.table.specs.Table.{Stored};
ghost use Rattle.marks.specs.Groups.{carts_word};

use floor::Floor;

// The carts of group g; one that the floor lacks has none.
fn group_or_none(floor: &[u8], f: Floor, g: usize) -> u32
    requires { AcceptedFloor floor.now f }
    ensures { result ≡ get_or (numbers_of floor.now).groups g 0 }
{
    if g < f.groups {
        return floor::group_at(floor, f, g);
    }
    0
}

// By the code that nodes have for what a count is over: 0 for the fleet, one more than its number for a group. `carts_word` is by this code.
fn word(floor: &[u8], f: Floor, fleet: u32, o: usize) -> u32
    requires { AcceptedFloor floor.now f }
    ensures { result ≡ carts_word fleet floor.now o }
{
    if o == 0 {
        return fleet;
    }
    group_or_none(floor, f, o - 1)
}

// Puts the word of the fleet and those of eight groups behind the 32 bits of a table: one array for both, since all that take the one take the other.
pub fn fill_groups(floor: &[u8], f: Floor, fleet: u32, words: &mut [u32; 41])
    requires accepted_floor { AcceptedFloor floor.now f }
    ensures { Stored (λ o x. x ≡ carts_word fleet floor.now o) 32 0 9 words.old words.new }
{
    for o in 0..9 {
        words[32 + o] = word(floor, f, fleet, o);
    }
}
