// Lanes by the place that they leave.
ghost use Rattle.std.specs.Prelude.{◌≡◌, ◌&&◌, ◌≤◌, ◌<◌, eqb, length, drop, replicate};
ghost use Rattle.floor.specs.Promises.{AcceptedFloor};
ghost use Rattle.row.specs.Moves.{bit, lanes_in, some_lane_opens};
ghost use Rattle.row.specs.Chain.{Chained};

use floor::Floor;

// The lanes of an accepted floor, linked by the place that they leave. A link is 0, or one more than a lane's number:
// tables of numbers, since memory is fixed, and `Chained` and what `link` promises are of such links.
#[derive(Clone, Copy)]
pub struct Lanes<'a> {
    pub floor: &'a [u8],
    pub counts: Floor,
    pub first: &'a [u16; 256],
    pub next: &'a [u16],
    pub ghost accepted_floor: { AcceptedFloor floor.now counts },
    pub ghost chained: { ∥ Chained (lanes_in floor.now) first.now next.now 0 ∥₁ },
    pub ghost lanes_in_bounds: { counts.lanes ≤ length next.now },
}

// Links the lanes of an accepted floor, the last lane first. next has a link for each lane. Its cast by `as` is proved to fit: TryFrom would add an error
// that never comes.
pub fn link(s: &[u8], f: Floor, first: &mut [u16; 256], next: &mut [u16])
    requires accepted_floor { AcceptedFloor s.now f }
    requires first_value { first.old ≡ replicate 256 0 }
    requires lanes_in_bounds { f.lanes ≤ length next.old }
    ensures chained { Chained (lanes_in s.now) first.new next.new 0 }
    ensures next_len_unchanged { length next.new ≡ length next.old }
    ensures next_unchanged { drop f.lanes next.new ≡ drop f.lanes next.old }
{
    for j in (0..f.lanes).rev() {
        let at = floor::lane_at(f, j);
        let from = usize::from(s[at + 4]);
        next[j] = first[from];
        first[from] = (j + 1) as u16;
    }
}

// Whether a lane to this place, open to these classes, opens a move there to a class.
fn opens_to(target: u8, classes: u8, class: u8, to: u8) -> bool
    requires { class < 8 }
    ensures { result ≡ eqb target to && bit class classes }
{
    target == to && (classes >> class) & 1 == 1
}

impl<'a> Lanes<'a> {
    // Whether some lane opens a move to a class: those that leave its place are looked at, in the file's order.
    pub(crate) fn some_lane_opens(&self, class: u8, from: u8, to: u8) -> bool
        requires { class < 8 }
        ensures { result ≡ some_lane_opens (lanes_in self.now.floor.now) class from to }
    {
        let s = self.floor;
        let mut k = usize::from(self.first[usize::from(from)]);
        // along the links, which no range does
        while k != 0 {
            let at = floor::lane_at(self.counts, k - 1) + 4;
            if opens_to(s[at + 1], s[at + 2], class, to) {
                return true;
            }
            k = usize::from(self.next[k - 1]);
        }
        false
    }
}
