// The one judge of a move, and the moves of one row, step after step.
ghost use Rattle.std.specs.Prelude.{◌≡◌, ◌<◌, length};
ghost use Rattle.row.specs.Lasso.{next_step};
ghost use Rattle.row.specs.Moves.{is_open, judged_moves, lanes_in};

use crate::MoveFault;
use crate::lanes::Lanes;

// The step that follows: the lap's first behind the last.
#[tactic(auto, unfolding(crate::specs::Lasso::next_step))]
pub fn next_step(steps: usize, stem: usize, s: usize) -> usize
    requires { s < steps }
    ensures { result ≡ next_step steps stem s }
{
    if s + 1 < steps { s + 1 } else { stem }
}

impl<'a> Lanes<'a> {
    // Whether a move is open to a class. A cart may park wherever it is: then no lane is looked at.
    #[tactic(auto, unfolding(crate::specs::Moves::is_open))]
    fn is_open(&self, class: u8, from: u8, to: u8) -> bool
        requires { class < 8 }
        ensures { result ≡ is_open (lanes_in self.now.floor.now) class from to }
    {
        if from == to {
            return true;
        }
        self.some_lane_opens(class, from, to)
    }

    // Judges the moves of a row, the one from its last step to the lap's first included.
    pub fn judge_moves(
        &self,
        class: u8,
        start: u8,
        row: &[u8],
        stem: usize,
    ) -> Result<(), MoveFault>
        requires class_bound { class < 8 }
        requires stem_in_bounds { stem < length row.now }
        ensures { result ≡ judged_moves (lanes_in self.now.floor.now) class start row.now (length row.now) stem }
    {
        if row[0] != start {
            return Err(MoveFault::Elsewhere);
        }
        for i in 0..row.len() {
            let to = row[next_step(row.len(), stem, i)];
            if !self.is_open(class, row[i], to) {
                return Err(MoveFault::Shut(i));
            }
        }
        Ok(())
    }
}
