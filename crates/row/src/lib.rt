// What one cart's row says, step after step round the lap.
#![tactic(auto)]

mod lanes;
mod moves;

pub use lanes::{Lanes, link};
pub use moves::next_step;

// What is refused of a row's moves: it begins elsewhere than at the start, or the lowest step that is left by a move that is not open.
#[derive(Clone, Copy)]
pub enum MoveFault {
    Elsewhere,
    Shut(usize),
}
