// Floors: places, lanes, carts, narrow places and groups.
#![tactic(auto)]

mod judging;
mod offsets;
mod reading;
mod walking;
mod writing;

pub use offsets::{cart_at, group_at, lane_at, narrow_at};
pub use reading::{read, verdict_of};
pub use writing::write;

// How many places, lanes, carts, narrow places and groups a floor has. What they are stays in the file's bytes.
#[derive(Clone, Copy, Default)]
pub struct Floor {
    pub places: usize,
    pub lanes: usize,
    pub carts: usize,
    pub narrow: usize,
    pub groups: usize,
}
