// Plans: a head and a row of places for each cart.
#![tactic(auto)]

mod heads;
mod reading;
mod rows;
mod writing;

use floor::Floor;
pub use reading::read;
pub use rows::{judge_row, row_at};
pub use writing::{put_numbers, write};

// Document 01's h, l and d: the steps, those of the run-in (the lap begins at step `stem`), and the drift.
#[derive(Clone, Copy)]
pub struct Head {
    pub steps: usize,
    pub stem: usize,
    pub drift: usize,
}

// What is wrong with a row's body: its length, or, on the lowest such step, a place that is not on the floor.
#[derive(Clone, Copy)]
pub enum RowFault {
    WrongLength,
    Absent(usize),
}

// An accepted plan: cart n's row begins at byte 64 n of the block, which is fixed memory.
#[derive(Clone, Copy)]
pub struct Plan {
    pub head: Head,
    pub carts: usize,
    pub block: [u8; 2048],
}

// What reading a plan gives: the floor and the plan.
#[derive(Clone, Copy)]
pub struct PlanRead {
    pub floor: Floor,
    pub plan: Plan,
}
