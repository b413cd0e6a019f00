// Moving a plan on, and replacing a row.
#![tactic(auto)]

mod moving;
mod replacing;

pub use moving::move_on;
pub use replacing::replace_row;
