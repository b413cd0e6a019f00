// The rule sheet: its bytes read into nodes.
#![tactic(auto)]

mod parts;
mod reading;

pub use reading::{read, read_clause};
