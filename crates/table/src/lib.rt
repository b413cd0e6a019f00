// Tables of truth by step: h words, one a step, with bit i for cart i. The tables of a check lie in one block; a table and those it is made from share no word.
// One block with offsets, since memory is fixed and how many tables a check has is known only when it runs.
#![tactic(auto)]

mod each;
mod ever;
mod until;
mod words;

pub use each::{either_table, join_table, next_table, not_table};
pub use ever::ever_table;
pub use until::until_table;
pub use words::flip;
