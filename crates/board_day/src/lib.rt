// One day of settlements on a board, from a reader to a writer. Nothing here allocates.
#![tactic(auto)]

pub mod day;
mod memory;
