// The board: a book that keeps running figures, one record for each series and window. Nothing here allocates.
#![tactic(auto)]

pub mod boards;
mod tables;
