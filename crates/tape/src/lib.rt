// The tape: a book that keeps its entries in memory that the caller lends, and goes through them to answer. Nothing here
// allocates.
#![tactic(auto)]

mod scans;
pub mod tapes;
