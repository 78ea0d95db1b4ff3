// Ladders of lawful prices, and rounding to them. Nothing here allocates.
#![tactic(auto)]

pub mod bands;
pub mod describing;
pub mod faults;
pub mod laws;
pub mod limits;
pub mod rounding;
pub mod rungs;
pub mod sets;
pub mod stepping;
pub mod ticks;
