// Which evidence may set a price: the families of series, the steps, and the row of steps by which a series is settled.
// Nothing here allocates.
#![tactic(auto)]

pub mod choosing;
pub mod families;
pub mod places;
pub mod steps;
pub mod tables;
