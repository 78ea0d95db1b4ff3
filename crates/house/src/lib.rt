// The settlement house: it lists series, rings the bells, and takes or refuses all that can become evidence. The book that
// keeps the entries is lent to each call, and may be of any make. Nothing here allocates.
#![tactic(auto)]

pub mod answers;
pub mod calls;
pub mod faults;
pub mod houses;
pub mod listed;
mod looking;
pub mod phases;
pub mod questions;
pub mod series;
mod settling;
pub mod terms;
pub mod worked;
