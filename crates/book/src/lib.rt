// A book of one trading day: what it takes, what it answers, and what that means. Nothing here allocates.
#![tactic(auto)]

pub mod books;
pub mod days;
pub mod entries;
pub mod faults;
pub mod figures;
pub mod lawful;
pub mod takings;
pub mod windows;
