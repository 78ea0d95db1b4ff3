// What a line of input is answered, in bytes.
#![tactic(auto)]

pub mod faults;
pub mod writing;
