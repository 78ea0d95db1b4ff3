// A desk: lines come in, and answers go out.
#![tactic(auto)]

pub mod desks;
