// The calls of a house as values, and one call made on a house and its book. Nothing here allocates.
#![tactic(auto)]

pub mod call;
pub mod performing;
