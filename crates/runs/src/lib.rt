// Runs of calls on a house and its book, and two runs compared.
#![tactic(auto)]

pub mod comparing;
pub mod running;
