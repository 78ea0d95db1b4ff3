// An input of lines, in whatever pieces it comes, and the answers to them.
#![tactic(auto)]

mod pending;
pub mod serving;
pub mod sessions;
mod unsent;
