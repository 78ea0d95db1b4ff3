//! A second settlement of a day, to be held against the first. It is written from the rules alone, and it settles by other
//! means: every entry taken is kept in a list, and a price is found in that list when it is asked for.
#![tactic(auto)]

mod evidence;
mod fields;
mod fractions;
mod grammar;
mod houses;
mod refusals;
mod rows;
pub mod seconds;
mod settling;
mod terms;
