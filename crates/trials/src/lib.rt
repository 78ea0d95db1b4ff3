// Small cases of ladders and books, worked out by hand from the rules. In a crate of their own, since a crate with tests is
// proved twice.
#![tactic(auto)]

#[cfg(test)]
mod book_cases;
#[cfg(test)]
mod ladder_cases;
