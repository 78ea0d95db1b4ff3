// Small cases of lines and of answers, and of errors of the writer and the reader, worked out by hand from the rules. In a crate of
// their own, since a crate with tests is proved twice.
#![tactic(auto)]

#[cfg(test)]
mod answer_cases;
#[cfg(test)]
mod error_cases;
#[cfg(test)]
mod line_cases;
