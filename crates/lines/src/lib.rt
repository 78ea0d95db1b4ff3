// Lines of text: calls as they are written, and the reader of them.
#![tactic(auto)]

mod classes;
pub mod faults;
pub mod line_calls;
mod names;
mod numerals;
pub mod parsing;
mod readers;
mod scans;
mod tuples;
mod values;
mod words;
