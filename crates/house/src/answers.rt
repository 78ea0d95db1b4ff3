// What the house answers to the question for a price.
use rows::steps::Step;

/// A settlement price with the step that found it, the step's place in its row, and the time of the evidence.
#[derive(Clone, Copy, PartialEq, Eq, Debug)]
pub struct Settlement {
    /// In points.
    pub price: i64,
    /// The step that found the price.
    pub step: Step,
    /// The step's place in its row, counted from 1; 0 for a ruling with the first mark.
    pub place: u8,
    /// The stamp of the evidence that decided, in seconds from the midnight that begins the evening session's date. None where the
    /// step has no time: T, U, P, B, D, and C where the reference's answer has none.
    pub time: Option<i32>,
}

/// What a step finds: a price with the time of its evidence.
#[derive(Clone, Copy, PartialEq, Eq, Debug)]
pub struct TimedPrice {
    /// In points.
    pub price: i64,
    /// The stamp of the evidence, if there is one, as in a settlement.
    pub time: Option<i32>,
}
