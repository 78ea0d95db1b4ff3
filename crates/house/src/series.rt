// A listed series: its terms, and the values supplied for it during the day.
ghost use Rattle.std.specs.Prelude.{◌≡◌};
ghost use Rattle.house.specs.Series.{new_series};

use crate::terms::Terms;

/// A supplied price: the step D finds it, and with the first mark it is the answer.
#[derive(Clone, Copy, PartialEq, Eq, Debug)]
pub struct Ruling {
    /// In points, within the price limit.
    pub value: i64,
    /// Whether the ruling comes before every step of the row.
    pub first: bool,
}

/// A listed series: its terms, and what was supplied for it.
#[derive(Clone, Copy, PartialEq, Eq, Debug)]
pub struct Series {
    /// What was agreed at its listing.
    pub terms: Terms,
    /// The theory value in points, if one stands.
    pub theory: Option<i64>,
    /// The ruling, if one stands.
    pub ruling: Option<Ruling>,
}

impl Series {
    // A series just listed: nothing was supplied yet.
    pub(crate) fn new(terms: Terms) -> Series
        ensures { result ≡ new_series terms }
    {
        Series {
            terms,
            theory: None,
            ruling: None,
        }
    }
}
