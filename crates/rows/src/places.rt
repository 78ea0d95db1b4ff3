// A place of a row: a step, and the window that it looks in, where it has one.
ghost use Rattle.std.specs.Prelude.{Some};
ghost use Rattle.rows.specs.Editions.{edition_name};

use crate::steps::Step;
use std::fmt;

/// One place of a row.
#[derive(Clone, Copy, PartialEq, Eq, Debug)]
pub struct Place {
    /// The step that stands there.
    pub step: Step,
    /// The window in which it looks, 1 to 13, if it looks in one.
    pub window: Option<u8>,
}

/// Which of a family's four rows.
#[derive(Clone, Copy, PartialEq, Eq, Debug)]
pub enum Choice {
    /// The row of the close edition.
    Close,
    /// The close on the last trading day.
    LastDay,
    /// The close at the end of a quarter.
    QuarterEnd,
    /// The row of the morning edition.
    Morning,
}

/// The two times of a day at which prices go out.
#[derive(Clone, Copy, PartialEq, Eq, Debug)]
pub enum Edition {
    /// Prices that go out at the close.
    Close,
    /// Prices that go out in the morning.
    Morning,
}

impl fmt::Display for Edition {
    ghost output = { λ e. Some (edition_name e) };

    fn fmt<W: fmt::Write>(&self, f: &mut fmt::Formatter<W>) -> fmt::Result {
        f.write_str(match self {
            Edition::Close => "close",
            Edition::Morning => "morning",
        })
    }
}

/// What is known of a series on the day: whether it is its last day, and the end of a quarter. Both may stand.
#[derive(Clone, Copy, PartialEq, Eq, Debug)]
pub struct Marks {
    /// The series trades for the last time.
    pub last_day: bool,
    /// A quarter ends.
    pub quarter_end: bool,
}
