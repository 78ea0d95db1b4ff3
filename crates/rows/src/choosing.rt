// Which row serves a series.
ghost use Rattle.std.specs.Prelude.{◌≡◌};
ghost use Rattle.rows.specs.Chosen.{ByMarks, chosen, has_last_day_row, has_quarter_end_row, unmarked};
ghost use Rattle.rows.specs.Rows.{row};

use crate::families::Family;
use crate::places::{Choice, Edition, Marks};

// Whether the family has a row of its own in the edition on its last day.
fn has_last_day_row(family: Family, edition: Edition) -> bool
    ensures { result ≡ has_last_day_row family edition }
{
    match edition {
        Edition::Close => matches!(family, Family::DeliveredCommodity | Family::DeliveredGrain),
        Edition::Morning => false,
    }
}

// Whether the family has a row of its own in the edition at the end of a quarter.
fn has_quarter_end_row(family: Family, edition: Edition) -> bool
    ensures { result ≡ has_quarter_end_row family edition }
{
    match edition {
        Edition::Close => matches!(family, Family::FrontIndex | Family::NearOption),
        Edition::Morning => matches!(family, Family::NearOption),
    }
}

// The row of an edition without regard to marks.
fn unmarked(edition: Edition) -> Choice
    ensures { result ≡ unmarked edition }
{
    match edition {
        Edition::Close => Choice::Close,
        Edition::Morning => Choice::Morning,
    }
}

/// Which of the family's four rows settles a series with these marks in the edition.
pub fn choose(family: Family, marks: Marks, edition: Edition) -> Choice
    ensures value { result ≡ chosen family marks edition }
    ensures marks { ByMarks family marks edition (row family result) }
{
    if marks.last_day && has_last_day_row(family, edition) {
        Choice::LastDay
    } else if marks.quarter_end && has_quarter_end_row(family, edition) {
        Choice::QuarterEnd
    } else {
        unmarked(edition)
    }
}
