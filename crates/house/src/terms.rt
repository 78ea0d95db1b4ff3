// What is agreed of a series when it is listed.
ghost use Rattle.std.specs.Prelude.{◌≡◌, ◌&&◌, if◌then◌else◌, Some, None, Ok, Err, unsigned_abs};
ghost use Rattle.book.specs.Entries.{side_lawful};
ghost use Rattle.house.specs.Terms.{checked, follows, is_under, lawful_reference, lawful_spread, may_refer, must_refer, natural_if};
ghost use Rattle.house.specs.declared.faults.HouseFault.TheVariants.{TermsNotLawful};

use crate::faults::HouseFault;
use book::entries::{is_side, is_spread};
use rows::families::Family;
use rows::places::Marks;

/// The terms as they come in: numbers that nobody checked yet.
#[derive(Clone, Copy, PartialEq, Eq, Debug)]
pub struct Listing {
    /// The number of the family, 1 to 15.
    pub family: i64,
    /// The number of the ladder in the house's set, from 0 on.
    pub ladder: i64,
    /// The series that this one follows or copies.
    pub reference: Option<i64>,
    /// The previous day's settlement price, in points.
    pub previous_settlement: Option<i64>,
    /// The previous spread to the reference, in points.
    pub previous_spread: Option<i64>,
    /// Whether the day is the last trading day of the series, and the end of a quarter.
    pub marks: Marks,
}

/// The terms of a listed series. Raw and checked terms are two types, so that what is checked need not be checked again.
#[derive(Clone, Copy, PartialEq, Eq, Debug)]
pub struct Terms {
    /// By which row the series is settled.
    pub family: Family,
    /// The number of its ladder in the house's set.
    pub ladder: u8,
    /// The number of the series that it follows or copies, an earlier one.
    pub reference: Option<u8>,
    /// The previous settlement price in points, if there is one.
    pub previous_settlement: Option<i64>,
    /// The previous spread in points, if there is one.
    pub previous_spread: Option<i64>,
    /// Whether the day is the last trading day of the series, and the end of a quarter.
    pub marks: Marks,
}

// Families that follow or copy another series need its number; one more may have it.
fn must_refer(family: Family) -> bool
    ensures { result ≡ must_refer family }
{
    matches!(
        family,
        Family::FollowingBond | Family::MiniBond | Family::CopiedIndex
    )
}

fn may_refer(family: Family) -> bool
    ensures { result ≡ may_refer family }
{
    must_refer(family) || family == Family::DeliveredGrain
}

// Whether a series of the family follows its reference by a spread.
pub(crate) fn follows(family: Family) -> bool
    ensures { result ≡ follows family }
{
    family == Family::FollowingBond
}

// A number in 8 bits, if it is one of so many that are numbered from 0.
pub(crate) fn number_under(v: i64, count: u8) -> Option<u8>
    ensures { result ≡ (if is_under count v then Some (unsigned_abs v) else None) }
{
    u8::try_from(v).ok().filter(|n| *n < count)
}

// The reference of the series numbered n, which must be an earlier series, where the family needs or has one.
fn checked_reference(
    family: Family,
    n: u8,
    reference: Option<i64>,
) -> Result<Option<u8>, HouseFault>
    ensures { result ≡ (if lawful_reference family n reference then Ok (natural_if reference) else Err TermsNotLawful) }
{
    match reference {
        Some(r) if may_refer(family) => {
            let earlier = number_under(r, n).ok_or(HouseFault::TermsNotLawful)?;
            Ok(Some(earlier))
        }
        None if !must_refer(family) => Ok(None),
        _ => Err(HouseFault::TermsNotLawful),
    }
}

fn is_lawful_spread(family: Family, spread: Option<i64>) -> bool
    ensures { result ≡ lawful_spread family spread }
{
    spread.is_none_or(|v| follows(family) && is_spread(v))
}

impl Listing {
    // Whether a series of the family may have the previous settlement and the previous spread.
    fn has_lawful_previous(&self, family: Family) -> bool
        ensures { result ≡ (side_lawful self.now.previous_settlement && lawful_spread family self.now.previous_spread) }
    {
        is_side(self.previous_settlement) && is_lawful_spread(family, self.previous_spread)
    }

    // The terms of the series numbered n, over a set of so many ladders, if they are lawful as a whole.
    pub(crate) fn checked(&self, n: u8, ladders: u8) -> Result<Terms, HouseFault>
        ensures { result ≡ checked n ladders self.now }
    {
        let family = Family::try_from(self.family)?;
        let ladder = number_under(self.ladder, ladders).ok_or(HouseFault::TermsNotLawful)?;
        let reference = checked_reference(family, n, self.reference)?;
        if !self.has_lawful_previous(family) {
            return Err(HouseFault::TermsNotLawful);
        }
        Ok(Terms {
            family,
            ladder,
            reference,
            previous_settlement: self.previous_settlement,
            previous_spread: self.previous_spread,
            marks: self.marks,
        })
    }
}
