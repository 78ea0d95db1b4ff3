// Why the house refuses a call: the number that each refusal is known by, and its text.
ghost use Rattle.std.specs.Prelude.{◌≡◌, Some};
ghost use Rattle.house.specs.Faults.{house_number, house_reason};
ghost use Rattle.house.specs.declared.faults.HouseFault.TheVariants as faults;

use book::faults::BookFault;
use rows::families::NoSuchFamily;
use std::error::Error;
use std::fmt;

/// Why the house refuses a call.
#[derive(Clone, Copy, PartialEq, Eq, Debug)]
pub enum HouseFault {
    /// The phase does not allow the call.
    WrongPhase,
    /// As many series are listed as a house may have.
    SeriesFull,
    /// No series is listed by the number.
    NoSuchSeries,
    /// The terms are not lawful, or name a ladder that the set lacks.
    TermsNotLawful,
    /// A supplied value is beyond the price limit, or a cleared ruling has a first mark.
    SuppliedBeyondLimits,
    /// A trade, auction, leg or quote has a price that is not on the ladder of its series.
    OffLadder,
    /// A spread for a series that does not follow another.
    SpreadNotFollowing,
    /// No step finds a price for the series, for want of one for the origin, whose number this is.
    NoPrice(u8),
    /// What the book refused, or would.
    Book(BookFault),
}

impl HouseFault {
    /// The number that the refusal is known by, 2 to 10.
    // A method, since a From to u8 would not say what the number is.
    pub fn number(self) -> u8
        ensures { result ≡ house_number self }
    {
        match self {
            HouseFault::WrongPhase => 2,
            HouseFault::SeriesFull => 3,
            HouseFault::NoSuchSeries => 4,
            HouseFault::TermsNotLawful => 5,
            HouseFault::SuppliedBeyondLimits => 6,
            HouseFault::OffLadder => 7,
            HouseFault::SpreadNotFollowing => 8,
            HouseFault::NoPrice(_) => 10,
            HouseFault::Book(fault) => fault.number(),
        }
    }
}

impl fmt::Display for HouseFault {
    ghost output = { λ f. Some (house_reason f) };

    fn fmt<W: fmt::Write>(&self, f: &mut fmt::Formatter<W>) -> fmt::Result {
        match *self {
            HouseFault::WrongPhase => write!(f, "the phase does not allow it"),
            HouseFault::SeriesFull => write!(f, "32 series are listed"),
            HouseFault::NoSuchSeries => write!(f, "no such series"),
            HouseFault::TermsNotLawful => write!(f, "the terms are not lawful"),
            HouseFault::SuppliedBeyondLimits => write!(f, "a supplied value is not lawful"),
            HouseFault::OffLadder => write!(f, "a price is not on its ladder"),
            HouseFault::SpreadNotFollowing => write!(f, "a spread for a series outside family 2"),
            HouseFault::NoPrice(origin) => write!(f, "no step finds a price for series {origin}"),
            HouseFault::Book(fault) => write!(f, "{fault}"),
        }
    }
}

impl Error for HouseFault {}

impl From<BookFault> for HouseFault {
    ghost from_gives = { λ f r. r ≡ faults.Book f };

    fn from(refusal: BookFault) -> HouseFault {
        HouseFault::Book(refusal)
    }
}

impl From<NoSuchFamily> for HouseFault {
    ghost from_gives = { λ _ r. r ≡ faults.TermsNotLawful };

    fn from(_refusal: NoSuchFamily) -> Self {
        Self::TermsNotLawful
    }
}
