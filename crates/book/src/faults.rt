// Why a day record or an entry is refused: the number that each refusal is known by, and its text.
ghost use Rattle.std.specs.Prelude.{◌≡◌, Some};
ghost use Rattle.book.specs.Faults.{book_number, book_reason, day_number, day_reason};

use std::error::Error;
use std::fmt;

/// Why a day record is refused.
#[derive(Clone, Copy, PartialEq, Eq, Debug)]
pub enum DayFault {
    /// The five stamps are not in their order, or lie outside their dates.
    NotLawful,
}

/// Why a book refuses an entry.
#[derive(Clone, Copy, PartialEq, Eq, Debug)]
pub enum BookFault {
    /// A number beyond its limits, a crossed quote, or a series outside 0 to 31.
    BeyondLimits,
    /// As many entries were taken as the book has places.
    Full,
}

// A named method: `u8::from(fault)` would not say what the number is.
impl DayFault {
    /// The number that the refusal is known by: 1.
    pub fn number(self) -> u8
        ensures { result ≡ day_number self }
    {
        match self {
            DayFault::NotLawful => 1,
        }
    }
}

impl fmt::Display for DayFault {
    ghost output = { λ f. Some (day_reason f) };

    fn fmt<W: fmt::Write>(&self, f: &mut fmt::Formatter<W>) -> fmt::Result {
        f.write_str(match self {
            DayFault::NotLawful => "the day record is not lawful",
        })
    }
}

impl Error for DayFault {}

// A named method here too.
impl BookFault {
    /// The number that the refusal is known by: 6 or 9.
    pub fn number(self) -> u8
        ensures { result ≡ book_number self }
    {
        match self {
            BookFault::BeyondLimits => 6,
            BookFault::Full => 9,
        }
    }
}

impl fmt::Display for BookFault {
    ghost output = { λ f. Some (book_reason f) };

    fn fmt<W: fmt::Write>(&self, f: &mut fmt::Formatter<W>) -> fmt::Result {
        f.write_str(match self {
            BookFault::BeyondLimits => {
                "a number beyond its limits, a crossed quote, or no such series"
            }
            BookFault::Full => "the book is full",
        })
    }
}

impl Error for BookFault {}
