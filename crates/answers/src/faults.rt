// Why a line is refused: the number that each refusal is known by, what is told beside the number, and its text.
ghost use Rattle.std.specs.Prelude.{◌≡◌, ◌⊎◌, ◌↔◌, IsSome, Some};
ghost use Rattle.answers.specs.Faults.{line_detail, line_number, line_reason};
ghost use Rattle.answers.specs.declared.faults.LineFault.TheVariants as faults;

use book::faults::DayFault;
use house::faults::HouseFault;
use ladders::faults::LadderFault;
use lines::faults::NotRead;
use std::error::Error;
use std::fmt;

/// Why a line is refused.
#[derive(Clone, Copy, PartialEq, Eq, Debug)]
pub enum LineFault {
    /// A call before the day line.
    NoDay,
    /// A further day line.
    SecondDay,
    /// The day line has an unlawful day record.
    Day(DayFault),
    /// The day line has an unlawful tick.
    Ladders(LadderFault),
    /// The house refuses the call.
    House(HouseFault),
    /// The line is not of the grammar.
    NotRead(NotRead),
    /// The buffer for the answer is shorter than every answer may need.
    ShortBuffer,
}

impl LineFault {
    /// The number that the refusal is known by, 1 to 13.
    // A method, since a From to u8 would not say what the number is.
    pub fn number(self) -> u8
        ensures { result ≡ line_number self }
    {
        match self {
            LineFault::NoDay | LineFault::SecondDay => 2,
            LineFault::Day(fault) => fault.number(),
            LineFault::Ladders(fault) => fault.number(),
            LineFault::House(fault) => fault.number(),
            LineFault::NotRead(_) => 11,
            LineFault::ShortBuffer => 12,
        }
    }

    /// The origin of a refused price, or the place at which the line departs from the grammar.
    pub fn detail(self) -> Option<u8>
        ensures detail { result ≡ line_detail self }
        ensures numbers { IsSome result ↔ ((line_number self ≡ 10) ⊎ (line_number self ≡ 11)) }
    {
        match self {
            LineFault::House(HouseFault::NoPrice(origin)) => Some(origin),
            LineFault::NotRead(refusal) => Some(refusal.place),
            _ => None,
        }
    }
}

impl fmt::Display for LineFault {
    ghost output = { λ f. Some (line_reason f) };

    fn fmt<W: fmt::Write>(&self, f: &mut fmt::Formatter<W>) -> fmt::Result {
        match *self {
            LineFault::NoDay => write!(f, "no day line was taken yet"),
            LineFault::SecondDay => write!(f, "a further day line"),
            LineFault::Day(fault) => write!(f, "{fault}"),
            LineFault::Ladders(fault) => write!(f, "{fault}"),
            LineFault::House(fault) => write!(f, "{fault}"),
            LineFault::NotRead(refusal) => write!(f, "{refusal}"),
            LineFault::ShortBuffer => write!(
                f,
                "the buffer for the answer has fewer than 96 bytes"
            ),
        }
    }
}

impl Error for LineFault {}

impl From<DayFault> for LineFault {
    ghost from_gives = { λ f r. r ≡ faults.Day f };

    fn from(refusal: DayFault) -> LineFault {
        LineFault::Day(refusal)
    }
}

impl From<LadderFault> for LineFault {
    ghost from_gives = { λ f r. r ≡ faults.Ladders f };

    fn from(refusal: LadderFault) -> LineFault {
        LineFault::Ladders(refusal)
    }
}

impl From<HouseFault> for LineFault {
    ghost from_gives = { λ f r. r ≡ faults.House f };

    fn from(refusal: HouseFault) -> LineFault {
        LineFault::House(refusal)
    }
}

impl From<NotRead> for LineFault {
    ghost from_gives = { λ f r. r ≡ faults.NotRead f };

    fn from(refusal: NotRead) -> LineFault {
        LineFault::NotRead(refusal)
    }
}
