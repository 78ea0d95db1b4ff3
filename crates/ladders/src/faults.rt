// Why a ladder, or a set of ladders, is not lawful.
ghost use Rattle.std.specs.Prelude.{◌≡◌, Some};
ghost use Rattle.ladders.specs.Faults.{ladder_number, ladder_reason};

use std::error::Error;
use std::fmt;

/// What is wrong with the description of a ladder or of a set of ladders.
#[derive(Clone, Copy, PartialEq, Eq, Debug)]
pub enum LadderFault {
    /// A set without a ladder.
    NoLadder,
    /// A set of more than 16 ladders.
    TooManyLadders,
    /// A stepped ladder without a band.
    NoBand,
    /// A stepped ladder of more than 4 bands.
    TooManyBands,
    /// A tick outside 1 to 1,000,000 points.
    TickOutOfRange,
    /// The first band has a start, or a later one has none.
    StartMisplaced,
    /// A start beyond the price limit.
    StartOutOfRange,
    /// A start that is not over the one before.
    StartsNotRising,
    /// A start is no multiple of its own tick or of the tick before.
    StartOffTick,
}

impl LadderFault {
    /// The number that a refusal is known by: 13.
    // A method, since a From to u8 would not say what the number is.
    pub fn number(self) -> u8
        ensures { result ≡ ladder_number self }
    {
        13
    }
}

impl fmt::Display for LadderFault {
    ghost output = { λ f. Some (ladder_reason f) };

    fn fmt<W: fmt::Write>(&self, f: &mut fmt::Formatter<W>) -> fmt::Result {
        f.write_str(match self {
            LadderFault::NoLadder => "no ladder",
            LadderFault::TooManyLadders => "more than 16 ladders",
            LadderFault::NoBand => "no band",
            LadderFault::TooManyBands => "more than 4 bands",
            LadderFault::TickOutOfRange => "a tick is not 1 to 1000000",
            LadderFault::StartMisplaced => "a start without its tick",
            LadderFault::StartOutOfRange => "a start is beyond the price limit",
            LadderFault::StartsNotRising => "the starts do not rise",
            LadderFault::StartOffTick => {
                "a start is no multiple of its own tick and the tick before"
            }
        })
    }
}

impl Error for LadderFault {}
