// The steps by which a price may be found, each known by a letter.
ghost use Rattle.std.specs.Prelude.{◌≡◌, [], ◌∷◌, Some};
ghost use Rattle.rows.specs.Steps.{letter};

use std::fmt;

/// A way in which a price may be found.
#[derive(Clone, Copy, PartialEq, Eq, Debug)]
pub enum Step {
    /// A, the last auction.
    Auction,
    /// L, the last trade.
    Trade,
    /// Q, the middle of the last quote.
    Quote,
    /// V, money over lots.
    Average,
    /// T, nearest of the theory value.
    Theory,
    /// U, above of the theory value.
    TheoryUp,
    /// S, the reference's price less the last spread.
    Spread,
    /// P, the reference's price less the previous spread.
    PreviousSpread,
    /// C, the reference's price.
    Copy,
    /// B, the previous settlement.
    Previous,
    /// D, the ruling.
    Ruling,
}

impl Step {
    /// The letter that is printed beside a price, as the byte that a line has.
    pub fn letter(self) -> u8
        ensures { result ≡ letter self }
    {
        match self {
            Step::Auction => b'A',
            Step::Trade => b'L',
            Step::Quote => b'Q',
            Step::Average => b'V',
            Step::Theory => b'T',
            Step::TheoryUp => b'U',
            Step::Spread => b'S',
            Step::PreviousSpread => b'P',
            Step::Copy => b'C',
            Step::Previous => b'B',
            Step::Ruling => b'D',
        }
    }
}

// A step is printed as its letter.
impl fmt::Display for Step {
    ghost output = { λ s. Some (letter s ∷ []) };

    fn fmt<W: fmt::Write>(&self, f: &mut fmt::Formatter<W>) -> fmt::Result {
        f.write_char(char::from(self.letter()))
    }
}
