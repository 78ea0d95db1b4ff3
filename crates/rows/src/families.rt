// The families of series. A family is known by its number, 1 to 15.
ghost use Rattle.std.specs.Prelude.{◌≡◌, ◌≤◌, Some, None, MatchResult};
ghost use Rattle.rows.specs.Families.{family_of, number};

/// What a series is, by which its rows are chosen.
#[derive(Clone, Copy, PartialEq, Eq, Debug)]
pub enum Family {
    /// 1, a long bond, leading.
    LongBond = 1,
    /// 2, a bond that follows another by a spread.
    FollowingBond,
    /// 3, a medium or super-long bond, leading.
    OtherBond,
    /// 4, a mini bond.
    MiniBond,
    /// 5, the three-month overnight rate.
    ThreeMonthRate,
    /// 6, a large index, first two months.
    FrontIndex,
    /// 7, a large index, later months.
    LaterIndex,
    /// 8, a mini, micro or cash-settled index.
    CopiedIndex,
    /// 9, an index settled by theory.
    TheoryIndex,
    /// 10, a foreign or commodity index, or rubber.
    ForeignIndex,
    /// 11, a commodity, delivered.
    DeliveredCommodity,
    /// 12, a commodity, cash only.
    CashCommodity,
    /// 13, grain, delivered.
    DeliveredGrain,
    /// 14, an index option, near.
    NearOption,
    /// 15, any other option.
    OtherOption,
}

/// A number that no family has.
#[derive(Clone, Copy, PartialEq, Eq, Debug)]
pub struct NoSuchFamily(pub i64);

impl Family {
    /// The family's number, 1 to 15.
    // A method, since a From to u8 would not say what the number is.
    pub fn number(self) -> u8
        ensures value { result ≡ number self }
        ensures range { (1 ≤ result) × (result ≤ 15) }
    {
        self as u8
    }
}

impl TryFrom<i64> for Family {
    type Error = NoSuchFamily;

    ghost try_from_gives = { λ n res. MatchResult res (λ f. family_of n ≡ Some f) (λ e. (family_of n ≡ None) × (e.0 ≡ n)) };

    // The family of a number, if it is one of 1 to 15.
    fn try_from(number: i64) -> Result<Family, NoSuchFamily> {
        match number {
            1 => Ok(Family::LongBond),
            2 => Ok(Family::FollowingBond),
            3 => Ok(Family::OtherBond),
            4 => Ok(Family::MiniBond),
            5 => Ok(Family::ThreeMonthRate),
            6 => Ok(Family::FrontIndex),
            7 => Ok(Family::LaterIndex),
            8 => Ok(Family::CopiedIndex),
            9 => Ok(Family::TheoryIndex),
            10 => Ok(Family::ForeignIndex),
            11 => Ok(Family::DeliveredCommodity),
            12 => Ok(Family::CashCommodity),
            13 => Ok(Family::DeliveredGrain),
            14 => Ok(Family::NearOption),
            15 => Ok(Family::OtherOption),
            _ => Err(NoSuchFamily(number)),
        }
    }
}
