// The worked prices, as one list: each is proved of what rounding, the steps and the answers mean. The tests of `trials` run the code on
// the roundings; `house_trials` has cases of its own, and does not read the list.
ghost use Rattle.std.specs.Prelude.{◌≡◌};
ghost use Rattle.std.specs.List.{AllByRecursion};
ghost use Rattle.house.specs.Worked.{Holds, worked_prices};
ghost use Rattle.house.specs.declared.worked.WorkedPrice.TheVariants.{Rounding, Finding};

use crate::answers::Settlement;
use rows::families::Family;
use rows::places::Edition;
use rows::steps::Step;

/// A way of rounding.
#[derive(Clone, Copy)]
pub enum Way {
    /// To the closest lawful price.
    Nearest,
    /// To the least lawful price not under.
    Above,
}

/// From what a step finds its price, in points.
#[derive(Clone, Copy)]
pub enum Matter {
    /// A theory value.
    Theory(i64),
    /// The best bid and the best ask of the last quote.
    Quote(i64, i64),
    /// The reference's price and the last spread.
    Spread(i64, i64),
}

/// A refusal for want of a price.
#[derive(Clone, Copy)]
pub struct Refusal {
    /// By which it is known.
    pub number: u8,
    /// The series for which a price is wanting.
    pub origin: u8,
}

/// A worked price. Prices are in points, and so are ticks.
#[derive(Clone, Copy)]
pub enum WorkedPrice {
    /// A fraction rounded to the multiples of a tick.
    Rounding {
        /// Of the ladder.
        tick: u32,
        /// How it is rounded.
        way: Way,
        /// Numerator and denominator.
        fraction: (i64, u32),
        /// What it is rounded to.
        price: i64,
    },
    /// What a step finds on the multiples of a tick, where nothing is known but its matter.
    Finding {
        /// Of the ladder.
        tick: u32,
        /// The step that looks.
        step: Step,
        /// All that is known.
        matter: Matter,
        /// What the step finds.
        price: i64,
    },
    /// The answer of a closed house to a question, where nothing is entered or supplied.
    Answer {
        /// Of every ladder.
        tick: u32,
        /// The edition asked for.
        edition: Edition,
        /// Of the series asked for.
        family: Family,
        /// Of its reference, and of that one's reference, which has none. The last is listed first, as number 0.
        references: [Family; 2],
        /// The settlement, or the refusal.
        answer: Result<Settlement, Refusal>,
    },
}

// A fraction rounded.
fn rounding(tick: u32, way: Way, fraction: (i64, u32), price: i64) -> WorkedPrice
    ensures { result ≡ Rounding tick way fraction price }
{
    WorkedPrice::Rounding {
        tick,
        way,
        fraction,
        price,
    }
}

// What a step finds.
fn finding(tick: u32, step: Step, matter: Matter, price: i64) -> WorkedPrice
    ensures { result ≡ Finding tick step matter price }
{
    WorkedPrice::Finding {
        tick,
        step,
        matter,
        price,
    }
}

// The list. Apart from `worked_prices`, so that a wrong member fails here, and not in the proof that each holds.
fn members() -> [WorkedPrice; 14]
    ensures { result ≡ worked_prices }
{
    [
        rounding(10_000, Way::Nearest, (38_514_999, 1), 38_510_000),
        rounding(10, Way::Nearest, (-15, 1), -10),
        rounding(10, Way::Nearest, (-16, 1), -20),
        rounding(10, Way::Above, (101, 1), 110),
        rounding(10, Way::Above, (-101, 1), -100),
        rounding(10, Way::Nearest, (100 + 130, 2), 120),
        finding(10_000, Step::Theory, Matter::Theory(38_514_999), 38_510_000),
        finding(10, Step::Theory, Matter::Theory(-15), -10),
        finding(10, Step::Theory, Matter::Theory(-16), -20),
        finding(10, Step::TheoryUp, Matter::Theory(101), 110),
        finding(10, Step::TheoryUp, Matter::Theory(-101), -100),
        finding(10, Step::Quote, Matter::Quote(100, 130), 120),
        finding(10, Step::Spread, Matter::Spread(145_200, -30), 145_230),
        WorkedPrice::Answer {
            tick: 10,
            edition: Edition::Close,
            family: Family::CopiedIndex,
            references: [Family::FollowingBond, Family::LongBond],
            answer: Err(Refusal {
                number: 10,
                origin: 0,
            }),
        },
    ]
}

/// The worked prices: roundings, what steps find, and the refusal of family 8 on family 2 on family 1 at the close, all without evidence,
/// whose origin is the series of family 1.
pub fn worked_prices() -> [WorkedPrice; 14]
    ensures list { result ≡ worked_prices }
    ensures hold { AllByRecursion Holds result }
{
    members()
}
