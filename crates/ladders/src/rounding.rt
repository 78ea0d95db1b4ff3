// Rounding to the lawful prices of a ladder, on any set of ladders. A fraction is a pair, as in the rules. A set and a
// ladder's number are two parameters: public calls have them apart, and one value would ask more of them.
ghost use Rattle.std.specs.Prelude.{◌≡◌, ◌^◌, ◌<◌, true, ◌&&◌, pos, ◌+ℤ◌, ◌-ℤ◌, ◌*ℤ◌, ◌≤ℤ◌, IfSome, unsigned_abs};
ghost use Rattle.ladders.specs.Fractions.{inside, floor, ceiling};
ghost use Rattle.ladders.specs.Prices.{within};
ghost use Rattle.ladders.specs.Rounded.{Rounds, rounded};
ghost use Rattle.ladders.specs.Rounding.{AnswersWhere, Nearest};
ghost use Rattle.ladders.specs.Values.{closer_of, nearest_price};

use crate::limits::LIMIT;
use crate::sets::LadderSet;

/// A fraction rounded down, to the nearest and up.
#[derive(Clone, Copy, PartialEq, Eq, Debug)]
pub struct Rounded {
    /// The greatest lawful price not over the fraction, in points.
    pub below: i64,
    /// The closest lawful price, of two equally close the larger, in points.
    pub nearest: i64,
    /// The least lawful price not under the fraction, in points.
    pub above: i64,
}

/// Whether a price in points lies within the limit and on its ladder.
pub fn is_lawful_price<S: LadderSet>(set: &S, ladder: u8, price: i64) -> bool
    ensures { result ≡ (within price && S.lawful set.now ladder price) }
{
    set.below(ladder, price) == Some(price)
}

// Whether a fraction has a denominator and lies within the price limit.
fn is_inside(fraction: (i64, u32)) -> bool
    ensures { result ≡ inside fraction.0 fraction.1 }
{
    let (n, d) = fraction;
    let most = LIMIT * i64::from(d);
    0 < d && (-most..=most).contains(&n)
}

// The whole numbers on either side of a fraction, equal where it is whole.
fn around(fraction: (i64, u32)) -> (i64, i64)
    requires { inside fraction.0 fraction.1 ≡ true }
    ensures { (result.0 ≡ floor fraction.0 fraction.1) × (result.1 ≡ ceiling fraction.0 fraction.1) }
{
    let (n, d) = fraction;
    let d = i64::from(d);
    (n.div_euclid(d), -(-n).div_euclid(d))
}

// A price times a denominator.
fn times(price: i64, d: u32) -> i128
    ensures value { result ≡ (price *ℤ pos d) }
    ensures bound { unsigned_abs result < 2 ^ 96 }
{
    i128::from(price) * i128::from(d)
}

// How far a higher price lies over a fraction, and a lower one under it, in parts of the denominator.
fn spans(fraction: (i64, u32), low: i64, high: i64) -> (i128, i128)
    ensures { (result.0 ≡ (high *ℤ pos fraction.1) -ℤ fraction.0) × (result.1 ≡ fraction.0 -ℤ (low *ℤ pos fraction.1)) }
{
    let (n, d) = fraction;
    let n = i128::from(n);
    (times(high, d) - n, n - times(low, d))
}

// Of a price not over a fraction and one not under it, the closer; of two equally close, the larger.
fn closer(fraction: (i64, u32), low: i64, high: i64) -> i64
    ensures { result ≡ closer_of fraction.0 fraction.1 low high }
{
    let (over, under) = spans(fraction, low, high);
    if over <= under { high } else { low }
}

/// The fraction (numerator, denominator) of points rounded to the lawful prices of a ladder: nothing for a denominator of zero or a
/// fraction beyond the price limit.
pub fn round<S: LadderSet>(set: &S, ladder: u8, fraction: (i64, u32)) -> Option<Rounded>
    ensures rule { AnswersWhere (inside fraction.0 fraction.1) (Rounds (S.lawful set.now ladder) fraction.0 fraction.1) result }
    ensures value { result ≡ rounded (S.lawful set.now ladder) fraction.0 fraction.1 }
    ensures close { IfSome result (λ p. p.above ≤ℤ (p.below +ℤ pos 1000000)) }
{
    if !is_inside(fraction) {
        return None;
    }
    let (floor, ceiling) = around(fraction);
    let below = set.below(ladder, floor)?;
    let above = set.above(ladder, ceiling)?;
    Some(Rounded {
        below,
        nearest: closer(fraction, below, above),
        above,
    })
}

/// The lawful price closest to a fraction of points; of two equally close, the larger. Nothing for a denominator of zero or a
/// fraction beyond the price limit.
pub fn nearest<S: LadderSet>(set: &S, ladder: u8, fraction: (i64, u32)) -> Option<i64>
    ensures rule { AnswersWhere (inside fraction.0 fraction.1) (Nearest (S.lawful set.now ladder) fraction.0 fraction.1) result }
    ensures value { result ≡ nearest_price (S.lawful set.now ladder) fraction.0 fraction.1 }
{
    round(set, ladder, fraction).map(|r| r.nearest)
}
