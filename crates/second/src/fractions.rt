// Fractions, exact, and the multiples of a tick next to them.

#[derive(Clone, Copy)]
pub(crate) struct Fraction {
    pub(crate) over: i128,
    pub(crate) under: i128,
}

impl Fraction {
    pub(crate) fn whole(number: i64) -> Fraction {
        Fraction {
            over: i128::from(number),
            under: 1,
        }
    }

    // The greatest multiple that is not over the fraction.
    fn floor(self, tick: i128) -> Option<i128> {
        let unit = self.under.checked_mul(tick)?;
        self.over.checked_div_euclid(unit)?.checked_mul(tick)
    }

    // The least multiple that is not under the fraction: seen from the other side of zero, it is the floor.
    pub(crate) fn above(self, tick: i64) -> Option<i64> {
        let mirrored = Fraction {
            over: self.over.checked_neg()?,
            under: self.under,
        };
        let floor = mirrored.floor(i128::from(tick))?;
        i64::try_from(floor.checked_neg()?).ok()
    }

    // The closer of the two multiples around the fraction, of two equally close the larger. The distances are taken
    // `under` times, so that they are whole.
    pub(crate) fn nearest(self, tick: i64) -> Option<i64> {
        let tick = i128::from(tick);
        let lower = self.floor(tick)?;
        let upper = lower.checked_add(tick)?;
        let down = self.over.checked_sub(lower.checked_mul(self.under)?)?;
        let up = upper.checked_mul(self.under)?.checked_sub(self.over)?;
        i64::try_from(if up <= down { upper } else { lower }).ok()
    }
}
