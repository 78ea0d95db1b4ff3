// The terms of a series, and what is supplied for it.

pub(crate) const PRICES: i64 = 1_000_000_000;

pub(crate) const SPREADS: i64 = 100_000_000;

pub(crate) const LOTS: i64 = 100_000;

pub(crate) fn is_price(number: i64) -> bool {
    (-PRICES..=PRICES).contains(&number)
}

pub(crate) fn is_spread(number: i64) -> bool {
    (-SPREADS..=SPREADS).contains(&number)
}

#[derive(Clone, Copy)]
pub(crate) struct Terms {
    pub(crate) family: i64,
    pub(crate) ladder: i64,
    pub(crate) reference: Option<i64>,
    pub(crate) previous: Option<i64>,
    pub(crate) spread: Option<i64>,
    pub(crate) last_day: bool,
    pub(crate) quarter_end: bool,
}

impl Terms {
    // Whether these may be the terms of series `number`, if the ladder is one of the day.
    pub(crate) fn are_lawful(self, number: usize) -> bool {
        (1..=15).contains(&self.family)
            && self.reference_is_lawful(number)
            && self.previous.is_none_or(is_price)
            && self
                .spread
                .is_none_or(|spread| self.family == 2 && is_spread(spread))
    }

    fn reference_is_lawful(self, number: usize) -> bool {
        match self.reference {
            Some(reference) => {
                matches!(self.family, 2 | 4 | 8 | 13)
                    && usize::try_from(reference).is_ok_and(|earlier| earlier < number)
            }
            None => !matches!(self.family, 2 | 4 | 8),
        }
    }
}

#[derive(Clone, Copy)]
pub(crate) struct Ruling {
    pub(crate) value: i64,
    pub(crate) first: bool,
}

#[derive(Clone, Copy)]
pub(crate) struct Series {
    pub(crate) terms: Terms,
    pub(crate) tick: i64,
    pub(crate) theory: Option<i64>,
    pub(crate) ruling: Option<Ruling>,
}
