// How the series of a day settle. References are to earlier series, so the answers are worked out from the first series on.
use crate::evidence::{Entry, Evidence, Record};
use crate::fractions::Fraction;
use crate::rows::{Edition, row_of};
use crate::terms::Series;
use std::alloc::{AllocError, Global};

#[derive(Clone, Copy)]
pub(crate) struct Price {
    pub(crate) price: i64,
    pub(crate) step: char,
    pub(crate) place: usize,
    // The stamp of the entry that the step looked at, of a copy the time of the reference's answer; none for a step that looks at no
    // entry.
    pub(crate) time: Option<i64>,
}

// A price, or the origin of the refusal.
pub(crate) type Answer = Result<Price, usize>;

// What a day has for its prices.
#[derive(Clone, Copy)]
pub(crate) struct Matter<'a> {
    pub(crate) record: Record,
    pub(crate) series: &'a [Series],
    pub(crate) entries: &'a [Entry],
    pub(crate) edition: Edition,
}

// Of one series: its number, itself, and the answer of its reference, if it has one.
#[derive(Clone, Copy)]
struct Case<'a> {
    matter: Matter<'a>,
    number: usize,
    series: Series,
    reference: Option<Answer>,
}

// The answers of all series, in their order.
pub(crate) fn answers(alloc: Global, matter: Matter<'_>) -> Result<Vec<Answer>, AllocError> {
    let mut answers: Vec<Answer> = Vec::new(alloc);
    for (number, series) in matter.series.iter().enumerate() {
        let reference = series
            .terms
            .reference
            .and_then(|reference| usize::try_from(reference).ok())
            .and_then(|reference| answers.get(reference).copied());
        let case = Case {
            matter,
            number,
            series: *series,
            reference,
        };
        answers.push(case.answer())?;
    }
    Ok(answers)
}

impl Case<'_> {
    fn answer(&self) -> Answer {
        match self.series.ruling {
            Some(ruling) if ruling.first => Ok(Price {
                price: ruling.value,
                step: 'D',
                place: 0,
                time: None,
            }),
            _ => self.by_row(),
        }
    }

    // The first step of the row that finds a price.
    fn by_row(&self) -> Answer {
        let terms = self.series.terms;
        let row = row_of(
            terms.family,
            self.matter.edition,
            terms.last_day,
            terms.quarter_end,
        );
        for (place, step) in (1..=6).zip(row.split(' ')) {
            if let Some(found) = self.found(place, step) {
                return Ok(found);
            }
        }
        Err(self.origin(row))
    }

    // Where a row finds nothing: at the reference's origin, if the row asks for the reference and that is refused too.
    fn origin(&self, row: &str) -> usize {
        match self.reference {
            Some(Err(origin)) if row.contains(['S', 'P', 'C']) => origin,
            _ => self.number,
        }
    }

    // What the step at a place finds. The number after its letter is its window.
    fn found(&self, place: usize, step: &str) -> Option<Price> {
        let letter = step.chars().next()?;
        let window = step.get(1..)?.parse::<u8>().unwrap_or(0);
        let evidence = self.evidence(window)?;
        let entry = evidence.entry_of(letter);
        let price = self.price_by(letter, evidence, entry)?;
        let time = match letter {
            'C' => self.reference?.ok()?.time,
            _ => entry.map(|entry| entry.stamp),
        };
        Some(Price {
            price,
            step: letter,
            place,
            time,
        })
    }

    // The price that a step finds, given the entry on which it rests.
    fn price_by(&self, letter: char, evidence: Evidence<'_>, entry: Option<Entry>) -> Option<i64> {
        let tick = self.series.tick;
        match letter {
            'A' | 'L' => Some(entry?.kind.traded()?.price),
            'Q' => entry?.kind.middle()?.nearest(tick),
            'V' => evidence.average().nearest(tick),
            'T' => Fraction::whole(self.series.theory?).nearest(tick),
            'U' => Fraction::whole(self.series.theory?).above(tick),
            'S' => self.following(entry?.kind.difference()?),
            'P' => self.following(self.series.terms.spread?),
            'C' => self.following(0),
            'B' => self.series.terms.previous,
            'D' => self.series.ruling.map(|ruling| ruling.value),
            _ => None,
        }
    }

    // The reference's price less a spread.
    fn following(&self, spread: i64) -> Option<i64> {
        self.reference?.ok()?.price.checked_sub(spread)
    }

    fn evidence(&self, window: u8) -> Option<Evidence<'_>> {
        Some(Evidence {
            entries: self.matter.entries,
            record: self.matter.record,
            series: i64::try_from(self.number).ok()?,
            window,
        })
    }
}
