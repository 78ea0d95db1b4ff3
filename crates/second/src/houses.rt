// A day once it is begun: its phase, its series and the entries taken, and what every call but the day line does to them.
use crate::evidence::{Entry, Kind, Record};
use crate::grammar::{Bell, Call};
use crate::refusals::{Refusal, Stop};
use crate::rows::Edition;
use crate::settling::{Matter, Price, answers};
use crate::terms::{LOTS, Ruling, Series, Terms, is_price, is_spread};
use std::alloc::Global;

const MOST_SERIES: usize = 32;

const LARGEST_TICK: i64 = 1_000_000;

#[derive(Clone, Copy, PartialEq, Eq)]
enum Phase {
    Listing,
    Trading,
    Closed,
}

#[derive(Clone, Copy)]
pub(crate) enum Reply {
    Done,
    Listed(usize),
    Settled(i64, Price),
}

#[derive(Drop)]
pub(crate) struct House {
    alloc: Global,
    record: Record,
    ticks: [i64; 4],
    places: usize,
    phase: Phase,
    series: Vec<Series>,
    entries: Vec<Entry>,
}

impl House {
    pub(crate) fn new(
        alloc: Global,
        record: Record,
        ticks: [i64; 4],
        places: usize,
    ) -> Result<House, Refusal> {
        if !record.is_lawful() {
            return Err(Refusal::Day);
        }
        if !ticks.iter().all(|tick| (1..=LARGEST_TICK).contains(tick)) {
            return Err(Refusal::Ladders);
        }
        Ok(House {
            alloc,
            record,
            ticks,
            places,
            phase: Phase::Listing,
            series: Vec::new(alloc),
            entries: Vec::new(alloc),
        })
    }

    pub(crate) fn take(&mut self, call: Call) -> Result<Reply, Stop> {
        match call {
            Call::Day { .. } => Err(Stop::Refused(Refusal::Phase)),
            Call::List(terms) => self.list(terms),
            Call::Bell(bell) => self.ring(bell),
            Call::Entry(entry) => self.enter(entry),
            Call::Theory { series, value } => self.supply_theory(series, value),
            Call::Ruling {
                series,
                value,
                first,
            } => self.supply_ruling(series, value, first),
            Call::Settle { series, edition } => self.settle(series, edition),
        }
    }

    fn list(&mut self, terms: Terms) -> Result<Reply, Stop> {
        let number = self.series.len();
        if self.phase != Phase::Listing {
            return Err(Stop::Refused(Refusal::Phase));
        }
        if number >= MOST_SERIES {
            return Err(Stop::Refused(Refusal::ListFull));
        }
        let tick = self.tick(terms.ladder).ok_or(Refusal::Terms)?;
        if !terms.are_lawful(number) {
            return Err(Stop::Refused(Refusal::Terms));
        }
        self.series.push(Series {
            terms,
            tick,
            theory: None,
            ruling: None,
        })?;
        Ok(Reply::Listed(number))
    }

    fn tick(&self, ladder: i64) -> Option<i64> {
        self.ticks.get(usize::try_from(ladder).ok()?).copied()
    }

    fn ring(&mut self, bell: Bell) -> Result<Reply, Stop> {
        let (before, after) = match bell {
            Bell::Open => (Phase::Listing, Phase::Trading),
            Bell::Close => (Phase::Trading, Phase::Closed),
        };
        if self.phase != before {
            return Err(Stop::Refused(Refusal::Phase));
        }
        self.phase = after;
        Ok(Reply::Done)
    }

    // The series of a number, if it is listed.
    fn listed(&self, number: i64) -> Result<Series, Refusal> {
        usize::try_from(number)
            .ok()
            .and_then(|index| self.series.get(index).copied())
            .ok_or(Refusal::NoSeries)
    }

    fn enter(&mut self, entry: Entry) -> Result<Reply, Stop> {
        if self.phase != Phase::Trading {
            return Err(Stop::Refused(Refusal::Phase));
        }
        let series = self.listed(entry.series)?;
        self.within_limits(entry)?;
        fits(series, entry.kind)?;
        if self.entries.len() >= self.places {
            return Err(Stop::Refused(Refusal::BookFull));
        }
        self.entries.push(entry)?;
        Ok(Reply::Done)
    }

    fn within_limits(&self, entry: Entry) -> Result<(), Refusal> {
        let stamp_is_lawful = self.record.night <= entry.stamp && entry.stamp <= self.record.close;
        let kind_is_lawful = match entry.kind {
            Kind::Trade(deal) | Kind::Auction(deal) | Kind::Leg(deal) => {
                is_price(deal.price) && (1..=LOTS).contains(&deal.lots)
            }
            Kind::Spread { difference } => is_spread(difference),
            Kind::Quote { bid, ask } => {
                bid.is_none_or(is_price) && ask.is_none_or(is_price) && !is_crossed(bid, ask)
            }
        };
        if stamp_is_lawful && kind_is_lawful {
            Ok(())
        } else {
            Err(Refusal::Limits)
        }
    }

    fn supply_theory(&mut self, number: i64, value: Option<i64>) -> Result<Reply, Stop> {
        let series = self.listed(number)?;
        if !value.is_none_or(is_price) {
            return Err(Stop::Refused(Refusal::Limits));
        }
        self.replace(
            number,
            Series {
                theory: value,
                ..series
            },
        );
        Ok(Reply::Done)
    }

    fn supply_ruling(
        &mut self,
        number: i64,
        value: Option<i64>,
        first: bool,
    ) -> Result<Reply, Stop> {
        let series = self.listed(number)?;
        let lawful = value.map_or(!first, is_price);
        if !lawful {
            return Err(Stop::Refused(Refusal::Limits));
        }
        let ruling = value.map(|value| Ruling { value, first });
        self.replace(number, Series { ruling, ..series });
        Ok(Reply::Done)
    }

    fn replace(&mut self, number: i64, series: Series) {
        if let Ok(index) = usize::try_from(number) {
            if let Some(place) = self.series.get_mut(index) {
                *place = series;
            }
        }
    }

    fn settle(&self, number: i64, edition: Edition) -> Result<Reply, Stop> {
        let open = match edition {
            Edition::Close => self.phase == Phase::Closed,
            Edition::Morning => self.phase != Phase::Listing,
        };
        if !open {
            return Err(Stop::Refused(Refusal::Phase));
        }
        let index = usize::try_from(number).map_err(|_| Refusal::NoSeries)?;
        let asked = answers(
            self.alloc,
            Matter {
                record: self.record,
                series: self.series.as_slice(),
                entries: self.entries.as_slice(),
                edition,
            },
        )?;
        match asked.get(index) {
            None => Err(Stop::Refused(Refusal::NoSeries)),
            Some(Ok(price)) => Ok(Reply::Settled(number, *price)),
            Some(Err(origin)) => Err(Stop::Refused(Refusal::NoPrice { origin: *origin })),
        }
    }
}

fn is_crossed(bid: Option<i64>, ask: Option<i64>) -> bool {
    match (bid, ask) {
        (Some(bid), Some(ask)) => bid >= ask,
        _ => false,
    }
}

// Whether an entry of this kind may come for the series: spreads for family 2 alone, prices only on the ladder.
fn fits(series: Series, kind: Kind) -> Result<(), Refusal> {
    let prices = match kind {
        Kind::Spread { .. } if series.terms.family != 2 => return Err(Refusal::NoSpreads),
        Kind::Spread { .. } => [None, None],
        Kind::Trade(deal) | Kind::Auction(deal) | Kind::Leg(deal) => [Some(deal.price), None],
        Kind::Quote { bid, ask } => [bid, ask],
    };
    let on_ladder = prices
        .iter()
        .flatten()
        .all(|price| price.checked_rem_euclid(series.tick) == Some(0));
    if on_ladder {
        Ok(())
    } else {
        Err(Refusal::OffLadder)
    }
}
