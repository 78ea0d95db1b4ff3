// A random day: its lines, one after the other.
use crate::chance::Chance;
use crate::damage::damaged;
use crate::stamps::{lawful, moved, stamp};
use book::days::Day;
use std::alloc::{AllocError, Global};
use std::fmt;

// A number, or a minus where it is missing.
#[derive(Clone, Copy)]
struct Optional(Option<i64>);

impl fmt::Display for Optional {
    fn fmt<W: fmt::Write>(&self, f: &mut fmt::Formatter<W>) -> fmt::Result {
        match self.0 {
            Some(number) => write!(f, "{number}"),
            None => write!(f, "-"),
        }
    }
}

// What the series of a day are: any families, a chain of family 2, or a chain of families that follow.
#[derive(Clone, Copy, PartialEq, Eq)]
enum Style {
    Mixed,
    Spreads,
    Followers,
}

// What the plan takes to be listed under a number. A damaged line may be a lawful listing too, and then it is not so.
#[derive(Clone, Copy)]
struct Listed {
    family: i64,
    ladder: i64,
}

const LIMIT: i64 = 1_000_000_000;

const SPREAD_LIMIT: i64 = 100_000_000;

const MOST_SERIES: usize = 32;

const TICKS: [i64; 12] = [
    1, 2, 5, 7, 10, 10, 50, 100, 5_000, 10_000, 999_999, 1_000_000,
];

// Where the prices of a day may lie.
const LEVELS: [i64; 8] = [
    0,
    0,
    100_000,
    38_500_000,
    -145_000,
    999_990_000,
    -999_990_000,
    7,
];

#[derive(Drop)]
pub(crate) struct Plan {
    alloc: Global,
    chance: Chance,
    lines: Vec<Vec<u8>>,
    style: Style,
    record: Day,
    ticks: [i64; 4],
    level: i64,
    // What every spread of the day is, if that is one.
    same_spread: Option<i64>,
    // Whether a lawful listing is taken now.
    is_listing: bool,
    listed: Vec<Listed>,
    last_stamp: i64,
}

impl Plan {
    // The day of a seed.
    pub(crate) fn of(alloc: Global, seed: u64) -> Result<Plan, AllocError> {
        let mut plan = Plan::new(alloc, Chance::new(seed));
        plan.plan_opening()?;
        plan.plan_listings()?;
        plan.plan_trading()?;
        plan.plan_end()?;
        Ok(plan)
    }

    pub(crate) fn lines(&self) -> &[Vec<u8>] {
        self.lines.as_slice()
    }

    fn new(alloc: Global, mut chance: Chance) -> Plan {
        let style = match chance.below(4) {
            0 => Style::Spreads,
            1 => Style::Followers,
            _ => Style::Mixed,
        };
        let record = lawful(&mut chance);
        let ticks = [
            chance.of(&TICKS),
            chance.of(&TICKS),
            chance.of(&TICKS),
            chance.between(1, 1_000_000),
        ];
        let level = chance.of(&LEVELS);
        let extreme = chance.of(&[SPREAD_LIMIT, -SPREAD_LIMIT]);
        let same_spread = chance.percent(15).then_some(extreme);
        Plan {
            alloc,
            chance,
            lines: Vec::new(alloc),
            style,
            record,
            ticks,
            level,
            same_spread,
            is_listing: false,
            listed: Vec::new(alloc),
            last_stamp: 0,
        }
    }

    // The parts of the day.

    fn plan_opening(&mut self) -> Result<(), AllocError> {
        for _ in 0..self.chance.below(4) {
            self.write_anything()?;
        }
        for _ in 0..self.chance.below(4) {
            self.write_unlawful_day()?;
        }
        self.write_day(self.record, self.ticks)?;
        if self.chance.percent(30) {
            self.write_unlawful_day()?;
        }
        Ok(())
    }

    fn plan_listings(&mut self) -> Result<(), AllocError> {
        let count = match self.style {
            Style::Mixed => self.chance.below(20).saturating_add(1),
            _ => 34,
        };
        self.is_listing = true;
        for _ in 0..count {
            if self.chance.percent(10) {
                self.write_unlawful_terms()?;
            }
            if self.chance.percent(5) {
                self.write_anything()?;
            }
            self.write_terms()?;
        }
        self.is_listing = false;
        self.supply_some(50)?;
        self.ask_some(10)?;
        if self.chance.percent(20) {
            self.write_text("bell close")?;
        }
        self.write_text("bell open")
    }

    fn plan_trading(&mut self) -> Result<(), AllocError> {
        self.ask_some(10)?;
        for _ in 0..3 {
            for _ in 0..self.chance.below(90) {
                self.write_entry()?;
                if self.chance.percent(4) {
                    self.write_anything()?;
                }
            }
            self.supply_some(15)?;
            self.ask_some(50)?;
        }
        self.write_text("bell close")
    }

    fn plan_end(&mut self) -> Result<(), AllocError> {
        self.ask_all()?;
        for _ in 0..self.chance.below(8) {
            self.write_anything()?;
        }
        self.supply_some(20)?;
        self.ask_all()
    }

    // Lines, each with now and then a damaged one behind it.

    fn write(&mut self, line: String) -> Result<(), AllocError> {
        let line = line.into_bytes();
        if self.chance.percent(8) {
            let other = damaged(self.alloc, &mut self.chance, line.as_slice())?;
            self.lines.push(line)?;
            self.lines.push(other)?;
        } else {
            self.lines.push(line)?;
        }
        Ok(())
    }

    fn write_text(&mut self, text: &str) -> Result<(), AllocError> {
        let line = String::from_str(self.alloc, text)?;
        self.write(line)
    }

    fn write_day(&mut self, record: Day, ticks: [i64; 4]) -> Result<(), AllocError> {
        let Day {
            night,
            opening,
            afternoon,
            close,
            cut,
        } = record;
        let [first, second, third, fourth] = ticks;
        let line = format!(in self.alloc;
            "day {night} {opening} {afternoon} {close} {cut} {first} {second} {third} {fourth}"
        )?;
        self.write(line)
    }

    fn write_unlawful_day(&mut self) -> Result<(), AllocError> {
        let mut record = self.record;
        let mut ticks = self.ticks;
        if self.chance.percent(60) {
            record = moved(&mut self.chance, record);
        }
        if self.chance.percent(60) {
            let tick = self.chance.of(&[0, -1, 1_000_001, -10]);
            match self.chance.below(4) {
                0 => ticks[0] = tick,
                1 => ticks[1] = tick,
                2 => ticks[2] = tick,
                _ => ticks[3] = tick,
            }
        }
        self.write_day(record, ticks)
    }

    fn write_anything(&mut self) -> Result<(), AllocError> {
        match self.chance.below(7) {
            0 => self.write_unlawful_day(),
            1 => self.write_terms(),
            2 => self.write_bell(),
            3 => self.write_theory(),
            4 => self.write_ruling(),
            5 => self.write_question(),
            _ => self.write_entry(),
        }
    }

    // A bell at the wrong time; seldom one that ends the listing or the trading before its time.
    fn write_bell(&mut self) -> Result<(), AllocError> {
        let early = self.chance.percent(5);
        if self.is_listing == early {
            self.write_text("bell open")
        } else {
            self.write_text("bell close")
        }
    }

    // Listings.

    fn write_listing(
        &mut self,
        listed: Listed,
        reference: Option<i64>,
        previous: Option<i64>,
        spread: Option<i64>,
    ) -> Result<(), AllocError> {
        let Listed { family, ladder } = listed;
        let reference = Optional(reference);
        let previous = Optional(previous);
        let spread = Optional(spread);
        let last_day = self.chance.below(2);
        let quarter_end = self.chance.below(2);
        let line = format!(in self.alloc;
            "list {family} {ladder} {reference} {previous} {spread} {last_day} {quarter_end}"
        )?;
        self.write(line)
    }

    fn some_family(&mut self) -> i64 {
        let first = self.listed.is_empty();
        match self.style {
            _ if first => self.chance.of(&[1, 3, 5, 6, 9, 12]),
            Style::Mixed => self.chance.between(1, 15),
            Style::Spreads => 2,
            Style::Followers => self.chance.of(&[4, 8, 13, 2, 4, 8, 13, 10]),
        }
    }

    // An earlier series, in chains mostly the one before.
    fn some_reference(&mut self) -> i64 {
        let count = self.listed.len() as i64;
        if self.style != Style::Mixed && self.chance.percent(95) {
            count.saturating_sub(1)
        } else {
            self.chance.between(0, count.saturating_sub(1))
        }
    }

    fn write_terms(&mut self) -> Result<(), AllocError> {
        let family = self.some_family();
        let ladder = self.chance.between(0, 3);
        let listed = Listed { family, ladder };
        let follows = match family {
            2 | 4 | 8 => true,
            13 => self.chance.percent(60),
            _ => false,
        };
        let reference = if follows && !self.listed.is_empty() {
            Some(self.some_reference())
        } else {
            None
        };
        let previous = self
            .some_value(ladder, 50)
            .map(|value| value.max(-LIMIT).min(LIMIT));
        let spread = if family == 2 && self.chance.percent(75) {
            let drawn = self.some_spread();
            Some(drawn.max(-SPREAD_LIMIT).min(SPREAD_LIMIT))
        } else {
            None
        };
        self.write_listing(listed, reference, previous, spread)?;
        let lawful = !follows || reference.is_some();
        if self.is_listing && lawful && self.listed.len() < MOST_SERIES {
            self.listed.push(listed)?;
        }
        Ok(())
    }

    // Terms that break mostly one rule.
    fn write_unlawful_terms(&mut self) -> Result<(), AllocError> {
        let count = self.listed.len() as i64;
        let mut family = self.chance.between(1, 15);
        let mut ladder = self.chance.between(0, 3);
        let mut reference = None;
        let mut previous = None;
        let mut spread = None;
        match self.chance.below(6) {
            0 => family = self.chance.of(&[0, 16, -1, 256, 257, 9_999_999_999]),
            1 => ladder = self.chance.of(&[4, -1, 15, 16, 256, 9_999_999_999]),
            2 => reference = Some(self.chance.of(&[count, count.saturating_add(1), -1, 256])),
            3 => reference = Some(self.chance.between(0, count)),
            4 => previous = Some(self.chance.of(&[LIMIT + 1, -LIMIT - 1])),
            _ => spread = Some(self.some_spread()),
        }
        if self.chance.percent(30) && count > 0 {
            family = self.chance.of(&[2, 4, 8, 13]);
            reference = Some(self.chance.of(&[count, -1, 256]));
        }
        self.write_listing(Listed { family, ladder }, reference, previous, spread)
    }

    // Numbers.

    fn some_spread(&mut self) -> i64 {
        if let Some(spread) = self.same_spread {
            return spread;
        }
        match self.chance.below(12) {
            0 => self.chance.of(&[SPREAD_LIMIT, -SPREAD_LIMIT]),
            1 if self.chance.percent(50) => {
                self.chance.of(&[SPREAD_LIMIT + 1, -SPREAD_LIMIT - 1])
            }
            _ => self.chance.between(-300, 300),
        }
    }

    fn tick_of(&self, ladder: i64) -> i64 {
        usize::try_from(ladder)
            .ok()
            .and_then(|index| self.ticks.get(index).copied())
            .unwrap_or(1)
    }

    // A lawful price near the level of the day.
    fn some_price(&mut self, ladder: i64) -> i64 {
        let tick = self.tick_of(ladder);
        let steps = self.level.checked_div(tick).unwrap_or(0);
        steps
            .saturating_add(self.chance.between(-5, 5))
            .saturating_mul(tick)
    }

    // The same, now and then off the ladder, or at the limits or past them.
    fn some_entered_price(&mut self, ladder: i64) -> i64 {
        let price = self.some_price(ladder);
        match self.chance.below(40) {
            0 => price.saturating_add(self.chance.of(&[1, -1])),
            1 => self.chance.of(&[LIMIT, -LIMIT, LIMIT + 1, -LIMIT - 1]),
            _ => price,
        }
    }

    // A value as it is supplied: on the ladder, in the middle between two prices or a point beside, or anywhere.
    fn some_value(&mut self, ladder: i64, missing: u64) -> Option<i64> {
        if self.chance.percent(missing) {
            return None;
        }
        let price = self.some_price(ladder);
        let tick = self.tick_of(ladder);
        let value = match self.chance.below(12) {
            0..=4 => price.saturating_add(tick / 2),
            5 | 6 => price
                .saturating_add(tick / 2)
                .saturating_add(self.chance.of(&[1, -1])),
            7 => price,
            8 => self.chance.of(&[LIMIT, -LIMIT, LIMIT - 1, 1 - LIMIT]),
            9 if self.chance.percent(30) => self.chance.of(&[LIMIT + 1, -LIMIT - 1]),
            _ => price.saturating_add(self.chance.between(0, tick)),
        };
        Some(value)
    }

    // Mostly one that is listed.
    fn some_series(&mut self) -> i64 {
        let count = self.listed.len() as i64;
        if self.chance.percent(3) {
            self.chance.of(&[-1, count, 31, 32, 256, 9_999_999_999])
        } else {
            self.chance.between(0, count.saturating_sub(1))
        }
    }

    // What is listed under a number, as far as the plan knows.
    fn listed_as(&self, series: i64) -> Listed {
        usize::try_from(series)
            .ok()
            .and_then(|index| self.listed.get(index).copied())
            .unwrap_or(Listed {
                family: 1,
                ladder: 0,
            })
    }

    fn some_stamp(&mut self) -> i64 {
        if self.chance.percent(85) {
            self.last_stamp = stamp(&mut self.chance, self.record);
        }
        self.last_stamp
    }

    fn some_lots(&mut self) -> i64 {
        match self.chance.below(20) {
            0 => self.chance.of(&[0, 1, 100_000, 100_001, -1]),
            1 => self.chance.between(1, 100_000),
            _ => self.chance.between(1, 3),
        }
    }

    // Entries.

    fn write_entry(&mut self) -> Result<(), AllocError> {
        let series = self.some_series();
        let Listed { family, ladder } = self.listed_as(series);
        let spreads = if family == 2 { 60 } else { 3 };
        if self.chance.percent(spreads) {
            self.write_spread(series)
        } else if self.chance.percent(30) {
            self.write_quote(series, ladder)
        } else {
            self.write_deal(series, ladder)
        }
    }

    fn write_spread(&mut self, series: i64) -> Result<(), AllocError> {
        let stamp = self.some_stamp();
        let difference = self.some_spread();
        let line = format!(in self.alloc; "spread {series} {stamp} {difference}")?;
        self.write(line)
    }

    fn write_quote(&mut self, series: i64, ladder: i64) -> Result<(), AllocError> {
        let stamp = self.some_stamp();
        let price = self.some_entered_price(ladder);
        let width = match self.chance.below(30) {
            0 => 0,
            1 => -1,
            _ => self.chance.between(1, 4),
        };
        let ask = price.saturating_add(width.saturating_mul(self.tick_of(ladder)));
        let bid = Optional((!self.chance.percent(8)).then_some(price));
        let ask = Optional((!self.chance.percent(8)).then_some(ask));
        let line = format!(in self.alloc; "quote {series} {stamp} {bid} {ask}")?;
        self.write(line)
    }

    fn write_deal(&mut self, series: i64, ladder: i64) -> Result<(), AllocError> {
        let kind = match self.chance.below(10) {
            0 | 1 => "auction",
            2 | 3 => "leg",
            _ => "trade",
        };
        let stamp = self.some_stamp();
        let price = self.some_entered_price(ladder);
        let lots = self.some_lots();
        let line = format!(in self.alloc; "{kind} {series} {stamp} {price} {lots}")?;
        self.write(line)
    }

    // Supplied values and questions.

    fn write_theory(&mut self) -> Result<(), AllocError> {
        let series = self.some_series();
        let ladder = self.listed_as(series).ladder;
        let value = Optional(self.some_value(ladder, 15));
        let line = format!(in self.alloc; "theory {series} {value}")?;
        self.write(line)
    }

    fn write_ruling(&mut self) -> Result<(), AllocError> {
        let series = self.some_series();
        let ladder = self.listed_as(series).ladder;
        let value = Optional(self.some_value(ladder, 30));
        let first = u8::from(self.chance.percent(12));
        let line = format!(in self.alloc; "ruling {series} {value} {first}")?;
        self.write(line)
    }

    fn write_question(&mut self) -> Result<(), AllocError> {
        let series = self.some_series();
        let edition = self.chance.word(&["close", "morning"]);
        let line = format!(in self.alloc; "settle {series} {edition}")?;
        self.write(line)
    }

    // For about so many in a hundred of the series, a theory value, and for half as many a ruling.
    fn supply_some(&mut self, times: u64) -> Result<(), AllocError> {
        for _ in 0..self.listed.len() {
            if self.chance.percent(times) {
                self.write_theory()?;
            }
            if self.chance.percent(times / 2) {
                self.write_ruling()?;
            }
        }
        Ok(())
    }

    // Every series in both editions, and the number past the last, so many times in a hundred.
    fn ask_some(&mut self, times: u64) -> Result<(), AllocError> {
        if self.chance.percent(times) {
            self.ask_all()?;
        }
        Ok(())
    }

    fn ask_all(&mut self) -> Result<(), AllocError> {
        for series in 0..=self.listed.len() {
            let close = format!(in self.alloc; "settle {series} close")?;
            self.write(close)?;
            let morning = format!(in self.alloc; "settle {series} morning")?;
            self.write(morning)?;
        }
        Ok(())
    }
}
